// A file before it is read: what stands at its path, and its bytes.
ghost use Rattle.std.specs.Prelude.{length};
ghost use Rattle.files.specs.Within.{InBuffer};

use crate::message::{Context, Failure};
use crate::path::{folder, path_text};
use crate::status::{is_regular, look, look_at};
use crate::transfer::read_whole;
use std::fs::{File, Metadata};
use std::io;
use std::io::ErrorKind;
use std::os::unix::fs::MetadataExt;
use text::line::part;

// What stands at a path, which leads to the target (`status::resolve`): a file, or nothing yet.
pub fn find(rt: &HostRuntime, path: &[u8], target: &[u8]) -> Result<Option<Metadata>, Failure> {
    match look(rt, path) {
        Ok(status) if !is_regular(status.mode()) => {
            Err(Failure::refusal("not read: not a regular file"))
        }
        Ok(status) if !is_at(rt, target, &status) => Err(unfollowed()),
        Ok(status) => Ok(Some(status)),
        Err(error) if error.kind() == ErrorKind::NotFound => find_nothing(rt, target),
        Err(error) => Err(Failure::of("not read", error)),
    }
}

// A file can be made there only if its folder is there, and no link that was not followed.
fn find_nothing(rt: &HostRuntime, target: &[u8]) -> Result<Option<Metadata>, Failure> {
    if look_at(rt, target).is_ok() {
        return Err(unfollowed());
    }
    open_folder(rt, target).context("its folder")?;
    Ok(None)
}

fn unfollowed() -> Failure {
    Failure::refusal("not read: its link cannot be followed")
}

// Is it the same file, and no link to it?
fn is_at(rt: &HostRuntime, target: &[u8], status: &Metadata) -> bool {
    look_at(rt, target).is_ok_and(|other| (other.dev(), other.ino())
        == (status.dev(), status.ino()))
}

pub fn open_folder(rt: &HostRuntime, target: &[u8]) -> io::Result<File> {
    match folder(target) {
        0 => File::open(rt, "."),
        n => open(rt, part(target, 0, n)),
    }
}

fn open(rt: &HostRuntime, path: &[u8]) -> io::Result<File> {
    File::open(rt, path_text(path)?)
}

// The file's bytes, none where there is no file yet.
pub fn load(
    rt: &HostRuntime,
    target: &[u8],
    found: Option<&Metadata>,
    buffer: &mut [u8],
) -> Result<usize, Failure>
    ensures { InBuffer result (length buffer.old) }
{
    if found.is_none() {
        return Ok(0);
    }
    let mut file = open(rt, target).context("not read")?;
    read_whole(&mut file, buffer).context("not read")
}
