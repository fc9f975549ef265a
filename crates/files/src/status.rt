// What a path names: the file's status, whether it may be written, and the path behind links.
ghost use Rattle.std.specs.Prelude.{◌≡◌};
ghost use Rattle.files.specs.Status.{permissions_of};
ghost use Rattle.files.specs.Status.{is_regular as Status·is_regular};

use crate::path::{PathBytes, path_text};
use std::fs::{File, Metadata};
use std::path::PathBuf;
use std::{fs, io};

// As many as the system follows.
const LINKS: usize = 40;

// The bits of a mode that say who may do what.
const PERMISSIONS: u32 = 0o10000;

const REGULAR: u32 = 0o100000 / PERMISSIONS;

// The status of the file that a path names, links followed.
pub fn look(rt: &HostRuntime, path: &[u8]) -> io::Result<Metadata> {
    fs::metadata(rt, path_text(path)?)
}

// The status of what a path names, which may be a link.
pub fn look_at(rt: &HostRuntime, path: &[u8]) -> io::Result<Metadata> {
    fs::symlink_metadata(rt, path_text(path)?)
}

// Of the number, as `specs/Status` has it: std's `is_file` and `permissions` are of types of its own.
pub fn is_regular(mode: u32) -> bool
    ensures { result ≡ Status·is_regular mode }
{
    mode / PERMISSIONS % 16 == REGULAR
}

pub fn permissions(mode: u32) -> u32
    ensures { result ≡ permissions_of mode }
{
    mode % PERMISSIONS
}

// No call asks for the right alone: the file is opened to be added to, and nothing is.
pub fn may_be_written(rt: &HostRuntime, path: &[u8]) -> io::Result<()> {
    let _file = File::options().append(true).open(rt, path_text(path)?)?;
    Ok(())
}

// The path behind the links that a path names. Whether something is there is not asked.
pub fn resolve(rt: &HostRuntime, path: &[u8]) -> PathBytes {
    let mut target = PathBytes::of(path);
    for _ in 0..LINKS {
        let Ok(link) = read_link(rt, target.bytes()) else {
            break;
        };
        target.follow(link.as_str().as_bytes());
    }
    target
}

fn read_link(rt: &HostRuntime, path: &[u8]) -> io::Result<PathBuf> {
    fs::read_link(rt, path_text(path)?)
}
