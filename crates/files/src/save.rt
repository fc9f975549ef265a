// A file replaced whole: the bytes go to a new file beside it, which takes its place once all of it is on the disk. What was there
// before is never written, so that the path names the old bytes or the new ones whatever happens.
use crate::found::open_folder;
use crate::message::{Context, Failure, told};
use crate::path::{PathBytes, path_text};
use crate::status::{may_be_written, permissions};
use crate::transfer::write_whole;
use std::fs::{File, Metadata, Permissions};
use std::io::ErrorKind;
use std::os::unix::fs::{MetadataExt, OpenOptionsExt, PermissionsExt, fchown};
use std::random::RandomSource;
use std::{fs, io};

// As many names as C's mkstemp tries.
const NAMES: usize = 238328;

// What a name is drawn from.
const LETTERS: [u8; 62] = *b"ABCDEFGHIJKLMNOPQRSTUVWXYZabcdefghijklmnopqrstuvwxyz0123456789";

// Where a step fails, that is told, and no further one is made.
pub fn save(rt: &HostRuntime, who: &[u8], target: &[u8], found: Option<&Metadata>, bytes: &[u8]) {
    let mut name = PathBytes::beside(target, b"card-XXXXXX");
    let Some((folder, file)) = told(rt, who, begin(rt, target, found, &mut name)) else {
        return;
    };
    let name = name.bytes();
    match told(rt, who, replace(rt, target, found, bytes, file, name)) {
        Some(()) => {
            let synced = folder.sync_all();
            told(
                rt,
                who,
                synced.context("saved, but its folder is not synced"),
            );
        }
        None => {
            told(rt, name, remove(rt, name).context("not removed"));
        }
    }
}

// The folder, and a new file in it. A file that may not be written is not replaced either.
fn begin(
    rt: &HostRuntime,
    target: &[u8],
    found: Option<&Metadata>,
    name: &mut PathBytes,
) -> Result<(File, File), Failure> {
    if found.is_some() {
        may_be_written(rt, target).context("not saved")?;
    }
    let folder = open_folder(rt, target).context("not saved: its folder")?;
    let file = make(rt, name, found).context("not saved: a new file beside it")?;
    Ok((folder, file))
}

fn replace(
    rt: &HostRuntime,
    target: &[u8],
    found: Option<&Metadata>,
    bytes: &[u8],
    file: File,
    name: &[u8],
) -> Result<(), Failure> {
    fill(file, found, bytes)?;
    rename(rt, name, target).context("not saved: renaming the new file")
}

fn rename(rt: &HostRuntime, from: &[u8], to: &[u8]) -> io::Result<()> {
    fs::rename(rt, path_text(from)?, path_text(to)?)
}

fn remove(rt: &HostRuntime, path: &[u8]) -> io::Result<()> {
    fs::remove_file(rt, path_text(path)?)
}

// A new file under the name, whose X's are replaced until no file has it.
fn make(rt: &HostRuntime, name: &mut PathBytes, found: Option<&Metadata>) -> io::Result<File> {
    for _ in 0..NAMES {
        name.end_with(&draw(rt)?);
        match make_new(rt, name.bytes(), found) {
            Err(error) if error.kind() == ErrorKind::AlreadyExists => {}
            made => return made,
        }
    }
    Err(io::Error::from(ErrorKind::AlreadyExists))
}

// The last six bytes of a name.
fn draw(rt: &HostRuntime) -> io::Result<[u8; 6]> {
    let mut drawn = [0u8; 6];
    rt.fill_bytes(&mut drawn)?;
    Ok(drawn.map(|byte| LETTERS[usize::from(byte % 62)]))
}

// Nobody else may open it, until it is given the old file's permissions. Where there was no file, it has those that the system
// gives to new files.
fn make_new(rt: &HostRuntime, name: &[u8], found: Option<&Metadata>) -> io::Result<File> {
    File::options()
        .write(true)
        .create_new(true)
        .mode(found.map_or(0o666, |_| 0o600))
        .open(rt, path_text(name)?)
}

fn fill(mut file: File, found: Option<&Metadata>, bytes: &[u8]) -> Result<(), Failure> {
    write_whole(&mut file, bytes).context("not saved: writing the new file")?;
    // A write takes permissions away, so they come after it.
    if let Some(status) = found {
        keep_status(&file, status)?;
    }
    file.sync_all().context("not saved: syncing the new file")
}

// So does a change of owner.
fn keep_status(file: &File, status: &Metadata) -> Result<(), Failure> {
    fchown(file, Some(status.uid()), Some(status.gid())).context(
        "not saved: keeping its owner and group",
    )?;
    file.set_permissions(Permissions::from_mode(permissions(status.mode())))
        .context("not saved: keeping its permissions")
}
