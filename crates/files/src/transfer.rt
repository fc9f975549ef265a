// Bytes read and written whole: every call is asked, and made again where a signal came before the first byte.
ghost use Rattle.std.specs.Prelude.{length};
ghost use Rattle.files.specs.Within.{InBuffer};

use std::fs::File;
use std::io::ErrorKind;
use std::os::fd::AsFd;
use std::{fs, io};

// Up to the end of the input, or of the buffer. std reads no array so: `read_exact` takes an early end for an error.
pub fn read_whole<R: io::Read>(from: &mut R, buffer: &mut [u8]) -> io::Result<usize>
    ensures { InBuffer result (length buffer.old) }
{
    let mut done = 0;
    while done < buffer.len() {
        match read_some(from, &mut buffer[done..])? {
            0 => break,
            n => done += n,
        }
    }
    Ok(done)
}

// What there is, 0 bytes at the end of the input. No proof knows that signals end, so the turns are counted, up to a number that
// is never reached.
pub fn read_some<R: io::Read>(from: &mut R, buffer: &mut [u8]) -> io::Result<usize>
    ensures { InBuffer result (length buffer.old) }
{
    for _ in 0..u64::MAX {
        match from.read(buffer) {
            Err(error) if error.kind() == ErrorKind::Interrupted => {}
            read => return read,
        }
    }
    Err(io::Error::from(ErrorKind::Interrupted))
}

pub fn write_whole<W: io::Write>(to: &mut W, bytes: &[u8]) -> io::Result<()> {
    to.write_all(bytes).map_err(without_text)
}

// Where a write takes nothing, std's own text is left out: the message has the kind's.
fn without_text(error: io::Error) -> io::Error {
    match error.kind() {
        ErrorKind::WriteZero => io::Error::from(ErrorKind::WriteZero),
        _ => error,
    }
}

// The streams that a program writes.
#[derive(Clone, Copy)]
pub enum Stream {
    Output,
    Error,
}

// The last text that goes to a stream.
pub fn write_last(rt: &HostRuntime, to: Stream, text: &[u8]) -> io::Result<()> {
    match to {
        Stream::Output => write_whole(&mut rt.stdout(), text)?,
        Stream::Error => write_whole(&mut rt.stderr(), text)?,
    }
    settle(rt, to)
}

// Is everything written? A file system may tell of a loss only at the end.
pub fn settle(rt: &HostRuntime, to: Stream) -> io::Result<()> {
    match to {
        Stream::Output => sync(rt, &rt.stdout(), "/dev/stdout"),
        Stream::Error => sync(rt, &rt.stderr(), "/dev/stderr"),
    }
}

// No call closes a stream and tells how that went, so a file is synced, opened again by the stream's name. Of a file that cannot be
// opened so, as one that may not be read, a loss at the end stays untold.
fn sync<F: AsFd>(rt: &HostRuntime, stream: &F, path: &str) -> io::Result<()> {
    let _open = stream.as_fd().try_clone_to_owned()?;
    if !fs::metadata(rt, path).is_ok_and(|status| status.is_file()) {
        return Ok(());
    }
    let Ok(file) = File::open(rt, path) else {
        return Ok(());
    };
    match file.sync_all() {
        Err(error) if error.kind() == ErrorKind::InvalidInput => Ok(()),
        synced => synced,
    }
}
