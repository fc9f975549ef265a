// Paths as bytes: the folder that a path names, and where a link leads.
ghost use Rattle.std.specs.Prelude.{◌≡◌, ◌-◌, length as Len, replicate};
ghost use Rattle.std.proofs.Math.Seq.{slice};
ghost use Rattle.text.specs.Written.{written, Puts};
ghost use Rattle.files.specs.Path.{Ended, folder_of, start_of, beside};

use std::io;
use std::io::ErrorKind;
use std::str::from_utf8;
use text::line::part;
use text::put::put_bytes;

// No path of the system's is as long.
pub const PATH_MAX: usize = 4096;

const LAST: usize = PATH_MAX - 1;

const SLASH: u8 = b'/';

// The array that C takes. What of a path has no room before the last 0 is lost.
pub fn ended(path: &[u8]) -> [u8; PATH_MAX]
    ensures { Ended result }
{
    let mut array = [0u8; PATH_MAX];
    put_bytes(&mut array, 0, path);
    array[LAST] = 0;
    array
}

// A path as std takes it.
pub fn path_text(path: &[u8]) -> io::Result<&str> {
    from_utf8(path).map_err(|_| io::Error::from(ErrorKind::InvalidFilename))
}

// How many bytes of a path name its folder, the slash among them; 0 where it names none.
#[tactic(auto, using(crate::proofs::Paths::folder_none))]
pub fn folder(path: &[u8]) -> usize
    ensures { result ≡ folder_of path.now }
{
    match path.iter().rposition(|byte| *byte == SLASH) {
        Some(n) => n + 1,
        None => 0,
    }
}

// A path in an array of its own. Of one that is too long what has no room is lost, and the system refuses it.
#[derive(Clone, Copy)]
pub struct PathBytes {
    array: [u8; PATH_MAX],
    length: usize,
}

impl PathBytes {
    pub fn of(path: &[u8]) -> PathBytes
        ensures { Puts (replicate 4096 0) 0 path.now result.array result.length }
    {
        let mut array = [0u8; PATH_MAX];
        let length = put_bytes(&mut array, 0, path);
        PathBytes { array, length }
    }

    // A name in the folder of a path.
    pub fn beside(path: &[u8], name: &[u8]) -> PathBytes
        ensures { Puts (replicate 4096 0) 0 (beside path.now name.now) result.array result.length }
    {
        let mut array = [0u8; PATH_MAX];
        let length = put_beside(&mut array, path, name);
        PathBytes { array, length }
    }

    pub fn bytes(&self) -> &[u8]
        ensures { result.now ≡ slice 0 self.now.length self.now.array }
    {
        part(&self.array, 0, self.length)
    }

    // A path gives way to the one that the link at it leads to: the link's text, from the root or from the link's folder.
    pub fn follow(&mut self, link: &[u8])
        ensures { Puts self.old.array (start_of (slice 0 self.old.length self.old.array) link.now) link.now self.new.array self.new.length }
    {
        let at = start(self.bytes(), link);
        self.length = put_bytes(&mut self.array, at, link);
    }

    // The last bytes give way to others.
    pub fn end_with(&mut self, bytes: &[u8])
        ensures length_stays { self.new.length ≡ self.old.length }
        ensures ends { self.new.array ≡ written self.old.array (self.old.length - Len bytes.now) bytes.now }
    {
        let at = self.length.saturating_sub(bytes.len());
        put_bytes(&mut self.array, at, bytes);
    }
}

// A name in the folder of a path.
pub fn put_beside(out: &mut [u8], path: &[u8], name: &[u8]) -> usize
    ensures { Puts out.old 0 (beside path.now name.now) out.new result }
{
    let at = put_bytes(out, 0, part(path, 0, folder(path)));
    put_bytes(out, at, name)
}

#[tactic(auto, using(crate::proofs::Paths::rooted_none, crate::proofs::Paths::rooted_at), unfolding(crate::specs::Path::start_of))]
fn start(path: &[u8], link: &[u8]) -> usize
    ensures { result ≡ start_of path.now link.now }
{
    match link {
        [SLASH, ..] => 0,
        _ => folder(path),
    }
}
