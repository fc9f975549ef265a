// A word of a line: its bytes from `start` up to, not including, `end`.
ghost use Rattle.std.specs.Prelude.{◌≡◌};
ghost use Rattle.std.proofs.Math.Seq.{slice};

use crate::line::part;

// No `Range<usize>`, which is not `Copy`, as a command that holds a word is.
#[derive(Clone, Copy)]
pub struct Word {
    pub start: usize,
    pub end: usize,
}

impl Word {
    // The word's bytes, as far as the line has them.
    pub fn text(self, line: &[u8]) -> &[u8]
        ensures { result.now ≡ slice self.start self.end line.now }
    {
        part(line, self.start, self.end)
    }
}
