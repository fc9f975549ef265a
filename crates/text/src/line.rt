// A line taken apart into words, which blanks keep apart.
ghost use Rattle.std.specs.Prelude.{◌≡◌, ◌+◌, drop};
ghost use Rattle.std.proofs.Math.Seq.{slice};
ghost use Rattle.text.specs.Line.{word_from, run, same};

use crate::word::Word;

const BLANK: u8 = b' ';

// The next word from a position on; where there is none, an empty one at the line's end.
#[tactic(auto, unfolding(crate::specs::Line::word_from))]
pub fn word(line: &[u8], from: usize) -> Word
    ensures { result ≡ word_from line.now from }
{
    let start = run_end(line, from, true);
    let end = run_end(line, start, false);
    Word { start, end }
}

// Where the blanks from a position on end, or the bytes that are none.
fn run_end(line: &[u8], from: usize, blanks: bool) -> usize
    ensures { result ≡ from + run blanks (drop from line.now) }
{
    for i in from..line.len() {
        if (line[i] == BLANK) != blanks {
            return i;
        }
    }
    from.max(line.len())
}

#[tactic(auto, using(crate::proofs::Lines::same_is))]
pub fn is_same(a: &[u8], b: &[u8]) -> bool
    ensures { result ≡ same a.now b.now }
{
    a == b
}

// The bytes from `start` up to `end`, as far as the line has them.
#[tactic(auto, using(crate::proofs::Lines::slice_within))]
pub fn part(line: &[u8], start: usize, end: usize) -> &[u8]
    ensures { result.now ≡ slice start end line.now }
{
    let to = end.min(line.len());
    let from = start.min(to);
    &line[from..to]
}
