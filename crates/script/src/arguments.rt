// The words behind a command's name: so many numbers and nothing more.
ghost use Rattle.std.specs.Prelude.{◌≡◌};
ghost use Rattle.script.specs.Arguments.{ended_at, one_from, two_from, three_from, window_from, part_from, lent_from, raced_from};

use text::decimal::number;
use text::line::word;

// The bytes of a block, which are lent where no number says less, and the most that a line can have lent of one, or for an inventory.
pub const BLOCK: u64 = 256;

pub const MOST: u64 = 300;

// Does no word stand behind the position?
#[tactic(auto, unfolding(crate::specs::Arguments::ended_at))]
pub fn is_end(line: &[u8], from: usize) -> bool
    ensures { result ≡ ended_at line.now from }
{
    let w = word(line, from);
    w.start == w.end
}

#[tactic(auto, unfolding(crate::specs::Arguments::one_from))]
pub fn one_number(line: &[u8], from: usize) -> Option<u64>
    ensures { result ≡ one_from line.now from }
{
    let w = word(line, from);
    if is_end(line, w.end) {
        number(w.text(line))
    } else {
        None
    }
}

#[tactic(auto, unfolding(crate::specs::Arguments::two_from))]
pub fn two_numbers(line: &[u8], from: usize) -> Option<(u64, u64)>
    ensures { result ≡ two_from line.now from }
{
    let w = word(line, from);
    number(w.text(line)).zip(one_number(line, w.end))
}

#[tactic(auto, unfolding(crate::specs::Arguments::three_from))]
pub fn three_numbers(line: &[u8], from: usize) -> Option<(u64, u64, u64)>
    ensures { result ≡ three_from line.now from }
{
    let w = word(line, from);
    let first = number(w.text(line))?;
    let (second, third) = two_numbers(line, w.end)?;
    Some((first, second, third))
}

// The window behind the position, or window 1 where no word stands there.
#[tactic(auto, unfolding(crate::specs::Arguments::window_from))]
pub fn window(line: &[u8], from: usize) -> Option<u64>
    ensures { result ≡ window_from line.now from }
{
    if is_end(line, from) {
        Some(1)
    } else {
        one_number(line, from)
    }
}

// How many bytes are lent: the number behind the position, no greater than the most, or the whole where no word stands there.
#[tactic(auto, unfolding(crate::specs::Arguments::part_from))]
pub fn part_lent(line: &[u8], from: usize, whole: u64, most: u64) -> Option<u64>
    ensures { result ≡ part_from line.now from whole most }
{
    if is_end(line, from) {
        Some(whole)
    } else {
        one_number(line, from).filter(|lent| *lent <= most)
    }
}

// A number, and how many bytes are lent.
#[tactic(auto, unfolding(crate::specs::Arguments::lent_from))]
pub fn number_lent(line: &[u8], from: usize, whole: u64, most: u64) -> Option<(u64, u64)>
    ensures { result ≡ lent_from line.now from whole most }
{
    let w = word(line, from);
    number(w.text(line)).zip(part_lent(line, w.end, whole, most))
}

// How many bytes of a block are lent, and the race.
#[tactic(auto, unfolding(crate::specs::Arguments::raced_from))]
pub fn lent_raced(line: &[u8], from: usize) -> Option<(u64, u64)>
    ensures { result ≡ raced_from line.now from }
{
    let w = word(line, from);
    if is_end(line, w.end) {
        part_lent(line, from, BLOCK, MOST).zip(Some(0))
    } else {
        let lent = number(w.text(line)).filter(|lent| *lent <= MOST);
        lent.zip(one_number(line, w.end))
    }
}
