// A reader of the log, over a held card: "A reader walks the log entry by entry from segment 0".
ghost use Rattle.std.specs.Prelude.{◌≡◌};
ghost use Rattle.card_log.specs.Card.{entries_offset};
ghost use Rattle.card_log.specs.promises.Found.{InSegment, Finds};

use super::entry::LogEntry;
use super::layout::{ENTRIES_AT, SEGMENT};
use super::map;
use super::parse::{Parsed, byte_at, parse};

// The mark of a member in an entry's map.
const MARK: u8 = 1 << map::MEMBER;

// The card, the segment, where on the card the next entry stands, and how many slots of the segment are used before it.
#[derive(Clone, Copy)]
pub struct Reader<'a> {
    pub card: &'a [u8],
    pub segment: usize,
    pub offset: usize,
    pub slots: usize,
}

// The entry that stands there, without its mark, and the place behind it; or none that is legal.
#[derive(Clone, Copy)]
pub enum Found {
    Plain(LogEntry, usize),
    Member(LogEntry, usize),
    Bad,
}

// The work, on the slice and the numbers.
fn found_at(card: &[u8], segment: usize, offset: usize, slots: usize) -> Found
    requires { InSegment card.now segment offset }
    ensures { Finds card.now segment offset slots result }
{
    let end = SEGMENT * segment + SEGMENT;
    let map = byte_at(card, offset, end);
    match parse(card, offset, end, slots, map & (MARK - 1)) {
        Parsed::Entry(e, behind) => {
            if MARK <= map {
                Found::Member(e, behind)
            } else {
                Found::Plain(e, behind)
            }
        }
        Parsed::Bad => Found::Bad,
    }
}

// Before the first entry of the card.
pub fn new<'a>(card: &'a [u8]) -> Reader<'a>
    ensures { (result.card ≡ card.entry) × (result.segment ≡ 0) × (result.offset ≡ entries_offset) × (result.slots ≡ 0) }
{
    Reader {
        card,
        segment: 0,
        offset: ENTRIES_AT,
        slots: 0,
    }
}

pub fn next<'a>(r: Reader<'a>) -> Found
    requires { InSegment r.card.now r.segment r.offset }
    ensures { Finds r.entry.card.now r.entry.segment r.entry.offset r.entry.slots result }
{
    found_at(r.card, r.segment, r.offset, r.slots)
}

pub fn moved<'a>(r: Reader<'a>, segment: usize, offset: usize, slots: usize) -> Reader<'a>
    ensures { (result.card ≡ r.entry.card) × (result.segment ≡ segment) × (result.offset ≡ offset) × (result.slots ≡ slots) }
{
    Reader {
        card: r.card,
        segment,
        offset,
        slots,
    }
}

// With plain parameters: whoever calls it is covered by the borrow checker's own walk.
pub fn entry_at(card: &[u8], segment: usize, offset: usize, slots: usize) -> Found
    requires { InSegment card.now segment offset }
    ensures { Finds card.now segment offset slots result }
{
    next(moved(new(card), segment, offset, slots))
}
