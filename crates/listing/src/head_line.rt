// The first line: how many segments a card has, how many of them are used, and how many entries they have.
ghost use Rattle.std.specs.Prelude.{◌≡◌};
ghost use Rattle.text.specs.Written.{Puts};
ghost use Rattle.listing.specs.Listing.{head_line};
ghost use Rattle.listing.specs.Listing.{used as Listing·used, entries as Listing·entries};

use card_log::layout::{COUNT_AT, SEGMENT};
use text::decimal::put_decimal;
use text::put::{put_byte, put_bytes};

#[derive(Clone, Copy)]
pub struct Counted {
    pub used: u64,
    pub entries: u64,
}

pub fn put_head(out: &mut [u8], at: usize, card: &[u8]) -> usize
    ensures { Puts out.old at (head_line card.now) out.new result }
{
    let t = counts(card);
    let mut position = put_bytes(out, at, b"segments ");
    position = put_decimal(out, position, (card.len() / SEGMENT) as u64);
    position = put_bytes(out, position, b" used ");
    position = put_decimal(out, position, t.used);
    position = put_bytes(out, position, b" entries ");
    position = put_decimal(out, position, t.entries);
    put_byte(out, position, b'\n')
}

fn counts(card: &[u8]) -> Counted
    ensures { (result.used ≡ Listing·used card.now) × (result.entries ≡ Listing·entries card.now) }
{
    let mut used = 0u64;
    let mut entries = 0u64;
    for g in 0..card.len() / SEGMENT {
        let count = card[g * SEGMENT + COUNT_AT];
        used += u64::from(0 < count);
        entries += u64::from(count);
    }
    Counted { used, entries }
}
