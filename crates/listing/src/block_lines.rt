// The blocks' lines, from the linked tables of a state whose contents stand at locations of a card. Races are not printed.
ghost use Rattle.std.specs.Prelude.{◌≡◌, ◌≤◌, length};
ghost use Rattle.lists.specs.promises.Tables.{tables_in, IsBlock, OfShown, located_at};
ghost use Rattle.text.specs.Written.{Puts};
ghost use Rattle.listing.specs.Listing.{total, content_text, block_part, block_lines};
ghost use Rattle.listing.specs.promises.Shown.{sum_at};

use card_log::entry::LogEntry;
use card_log::layout::SLOT;
use card_log::location::{QUEUE_AT, RACE};
use lists::tables::{UNWRITTEN, is_placed, location_of};
use text::decimal::put_decimal;
use text::line::part;
use text::put::{put_byte, put_bytes};

// How many locations a card has.
const SLOTS: u16 = QUEUE_AT - 1;

// The blocks on some list, ascending.
pub fn put_blocks(out: &mut [u8], at: usize, card: &[u8], nodes: &[u8; 1280]) -> usize
    ensures out_len_unchanged { length out.new ≡ length out.old }
    ensures of_shown { OfShown (tables_in nodes.now) (λ rs.
        Puts out.old at (block_lines (sum_at card.now) rs) out.new result) }
{
    let mut position = at;
    for block in 1..=LogEntry::BLOCKS {
        position = put_block(out, position, card, nodes, block);
    }
    position
}

// A block's line, where it is on some list.
fn put_block(out: &mut [u8], at: usize, card: &[u8], nodes: &[u8; 1280], block: u8) -> usize
    ensures out_len_unchanged { length out.new ≡ length out.old }
    ensures of_shown { OfShown (tables_in nodes.now) (λ rs.
        IsBlock block → Puts out.old at (block_part (sum_at card.now) rs block) out.new result) }
{
    if !is_placed(nodes, block) {
        return at;
    }
    let number = location_of(nodes, block);
    let mut position = put_bytes(out, at, b"block ");
    position = put_decimal(out, position, u64::from(block));
    position = put_bytes(out, position, b": ");
    position = put_content(out, position, card, number);
    put_byte(out, position, b'\n')
}

// The sum of the bytes that a number says, or that the block is unwritten.
fn put_content(out: &mut [u8], at: usize, card: &[u8], number: u16) -> usize
    ensures { Puts out.old at (content_text (sum_at card.now) (located_at number)) out.new result }
{
    if number == UNWRITTEN {
        return put_bytes(out, at, b"unwritten");
    }
    put_decimal(out, at, sum_at(card, number))
}

// The sum of the bytes on the card that a number says; behind the card's locations there is nothing.
fn sum_at(card: &[u8], number: u16) -> u64
    requires { 1 ≤ number }
    ensures { result ≡ sum_at card.now number }
{
    let at = (number - 1) % RACE;
    if SLOTS <= at {
        return 0;
    }
    let from = usize::from(at) * SLOT;
    sum(part(card, from, from + SLOT))
}

fn sum(bytes: &[u8]) -> u64
    requires { length bytes.now ≤ 256 }
    ensures { result ≡ total bytes.now }
{
    bytes.iter().map(|b| u64::from(*b)).sum()
}
