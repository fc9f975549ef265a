// The parts that lines are put together from, and the lines that say no reply.
ghost use Rattle.text.specs.Written.{Puts};
ghost use Rattle.listing.specs.Listing.{numbers, list_line};
ghost use Rattle.script.specs.Lines.{number_line, pair_line, triple_line, cut_line, raced_text, block_line, unwritten_line, spaced};

use text::decimal::put_decimal;
use text::hex::put_hex;
use text::put::{put_byte, put_bytes};

// One number, two or three: a loop over a slice of them would be `put_numbers` once more.
// `A`
pub fn put_number(out: &mut [u8], at: usize, a: u64) -> usize
    ensures { Puts out.old at (number_line a) out.new result }
{
    let position = put_decimal(out, at, a);
    put_byte(out, position, b'\n')
}

// `A B`
pub fn put_pair(out: &mut [u8], at: usize, a: u64, b: u64) -> usize
    ensures { Puts out.old at (pair_line a b) out.new result }
{
    let first = put_decimal(out, at, a);
    let second = put_spaced(out, first, b);
    put_byte(out, second, b'\n')
}

// `A B C`
pub fn put_triple(out: &mut [u8], at: usize, a: u64, b: u64, c: u64) -> usize
    ensures { Puts out.old at (triple_line a b c) out.new result }
{
    let mut position = put_decimal(out, at, a);
    position = put_spaced(out, position, b);
    position = put_spaced(out, position, c);
    put_byte(out, position, b'\n')
}

// A blank and a number.
pub fn put_spaced(out: &mut [u8], at: usize, n: u64) -> usize
    ensures { Puts out.old at (spaced n) out.new result }
{
    let position = put_byte(out, at, b' ');
    put_decimal(out, position, n)
}

// The numbers, a blank before each.
pub fn put_numbers(out: &mut [u8], at: usize, ns: &[u8]) -> usize
    ensures { Puts out.old at (numbers ns.now) out.new result }
{
    let mut position = at;
    for n in ns {
        position = put_spaced(out, position, u64::from(*n));
    }
    position
}

// `cut STORES`
pub fn put_cut(out: &mut [u8], at: usize, stores: u64) -> usize
    ensures { Puts out.old at (cut_line stores) out.new result }
{
    let mut position = put_bytes(out, at, b"cut ");
    position = put_decimal(out, position, stores);
    put_byte(out, position, b'\n')
}

// `list L:` and its blocks
pub fn put_list(out: &mut [u8], at: usize, list: u8, blocks: &[u8]) -> usize
    ensures { Puts out.old at (list_line list blocks.now) out.new result }
{
    let mut position = put_bytes(out, at, b"list ");
    position = put_decimal(out, position, u64::from(list));
    position = put_byte(out, position, b':');
    position = put_numbers(out, position, blocks);
    put_byte(out, position, b'\n')
}

// `HEX race R`, `HEX` where the race is 0
pub fn put_raced(out: &mut [u8], at: usize, content: &[u8], race: u8) -> usize
    ensures { Puts out.old at (raced_text content.now race) out.new result }
{
    let mut position = put_hex(out, at, content);
    if race == 0 {
        return position;
    }
    position = put_bytes(out, position, b" race ");
    put_decimal(out, position, u64::from(race))
}

// `block B: HEX race R`
pub fn put_block(out: &mut [u8], at: usize, block: u8, content: &[u8], race: u8) -> usize
    ensures { Puts out.old at (block_line block content.now race) out.new result }
{
    let mut position = put_bytes(out, at, b"block ");
    position = put_decimal(out, position, u64::from(block));
    position = put_bytes(out, position, b": ");
    position = put_raced(out, position, content, race);
    put_byte(out, position, b'\n')
}

// `block B: unwritten`
pub fn put_unwritten(out: &mut [u8], at: usize, block: u8) -> usize
    ensures { Puts out.old at (unwritten_line block) out.new result }
{
    let mut position = put_bytes(out, at, b"block ");
    position = put_decimal(out, position, u64::from(block));
    position = put_bytes(out, position, b": unwritten");
    put_byte(out, position, b'\n')
}
