// The lines that a list has on the page: its number, its blocks, eleven to a line, and blanks.
ghost use Rattle.std.specs.Prelude.{◌≡◌, ◌≤◌, length};
ghost use Rattle.lists.specs.Basic.{from, joined};
ghost use Rattle.text.specs.Columns.{right_aligned};
ghost use Rattle.text.specs.Decimal.{decimal};
ghost use Rattle.text.specs.Written.{Puts};
ghost use Rattle.listing.specs.Page.{cells as Page·cells};
ghost use Rattle.listing.specs.Page.{margin as Page·margin};
ghost use Rattle.listing.specs.Page.{page_line, line_count};

use text::decimal::put_decimal;
use text::line::part;
use text::put::{put_blanks, put_byte};

// The bytes of a line, its end among them.
pub const LINE: usize = COLUMNS + 1;

const COLUMNS: usize = 40;

// The columns of the list's number, with the blank behind it, and of a block's.
const LIST: usize = 4;

const MARGIN: usize = LIST + 1;

const BLOCK: usize = 3;

// The blocks on a line.
const PER_LINE: usize = 11;

// How many lines so many blocks have: an empty list has one.
pub fn line_count(blocks: usize) -> usize
    ensures { result ≡ line_count blocks }
{
    blocks.div_ceil(PER_LINE).max(1)
}

pub fn put_lines(out: &mut [u8], at: usize, list: u8, blocks: &[u8]) -> usize
    requires { length blocks.now ≤ 64 }
    ensures { Puts out.old at (joined (from (page_line list blocks.now) 0 (line_count (length blocks.now)))) out.new result }
{
    let mut position = at;
    for k in 0..line_count(blocks.len()) {
        position = put_line(out, position, list, blocks, k);
    }
    position
}

// Line k, from 0.
fn put_line(out: &mut [u8], at: usize, list: u8, blocks: &[u8], k: usize) -> usize
    requires { k ≤ 64 }
    ensures { Puts out.old at (page_line list blocks.now k) out.new result }
{
    let here = part(blocks, PER_LINE * k, PER_LINE * k + PER_LINE);
    let mut position = put_margin(out, at, list, k);
    position = put_cells(out, position, here);
    position = put_blanks(out, position, COLUMNS - MARGIN - BLOCK * here.len());
    put_byte(out, position, b'\n')
}

// Only a list's first line has its number.
fn put_margin(out: &mut [u8], at: usize, list: u8, k: usize) -> usize
    ensures { Puts out.old at (Page·margin list k) out.new result }
{
    if k != 0 {
        return put_blanks(out, at, MARGIN);
    }
    let position = put_right(out, at, LIST, list);
    put_byte(out, position, b' ')
}

fn put_cells(out: &mut [u8], at: usize, blocks: &[u8]) -> usize
    ensures { Puts out.old at (Page·cells blocks.now) out.new result }
{
    let mut position = at;
    for block in blocks {
        position = put_right(out, position, BLOCK, *block);
    }
    position
}

// A number right-aligned in three columns or more.
fn put_right(out: &mut [u8], at: usize, columns: usize, n: u8) -> usize
    requires { 3 ≤ columns }
    ensures { Puts out.old at (right_aligned columns n) out.new result }
{
    let position = put_blanks(out, at, columns - digits(n));
    put_decimal(out, position, u64::from(n))
}

fn digits(n: u8) -> usize
    ensures { (result ≡ length (decimal n)) × (result ≤ 3) }
{
    if n < 10 {
        return 1;
    }
    if n < 100 { 2 } else { 3 }
}
