// The lists' lines, from the linked tables of a state.
ghost use Rattle.std.specs.Prelude.{◌≡◌, [], ◌∷◌, length};
ghost use Rattle.lists.specs.promises.Tables.{tables_in, OfShown};
ghost use Rattle.text.specs.Written.{Puts};
ghost use Rattle.listing.specs.Listing.{numbers, list_line, list_lines};

use crate::taken::put_taken;
use text::decimal::put_decimal;
use text::put::{put_byte, put_bytes};

// The lists taken, ascending.
pub fn put_lists(out: &mut [u8], at: usize, nodes: &[u8; 1280]) -> usize
    ensures out_len_unchanged { length out.new ≡ length out.old }
    ensures of_shown { OfShown (tables_in nodes.now) (λ rs. Puts out.old at (list_lines rs) out.new result) }
{
    put_taken(out, at, nodes, put_line)
}

fn put_line(out: &mut [u8], at: usize, list: u8, blocks: &[u8]) -> usize
    ensures { Puts out.old at (list_line list blocks.now) out.new result }
{
    let mut position = put_bytes(out, at, b"list ");
    position = put_decimal(out, position, u64::from(list));
    position = put_byte(out, position, b':');
    position = put_numbers(out, position, blocks);
    put_byte(out, position, b'\n')
}

// A blank before each.
fn put_numbers(out: &mut [u8], at: usize, blocks: &[u8]) -> usize
    ensures { Puts out.old at (numbers blocks.now) out.new result }
{
    let mut position = at;
    for block in blocks {
        position = put_number(out, position, *block);
    }
    position
}

fn put_number(out: &mut [u8], at: usize, block: u8) -> usize
    ensures { Puts out.old at (numbers (block ∷ [])) out.new result }
{
    let position = put_byte(out, at, b' ');
    put_decimal(out, position, u64::from(block))
}
