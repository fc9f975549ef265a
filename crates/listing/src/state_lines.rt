// A card's whole text but for its refusals, and a refusal's line.
ghost use Rattle.std.specs.Prelude.{◌≡◌, ◌++◌, length};
ghost use Rattle.lists.specs.promises.Tables.{tables_in, OfShown};
ghost use Rattle.text.specs.Written.{Puts};
ghost use Rattle.answers.specs.Answers.{number};
ghost use Rattle.listing.specs.Listing.{refusal_line, head_line, list_lines, block_lines};
ghost use Rattle.listing.specs.promises.Shown.{sum_at};

use crate::block_lines::put_blocks;
use crate::head_line::put_head;
use crate::list_lines::put_lists;
use answers::Refusal;
use text::decimal::put_decimal;
use text::put::{put_byte, put_bytes};

pub fn put_refusal(out: &mut [u8], at: usize, refusal: Refusal) -> usize
    ensures { Puts out.old at (refusal_line (number refusal)) out.new result }
{
    let mut position = put_bytes(out, at, b"refused ");
    position = put_decimal(out, position, u64::from(refusal));
    put_byte(out, position, b'\n')
}

// The lines of a card whose log is acceptable; the tables show its state.
pub fn put_state(out: &mut [u8], at: usize, card: &[u8], nodes: &[u8; 1280]) -> usize
    ensures out_len_unchanged { length out.new ≡ length out.old }
    ensures of_shown { OfShown (tables_in nodes.now) (λ rs.
        Puts out.old at (head_line card.now ++ list_lines rs ++ block_lines (sum_at card.now) rs) out.new result) }
{
    let mut position = put_head(out, at, card);
    position = put_lists(out, position, nodes);
    put_blocks(out, position, card, nodes)
}
