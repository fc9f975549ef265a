// The printed page of the lists that linked tables show, its length, and the page of a card.
ghost use Rattle.std.specs.Prelude.{◌≡◌, ◌≤◌, length};
ghost use Rattle.lists.specs.Basic.{joined};
ghost use Rattle.lists.specs.promises.Tables.{IsList, tables_in, OfShown};
ghost use Rattle.text.specs.Written.{Puts};
ghost use Rattle.listing.specs.Page.{list_page, page_text, card_page};

use crate::blocks::{BLOCKS, blocks_of};
use crate::page_line::{LINE, line_count, put_lines};
use crate::read::read;
use crate::state_lines::put_refusal;
use crate::taken::put_taken;
use card_log::entry::LogEntry;
use card_log::mount::SEGMENTS;
use lists::tables::is_taken;

// The most bytes that a page has: 16 lists and 64 blocks make 21 lines at most.
pub const PAGE: usize = 861;

// How many bytes the page has.
pub fn page_length(nodes: &[u8; 1280]) -> usize
    ensures { OfShown (tables_in nodes.now) (λ rs. result ≡ length (page_text rs)) }
{
    let mut n = 0;
    for list in 1..=LogEntry::LISTS {
        n += list_length(nodes, list);
    }
    n
}

fn list_length(nodes: &[u8; 1280], list: u8) -> usize
    ensures upper_bound { result ≤ 246 }
    ensures of_shown { OfShown (tables_in nodes.now) (λ rs. IsList list → result ≡ length (joined (list_page rs list))) }
{
    if !is_taken(nodes, list) {
        return 0;
    }
    let mut blocks = [0u8; BLOCKS];
    LINE * line_count(blocks_of(nodes, list, &mut blocks))
}

// The lists taken, ascending.
pub fn put_page(out: &mut [u8], at: usize, nodes: &[u8; 1280]) -> usize
    ensures out_len_unchanged { length out.new ≡ length out.old }
    ensures of_shown { OfShown (tables_in nodes.now) (λ rs. Puts out.old at (page_text rs) out.new result) }
{
    put_taken(out, at, nodes, put_lines)
}

// The page of a card's persistent state, put at a position; the one after the text is returned. `PAGE` bytes are enough for any card.
pub fn card_page(card: &[u8], out: &mut [u8], at: usize) -> usize
    ensures { Puts out.old at (card_page card.now) out.new result }
{
    let mut nodes = [0u8; 1280];
    match read(card, SEGMENTS, &mut nodes) {
        Ok(()) => put_page(out, at, &nodes),
        Err(refusal) => put_refusal(out, at, refusal),
    }
}
