// What is put of each list that is taken.
ghost use Rattle.std.specs.Prelude.{◌≡◌, ◌≤◌, ℕ, List, length};
ghost use Rattle.lists.specs.promises.Tables.{tables_in, OfShown};
ghost use Rattle.text.specs.Written.{Puts};
ghost use Rattle.listing.specs.promises.Taken.{of_taken, PutsEach};

use crate::blocks::{BLOCKS, blocks_of};
use card_log::entry::LogEntry;
use lists::tables::is_taken;
use text::line::part;

// The lists taken, ascending: `put` is given each one's number and blocks.
pub fn put_taken<F: Fn(&mut [u8], usize, u8, &[u8]) -> usize>(
    out: &mut [u8],
    at: usize,
    nodes: &[u8; 1280],
    put: F,
) -> usize
    requires { (out : _) (at l : _) (bs : _) → length bs.now ≤ 64 → F.pre put out at l bs }
    ensures out_len_unchanged { length out.new ≡ length out.old }
    ensures of_shown { (text : ℕ → List ℕ → List ℕ) → PutsEach (F.post put) text
        → OfShown (tables_in nodes.now) (λ rs. Puts out.old at (of_taken text rs) out.new result) }
{
    let mut position = at;
    for list in 1..=LogEntry::LISTS {
        if is_taken(nodes, list) {
            let mut blocks = [0u8; BLOCKS];
            let n = blocks_of(nodes, list, &mut blocks);
            position = put(out, position, list, part(&blocks, 0, n));
        }
    }
    position
}
