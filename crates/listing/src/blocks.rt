// The blocks of a list, from the linked tables of a state.
ghost use Rattle.std.specs.Prelude.{◌≡◌, true, ◌≤◌, length};
ghost use Rattle.lists.specs.State.{taken};
ghost use Rattle.lists.specs.Lookup.{blocks_of};
ghost use Rattle.lists.specs.promises.Tables.{tables_in, OfShown};
ghost use Rattle.listing.specs.promises.Gathered.{Holds};

use card_log::entry::LogEntry;
use lists::tables::block_after;

// No list has more blocks.
pub const BLOCKS: usize = LogEntry::BLOCKS as usize;

// The blocks of a list that is taken go to dest, in order; their number is returned.
pub fn blocks_of(nodes: &[u8; 1280], list: u8, dest: &mut [u8]) -> usize
    requires { length dest.old ≡ 64 }
    ensures upper_bound { result ≤ 64 }
    ensures of_shown { OfShown (tables_in nodes.now) (λ rs. taken list rs ≡ true → Holds (blocks_of rs list) result dest.new) }
{
    let mut block = block_after(nodes, list, 0);
    let mut i = 0;
    while i < BLOCKS {
        if block == 0 {
            return i;
        }
        dest[i] = block;
        block = block_after(nodes, list, block);
        i += 1;
    }
    i
}
