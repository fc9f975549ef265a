// Question 5 of the numbers that callers give, and question 9 of a predecessor.
ghost use Rattle.std.specs.Prelude.{◌≡◌, ◌&&◌, ◌||◌, ◌≤◌, leb, eqb};
ghost use Rattle.lists.specs.State.{on_list};
ghost use Rattle.lists.specs.promises.Tables.{tables_in, OfShown, IsList};
ghost use Rattle.card_log.specs.Card.{slot_bytes};
ghost use Rattle.card_log.specs.Entry.{is_block, is_list, is_race};
ghost use Rattle.disk.specs.Record.{unit_count};
ghost use Rattle.disk.specs.Questions.{is_window};

use card_log::entry::LogEntry;
use card_log::layout::SLOT;
use disk::record::Record;
use lists::tables::is_on;

const BLOCKS: usize = LogEntry::BLOCKS as usize;

const LISTS: usize = LogEntry::LISTS as usize;

const RACES: usize = LogEntry::RACES as usize;

pub fn is_block(b: usize) -> bool
    ensures { result ≡ is_block b }
{
    1 <= b && b <= BLOCKS
}

pub fn is_list(l: usize) -> bool
    ensures { result ≡ is_list l }
{
    1 <= l && l <= LISTS
}

pub fn is_unit(u: usize) -> bool
    ensures { result ≡ leb 1 u && leb u unit_count }
{
    1 <= u && u <= Record::UNITS
}

pub fn is_window(w: usize) -> bool
    ensures { result ≡ is_window w }
{
    1 <= w && w <= Record::WINDOWS
}

pub fn is_race(n: usize) -> bool
    ensures { result ≡ is_race n }
{
    n <= RACES
}

// A list, and a block on it or 0, which stands for none.
pub fn is_position(l: usize, p: usize) -> bool
    ensures { result ≡ is_list l && leb p 64 }
{
    is_list(l) && p <= BLOCKS
}

// A block, and as many bytes as it has.
pub fn is_read(b: usize, n: usize) -> bool
    ensures { result ≡ is_block b && eqb n slot_bytes }
{
    is_block(b) && n == SLOT
}

// A block, a race, and as many bytes as a block has.
pub fn is_write(b: usize, race: usize, n: usize) -> bool
    ensures { result ≡ is_block b && is_race race && eqb n slot_bytes }
{
    is_block(b) && is_race(race) && n == SLOT
}

// 9. Is the predecessor on the list, if there is one?
pub fn follows(nodes: &[u8; 1280], l: u8, p: u8) -> bool
    requires { IsList l × (p ≤ 64) }
    ensures { OfShown (tables_in nodes.now) (λ rs. result ≡ eqb p 0 || on_list l p rs) }
{
    p == 0 || is_on(nodes, l, p)
}
