// The holders of blocks and lists, over the committed state.
ghost use Rattle.std.specs.Prelude.{◌≡◌, ◌≤◌};
ghost use Rattle.lists.specs.Basic.{all};
ghost use Rattle.lists.specs.InUse.{in_use};
ghost use Rattle.lists.specs.Numbers.{all_numbers};
ghost use Rattle.lists.specs.promises.Tables.{tables_in, OfShown};
ghost use Rattle.disk.specs.Record.{record_in};
ghost use Rattle.disk.specs.Sound.{holder_sound};

use super::units::is_open;
use card_log::entry::LogEntry;
use disk::record::{NUMBERS, RECORD, holder_of};
use lists::tables::{is_placed, is_taken};

// Is the block on a list, or, behind the blocks, the list taken?
pub fn is_used(nodes: &[u8; 1280], number: u8) -> bool
    requires { (1 ≤ number) × (number ≤ 80) }
    ensures { OfShown (tables_in nodes.now) (λ rs. result ≡ in_use number rs) }
{
    if number <= LogEntry::BLOCKS {
        return is_placed(nodes, number);
    }
    is_taken(nodes, number - LogEntry::BLOCKS)
}

// Is the number held by no unit, or by an open one while it is not in use?
#[tactic(auto, unfolding(disk::specs::Sound::holder_sound))]
fn holder_right(rec: &[u8; RECORD], nodes: &[u8; 1280], number: u8) -> bool
    requires { (1 ≤ number) × (number ≤ 80) }
    ensures { OfShown (tables_in nodes.now) (λ rs. result ≡ holder_sound (record_in rec.now) rs number) }
{
    let u = usize::from(holder_of(rec, number));
    u == 0 || is_open(rec, u) && !is_used(nodes, number)
}

// The number of the first list.
pub const FIRST_LIST: usize = LogEntry::BLOCKS as usize + 1;

// Is every one? The blocks', then the lists', so that none asks which of the two it is.
pub fn holders_right(rec: &[u8; RECORD], nodes: &[u8; 1280]) -> bool
    ensures { OfShown (tables_in nodes.now) (λ rs. result ≡ all (holder_sound (record_in rec.now) rs) all_numbers) }
{
    (1..FIRST_LIST).all(|n| holder_right(rec, nodes, n as u8))
        && (FIRST_LIST..NUMBERS + 1).all(|n| holder_right(rec, nodes, n as u8))
}
