// The numbers that a unit gives up when it ends: those that it holds and that are not in use then, unless its end freed them already.
ghost use Rattle.std.specs.Prelude.{◌≤◌};
ghost use Rattle.lists.specs.promises.Tables.{tables_in};
ghost use Rattle.disk.specs.Record.{record_in};
ghost use Rattle.disk.specs.promises.Listing.{Padded, Reorders};
ghost use Rattle.inspect.specs.promises.Relisting.{GivesUpNumber, GivesUp};

use super::holders::is_used;
use disk::free::{is_listed, push};
use disk::record::{NUMBERS, RECORD, holder_of};

// One number.
#[tactic(auto, using(crate::proofs::Yielding::giving), unfolding(crate::specs::promises::Relisting::is_given_up))]
fn give_up_number(nodes: &[u8; 1280], rec: &mut [u8; RECORD], u: u8, number: u8)
    requires { Padded (record_in rec.old) × (1 ≤ number) × (number ≤ 80) }
    ensures { GivesUpNumber u number (tables_in nodes.now) (record_in rec.old) (record_in rec.new) × Reorders (record_in rec.old) (record_in rec.new) }
{
    if holder_of(rec, number) == u && !is_used(nodes, number) && !is_listed(rec, number) {
        push(rec, number);
    }
}

// All of unit u's, ascending, at the end of the order.
pub fn give_up(nodes: &[u8; 1280], rec: &mut [u8; RECORD], u: u8)
    requires { Padded (record_in rec.old) }
    ensures { GivesUp u (tables_in nodes.now) (record_in rec.old) (record_in rec.new) × Reorders (record_in rec.old) (record_in rec.new) }
{
    for n in 1..NUMBERS + 1 {
        give_up_number(nodes, rec, u, n as u8);
    }
}
