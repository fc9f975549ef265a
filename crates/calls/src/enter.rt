// Questions 1, 3 and 4 of a call that needs the committed state.
ghost use Rattle.std.specs.Prelude.{true, false};
ghost use Rattle.lists.specs.promises.Tables.{tables_in};
ghost use Rattle.disk.specs.Disk.{disk_in};
ghost use Rattle.calls.specs.promises.Entering.{Admits};

use answers::{Refusal, Reply, ask};
use disk::record::RECORD;
use inspect::look::look_committed;
use inspect::units::is_open;

// Stream s. If it is open the tables show the committed state. What they held does not matter.
pub fn enter(
    card: &[u8],
    queue_data: &[u8],
    journal_data: &[u8],
    rec: &[u8; RECORD],
    s: usize,
    nodes: &mut [u8; 1280],
) -> Reply
    ensures { Admits true (disk_in card.now queue_data.now journal_data.now rec.now) s result (tables_in nodes.new) }
{
    if s == 0 {
        look_committed(card, queue_data, journal_data, rec, nodes)
    } else {
        enter_unit(card, queue_data, journal_data, rec, s, nodes)
    }
}

// The same of unit u, which 0 is not.
pub fn enter_unit(
    card: &[u8],
    queue_data: &[u8],
    journal_data: &[u8],
    rec: &[u8; RECORD],
    u: usize,
    nodes: &mut [u8; 1280],
) -> Reply
    ensures { Admits false (disk_in card.now queue_data.now journal_data.now rec.now) u result (tables_in nodes.new) }
{
    look_committed(card, queue_data, journal_data, rec, nodes)?;
    ask(is_open(rec, u), Refusal::StreamClosed)
}
