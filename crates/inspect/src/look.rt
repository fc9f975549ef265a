// Question 4, and the tables of a view.
ghost use Rattle.std.specs.Prelude.{true, false};
ghost use Rattle.lists.specs.promises.Tables.{tables_in};
ghost use Rattle.disk.specs.Disk.{disk_in};
ghost use Rattle.inspect.specs.promises.Inspect.{Looks};

use super::examine::{examine, examine_persistent};
use super::journal::enter_journal;
use super::units::is_open;
use answers::{Refusal, Reply, ask};
use disk::record::RECORD;

// The view that is the persistent state.
const PERSISTENT: usize = 5;

// Refused by question 1, 3 or 4; or the tables show the view that a look-up names. What they held does not matter.
pub fn look_view(
    card: &[u8],
    queue_data: &[u8],
    journal_data: &[u8],
    rec: &[u8; RECORD],
    view: usize,
    nodes: &mut [u8; 1280],
) -> Reply
    ensures { Looks true (disk_in card.now queue_data.now journal_data.now rec.now) view result (tables_in nodes.new) }
{
    if view == PERSISTENT {
        examine_persistent(card, queue_data, journal_data, rec, nodes)?;
        Ok(())
    } else {
        look_stream(card, queue_data, journal_data, rec, view, nodes)
    }
}

// The same of the stream that a change comes on, which the persistent state is not.
pub fn look_stream(
    card: &[u8],
    queue_data: &[u8],
    journal_data: &[u8],
    rec: &[u8; RECORD],
    stream: usize,
    nodes: &mut [u8; 1280],
) -> Reply
    ensures { Looks false (disk_in card.now queue_data.now journal_data.now rec.now) stream result (tables_in nodes.new) }
{
    examine(card, queue_data, journal_data, rec, nodes)?;
    if stream != 0 {
        ask(is_open(rec, stream), Refusal::StreamClosed)?;
        enter_journal(nodes, rec, stream);
    }
    Ok(())
}

// The committed state, which is the view of stream 0: never refused by question 4.
pub fn look_committed(
    card: &[u8],
    queue_data: &[u8],
    journal_data: &[u8],
    rec: &[u8; RECORD],
    nodes: &mut [u8; 1280],
) -> Reply
    ensures { Looks false (disk_in card.now queue_data.now journal_data.now rec.now) 0 result (tables_in nodes.new) }
{
    look_stream(card, queue_data, journal_data, rec, 0, nodes)
}
