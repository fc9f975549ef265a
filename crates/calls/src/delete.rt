// A deletion added on a stream, and the numbers that it frees.
ghost use Rattle.std.specs.Prelude.{◌≡◌, true, ◌≤◌, ◌<◌};
ghost use Rattle.lists.specs.promises.Tables.{tables_in};
ghost use Rattle.card_log.specs.Entry.{legal, raw, member, as_change};
ghost use Rattle.disk.specs.Record.{record_in};
ghost use Rattle.disk.specs.promises.Listing.{Padded};
ghost use Rattle.calls.specs.promises.Adds.{added, Leaves, relisted_on, OfDeletion};

use crate::add::add;
use answers::Reply;
use card_log::entry::LogEntry;
use card_log::feed::fields_of;
use disk::free::relist;
use disk::record::RECORD;
use lists::tables::{UNWRITTEN, act, last_free};

// On stream 0 they join the record's order. What a unit frees it frees when it ends. A deletion has no content, and so no location.
fn list_freed(nodes: &mut [u8; 1280], rec: &mut [u8; RECORD], s: usize, e: LogEntry)
    requires { Padded (record_in rec.old) × (legal (raw 0 (member (as_change e))) ≡ true) }
    ensures { OfDeletion (tables_in nodes.old) e (λ c rs. record_in rec.new ≡ relisted_on s c rs (record_in rec.old)) }
{
    if s == 0 {
        let last = last_free(nodes);
        let f = fields_of(e);
        act(nodes, f.kind, f.block, f.list, f.predecessor, UNWRITTEN);
        relist(rec, nodes, e, last);
    }
}

// 11 and 13, as `add` asks them. The tables show the stream's view, in which the deletion applies.
pub fn delete(nodes: &mut [u8; 1280], rec: &mut [u8; RECORD], s: usize, e: LogEntry) -> Reply
    requires { (s ≤ 4) × ((record_in rec.old).ring.head < 32) × Padded (record_in rec.old) × (legal (raw 0 (member (as_change e))) ≡ true) }
    ensures { OfDeletion (tables_in nodes.old) e (λ c rs. Leaves s (record_in rec.old) (relisted_on s c rs (added s e (record_in rec.old))) result (record_in rec.new)) }
{
    add(rec, s, e)?;
    list_freed(nodes, rec, s, e);
    Ok(())
}
