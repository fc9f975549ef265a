// The queue, fed behind the log to the reader that lent tables keep.
ghost use Rattle.std.specs.Prelude.{◌*◌, ◌≤◌, ◌<◌};
ghost use Rattle.lists.specs.promises.Tables.{tables_in};
ghost use Rattle.card_log.specs.promises.Feed.{memory};
ghost use Rattle.disk.specs.Record.{record_in};
ghost use Rattle.inspect.specs.promises.Clauses.{Replays};

use card_log::feed::{Fed, feed};
use card_log::legal::is_legal;
use card_log::location::QUEUE_AT;
use disk::record::{RECORD, Record, head, len, queue_entry};

// Is the queue acceptable behind the log? If so the tables show the committed state.
pub fn enter_queue(
    nodes: &mut [u8; 1280],
    members: &mut [u8; 128],
    rec: &[u8; RECORD],
    run: usize,
) -> bool
    requires { ((record_in rec.now).ring.len ≤ 32) × ((record_in rec.now).ring.head < 32) × (run ≤ 64 * 255) }
    ensures { Replays (memory nodes.old members.old) run (record_in rec.now) result (tables_in nodes.new) }
{
    let first = head(rec);
    let mut members_in_run = run;
    for k in 0..len(rec) {
        let at = (first + k) % Record::QUEUE;
        let queued = queue_entry(rec, at);
        let e = queued.entry;
        if !is_legal(queued.member, e) {
            return false;
        }
        match feed(
            nodes,
            members,
            members_in_run,
            queued.member,
            e,
            QUEUE_AT + at as u16,
        ) {
            Fed::Run(fed) => {
                members_in_run = fed;
            }
            Fed::Refused => {
                return false;
            }
        }
    }
    true
}
