// A change added on a stream.
ghost use Rattle.std.specs.Prelude.{◌≤◌, ◌<◌};
ghost use Rattle.disk.specs.Record.{record_in};
ghost use Rattle.calls.specs.promises.Adds.{Adds};

use answers::{Refusal, Reply, ask};
use card_log::entry::LogEntry;
use disk::change::{append, journal};
use disk::record::{RECORD, Record, Unit, journal_len, len};

// 11. Has the unit's journal room? 13. Has the queue, for stream 0?
pub fn add(rec: &mut [u8; RECORD], s: usize, e: LogEntry) -> Reply
    requires { (s ≤ 4) × ((record_in rec.old).ring.head < 32) }
    ensures { Adds s e (record_in rec.old) result (record_in rec.new) }
{
    if s == 0 {
        ask(len(rec) < Record::QUEUE, Refusal::QueueFull)?;
        append(rec, false, e);
    } else {
        ask(journal_len(rec, s) < Unit::JOURNAL, Refusal::JournalFull)?;
        journal(rec, s, e);
    }
    Ok(())
}
