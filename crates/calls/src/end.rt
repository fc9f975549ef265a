// End: a unit closed, its journal queued whole or, at a conflict, dropped.
ghost use Rattle.std.specs.Prelude.{◌≡◌, true, [], ◌+◌, ◌≤◌, ◌<◌, length};
ghost use Rattle.lists.specs.promises.Tables.{tables_in, OfShown};
ghost use Rattle.card_log.specs.Entry.{legal, raw, member, as_change};
ghost use Rattle.disk.specs.Record.{record_in, unit_at};
ghost use Rattle.disk.specs.Disk.{disk_in};
ghost use Rattle.disk.specs.Call.{end};
ghost use Rattle.answers.specs.Answers.{reply_answer};
ghost use Rattle.disk.specs.promises.Listing.{Padded};
ghost use Rattle.calls.specs.promises.Ending.{closed_over, QueuesMember, Ready, QueuesUnit, Ends};
ghost use Rattle.calls.specs.Performs.{Performs};

use crate::enter::enter_unit;
use answers::{Refusal, Reply, ask};
use card_log::copy::copy_in;
use card_log::entry::LogEntry;
use card_log::layout::SLOT;
use disk::change::{append, count_conflict, empty, release};
use disk::record::{RECORD, Record, Unit, head, journal_entry, journal_len, len, window};
use inspect::give_up::give_up;
use inspect::journal::{enter_journal, relist_journal};

// The window of a closed unit.
const CLOSED: u8 = 0;

// Unit u closed over the lists that the tables show: what it holds and is free joins the order of the free numbers, its journal goes.
fn close(nodes: &[u8; 1280], rec: &mut [u8; RECORD], u: usize)
    requires { Padded (record_in rec.old) × (1 ≤ u) × (u ≤ 4) }
    ensures { OfShown (tables_in nodes.now) (λ rs. record_in rec.new ≡ closed_over u rs (record_in rec.old)) }
{
    give_up(nodes, rec, u as u8);
    empty(rec, u, CLOSED);
    release(rec, u as u8);
}

// A journal's entry, its data at place k of the journal data, joins the queue as a member.
fn queue_member(
    queue_data: &mut [u8],
    journal_data: &[u8],
    rec: &mut [u8; RECORD],
    e: LogEntry,
    k: usize,
)
    requires { (length queue_data.old ≡ 8192) × (length journal_data.now ≡ 15360) × ((record_in rec.old).ring.len < 32) × ((record_in rec.old).ring.head < 32) × (k < 60) × (legal (raw 0 (member (as_change e))) ≡ true) }
    ensures { QueuesMember queue_data.old journal_data.now (record_in rec.old) e k queue_data.new (record_in rec.new) }
{
    match e {
        LogEntry::Write {
            block,
            slot: _,
            race,
        } => {
            let at = (head(rec) + len(rec)) % Record::QUEUE;
            let start = SLOT * k;
            let stop = start + SLOT;
            copy_in(queue_data, SLOT * at, &journal_data[start..stop]);
            append(
                rec,
                true,
                LogEntry::Write {
                    block,
                    slot: 0,
                    race,
                },
            );
        }
        _ => {
            append(rec, true, e);
        }
    }
}

// Unit u's journal joins the queue as members, then a commit.
fn queue_unit(queue_data: &mut [u8], journal_data: &[u8], rec: &mut [u8; RECORD], u: usize)
    requires { Ready queue_data.old journal_data.now (record_in rec.old) u × ((record_in rec.old).ring.len + (unit_at (record_in rec.old) u).len < 32) }
    ensures { QueuesUnit queue_data.old journal_data.now (record_in rec.old) u queue_data.new (record_in rec.new) }
{
    let entries = journal_len(rec, u);
    let first = (u - 1) * Unit::JOURNAL;
    for k in 0..entries {
        let e = journal_entry(rec, u, k);
        queue_member(queue_data, journal_data, rec, e, first + k);
    }
    let count = entries as u8;
    append(rec, false, LogEntry::Commit { count });
}

// 12. Does every entry apply to the committed state, which the tables show? It is asked on a copy, so that an accepted End can follow the entries one by
// one. 13. Has the queue room? Refused 12 the unit is closed too.
fn end_unit(
    nodes: &mut [u8; 1280],
    queue_data: &mut [u8],
    journal_data: &[u8],
    rec: &mut [u8; RECORD],
    u: usize,
) -> Reply
    requires { Ready queue_data.old journal_data.now (record_in rec.old) u }
    ensures { Ends (tables_in nodes.old) queue_data.old journal_data.now (record_in rec.old) u result queue_data.new (record_in rec.new) }
{
    let mut after = *nodes;
    if !enter_journal(&mut after, rec, u) {
        let w = window(rec, u);
        close(nodes, rec, u);
        count_conflict(rec, w as usize);
        return Err(Refusal::Conflict);
    }
    ask(
        len(rec) + journal_len(rec, u) < Record::QUEUE,
        Refusal::QueueFull,
    )?;
    queue_unit(queue_data, journal_data, rec, u);
    relist_journal(nodes, rec, u);
    close(nodes, rec, u);
    Ok(())
}

// Questions: 1 lengths, 3 record, 4 unit, 12 every entry applies, 13 queue.
pub fn end(
    card: &[u8],
    queue_data: &mut [u8],
    journal_data: &[u8],
    rec: &mut [u8; RECORD],
    unit: usize,
) -> Reply
    ensures { Performs (end unit) (disk_in card.now queue_data.old journal_data.now rec.old) (disk_in card.now queue_data.new journal_data.now rec.new) (reply_answer result) [] }
{
    let mut nodes = [0u8; 1280];
    enter_unit(card, queue_data, journal_data, rec, unit, &mut nodes)?;
    end_unit(&mut nodes, queue_data, journal_data, rec, unit)
}
