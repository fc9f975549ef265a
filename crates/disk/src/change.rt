// One part of the record changed: the queue, a unit, the holders, the order of the free numbers, the conflict counts.
#![tactic(auto, using(crate::proofs::Bytes::writes))]

ghost use Rattle.std.specs.Prelude.{◌≡◌, false, ◌<◌, ◌≤◌};
ghost use Rattle.card_log.specs.Entry.{as_entry};
ghost use Rattle.card_log.specs.Cell.{cell_of};
ghost use Rattle.disk.specs.Record.{record_in, unit_at, with_flow, appended, journal_grown, unit_turned, holding, releasing, conflict_counted, blank_record};
ghost use Rattle.disk.specs.promises.Bytes.{cell_set, pair_set};
ghost use Rattle.disk.specs.promises.Listing.{with_many, with_place};

use crate::record::{
    CELL, COUNTS, DONE, HEAD, HOLDERS, JOURNALS, LEN, LENGTHS, LISTED, NUMBERS, ORDER, RECORD,
    Record, UNIT_WINDOWS, Unit, conflicts, head, journal_len, len,
};
use card_log::encode::entry_byte;
use card_log::entry::LogEntry;

// The four bytes of an entry, from byte i on.
#[tactic(auto, unfolding(card_log::specs::Cell::cell_of))]
fn put_cell(rec: &mut [u8; RECORD], i: usize, member: bool, entry: LogEntry)
    requires { i ≤ 444 }
    ensures { rec.new ≡ cell_set rec.old i (cell_of (as_entry member entry)) }
{
    rec[i] = entry_byte(entry, member, 0, 0);
    rec[i + 1] = entry_byte(entry, member, 0, 1);
    rec[i + 2] = entry_byte(entry, member, 0, 2);
    rec[i + 3] = entry_byte(entry, member, 0, 3);
}

// A number in two bytes, the low one first, from byte i on.
fn put_pair(rec: &mut [u8; RECORD], i: usize, n: u16)
    requires { i ≤ 571 }
    ensures { rec.new ≡ pair_set rec.old i n }
{
    rec[i..i + 2].copy_from_slice(&n.to_le_bytes());
}

// An entry more at the end of the queue.
pub fn append(rec: &mut [u8; RECORD], member: bool, entry: LogEntry)
    requires { ((record_in rec.old).ring.len < 32) × ((record_in rec.old).ring.head < 32) }
    ensures { record_in rec.new ≡ appended (cell_of (as_entry member entry)) (record_in rec.old) }
{
    let n = len(rec);
    let at = (head(rec) + n) % Record::QUEUE;
    put_cell(rec, CELL * at, member, entry);
    rec[LEN] = (n + 1) as u8;
}

// An entry more in the journal of unit u.
pub fn journal(rec: &mut [u8; RECORD], u: usize, entry: LogEntry)
    requires { (1 ≤ u) × (u ≤ 4) × ((unit_at (record_in rec.old) u).len < 15) }
    ensures { record_in rec.new ≡ journal_grown u (cell_of (as_entry false entry)) (record_in rec.old) }
{
    let i = u - 1;
    let n = journal_len(rec, u);
    put_cell(rec, JOURNALS + CELL * (Unit::JOURNAL * i + n), false, entry);
    rec[LENGTHS + i] = (n + 1) as u8;
}

// Number n held by unit u.
pub fn hold(rec: &mut [u8; RECORD], n: usize, u: u8)
    requires { (1 ≤ n) × (n ≤ 80) }
    ensures { record_in rec.new ≡ holding n u (record_in rec.old) }
{
    rec[HOLDERS + (n - 1)] = u;
}

// Unit u open for a window, or closed where that is 0, its journal emptied.
pub fn empty(rec: &mut [u8; RECORD], u: usize, window: u8)
    requires { (1 ≤ u) × (u ≤ 4) }
    ensures { record_in rec.new ≡ unit_turned window u (record_in rec.old) }
{
    let i = u - 1;
    rec[UNIT_WINDOWS + i] = window;
    rec[LENGTHS + i] = 0;
}

// One conflict more of window w, up to the largest count of two bytes.
pub fn count_conflict(rec: &mut [u8; RECORD], w: usize)
    requires { (1 ≤ w) × (w ≤ 16) }
    ensures { record_in rec.new ≡ conflict_counted w (record_in rec.old) }
{
    let n = conflicts(rec, w).saturating_add(1).min(Record::CONFLICTS);
    put_pair(rec, COUNTS + 2 * (w - 1), n);
}

// So many free numbers listed; another number in a place of their order.
pub fn list_first(rec: &mut [u8; RECORD], n: usize)
    requires { n ≤ 80 }
    ensures { record_in rec.new ≡ with_many n (record_in rec.old) }
{
    rec[LISTED] = n as u8;
}

pub fn put_listed(rec: &mut [u8; RECORD], at: usize, number: u8)
    requires { at < 80 }
    ensures { record_in rec.new ≡ with_place at number (record_in rec.old) }
{
    rec[ORDER + at] = number;
}

// The queue from another head on, with another length, and stores done of its head.
pub fn flow(rec: &mut [u8; RECORD], head: usize, len: usize, done: usize)
    requires { (head < 256) × (len < 256) × (done < 65536) }
    ensures { record_in rec.new ≡ with_flow (record_in rec.old) head len done }
{
    rec[HEAD] = head as u8;
    rec[LEN] = len as u8;
    put_pair(rec, DONE, done as u16);
}

// Unit u gives up what it holds.
pub fn release(rec: &mut [u8; RECORD], u: u8)
    ensures { record_in rec.new ≡ releasing u (record_in rec.old) }
{
    for h in &mut rec[HOLDERS..HOLDERS + NUMBERS] {
        if *h == u {
            *h = 0;
        }
    }
}

// The record set anew, no number listed yet.
pub fn renew(rec: &mut [u8; RECORD])
    ensures { record_in rec.new ≡ blank_record }
{
    let bytes = Record::fresh().bytes;
    *rec = bytes;
}
