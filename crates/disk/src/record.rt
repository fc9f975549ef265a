// The working record that every call is lent, as bytes, and where its parts stand in them.
//
// An entry of the queue or of a journal is a cell of four bytes (`card_log::cell`). The queue is a ring of places: entry k from the head stands at
// (head + k) % QUEUE, its data at the same place of the queue data. `done` counts the head's stores that are on the card.
//
//     0     queue: QUEUE cells
//     128   journals: JOURNAL cells for each unit
//     368   the window that the unit's Begin named, 0 where it is closed: a byte for each
//     372   entries in its journal: a byte for each unit
//     376   the unit that holds the number, 0 for none: a byte for each block, then for each list
//     456   the queue's head, then its length; stores done of the head, two bytes; how many free numbers are listed
//     461   conflicts counted for the window: two bytes for each
//     493   the free numbers, blocks and lists, in the order of their freeing: a byte for each
#![tactic(auto, using(crate::proofs::Bytes::reads), unfolding(crate::specs::Record::record_in, crate::specs::Record::unit_in, crate::specs::Record::listed_in))]

ghost use Rattle.std.specs.Prelude.{◌≡◌, ◌<◌, ◌≤◌, get_or, length};
ghost use Rattle.lists.specs.InUse.{list_number};
ghost use Rattle.card_log.specs.Cell.{member_in, entry_in};
ghost use Rattle.disk.specs.Record.{record_in, no_cell, unit_at, is_open, holder_of, count_of, listed_in, blank_record};

use card_log::cell::entry_in;
use card_log::entry::LogEntry;
use card_log::map;

// How many bytes a record has.
pub const RECORD: usize = 573;

pub const CELL: usize = 4;

pub const JOURNALS: usize = 128;

pub const UNIT_WINDOWS: usize = 368;

pub const LENGTHS: usize = 372;

pub const HOLDERS: usize = 376;

pub const HEAD: usize = 456;

pub const LEN: usize = 457;

pub const DONE: usize = 458;

pub const LISTED: usize = 460;

pub const COUNTS: usize = 461;

pub const ORDER: usize = 493;

// Blocks and lists are held by their numbers: 1 to BLOCKS, then the lists.
pub const NUMBERS: usize = (LogEntry::BLOCKS + LogEntry::LISTS) as usize;

// The holder of a number that no unit holds.
const NOBODY: u8 = 0;

// A unit's journal.
#[derive(Clone, Copy)]
pub struct Unit {}

impl Unit {
    // Entries in a unit's journal.
    pub const JOURNAL: usize = 15;
}

// A record's bytes, for who has none yet.
#[derive(Clone, Copy)]
pub struct Record {
    pub bytes: [u8; RECORD],
}

impl Record {
    // Units are 1 to UNITS, windows 1 to WINDOWS; the queue has QUEUE places; conflicts are counted up to CONFLICTS.
    pub const UNITS: usize = 4;

    pub const WINDOWS: usize = 16;

    pub const QUEUE: usize = 32;

    pub const CONFLICTS: u16 = 65535;

    // The record that a mounting or a formatting starts from, before it lists the free numbers.
    pub fn fresh() -> Record
        ensures { record_in result.bytes ≡ blank_record }
    {
        Record {
            bytes: [0u8; RECORD],
        }
    }
}

// An entry of the queue.
#[derive(Clone, Copy)]
pub struct Queued {
    pub member: bool,
    pub entry: LogEntry,
}

// The parts.

pub fn head(rec: &[u8; RECORD]) -> usize
    ensures { result ≡ (record_in rec.now).ring.head }
{
    usize::from(rec[HEAD])
}

pub fn len(rec: &[u8; RECORD]) -> usize
    ensures { result ≡ (record_in rec.now).ring.len }
{
    usize::from(rec[LEN])
}

pub fn done(rec: &[u8; RECORD]) -> usize
    ensures { result ≡ (record_in rec.now).ring.done }
{
    usize::from(u16::from_le_bytes([rec[DONE], rec[DONE + 1]]))
}

// How many free numbers are listed, and the one in a place of their order.
pub fn listed(rec: &[u8; RECORD]) -> usize
    ensures { result ≡ (record_in rec.now).tally.listed }
{
    usize::from(rec[LISTED])
}

pub fn listed_at(rec: &[u8; RECORD], at: usize) -> u8
    requires { at < 80 }
    ensures { result ≡ get_or (record_in rec.now).tally.order at 0 }
{
    rec[ORDER + at]
}

// The places of their order, and those that are listed.
pub fn order(rec: &[u8; RECORD]) -> &[u8]
    ensures places { result.now ≡ (record_in rec.now).tally.order }
    ensures many { length result.now ≡ 80 }
{
    &rec[ORDER..ORDER + NUMBERS]
}

pub fn free_numbers(rec: &[u8; RECORD]) -> &[u8]
    requires { (record_in rec.now).tally.listed ≤ 80 }
    ensures { result.now ≡ listed_in (record_in rec.now) }
{
    &order(rec)[..listed(rec)]
}

// The conflicts counted for window w.
pub fn conflicts(rec: &[u8; RECORD], w: usize) -> u16
    requires { (1 ≤ w) × (w ≤ 16) }
    ensures { result ≡ count_of (record_in rec.now) w }
{
    let i = COUNTS + 2 * (w - 1);
    u16::from_le_bytes([rec[i], rec[i + 1]])
}

// The window that unit u's Begin named, 0 where the unit is closed.
pub fn window(rec: &[u8; RECORD], u: usize) -> u8
    requires { (1 ≤ u) × (u ≤ 4) }
    ensures { result ≡ (unit_at (record_in rec.now) u).window }
{
    rec[UNIT_WINDOWS + (u - 1)]
}

// Is unit u open?
pub fn opened(rec: &[u8; RECORD], u: usize) -> bool
    requires { (1 ≤ u) × (u ≤ 4) }
    ensures { result ≡ is_open (unit_at (record_in rec.now) u) }
{
    window(rec, u) != 0
}

// How many entries its journal has.
pub fn journal_len(rec: &[u8; RECORD], u: usize) -> usize
    requires { (1 ≤ u) × (u ≤ 4) }
    ensures { result ≡ (unit_at (record_in rec.now) u).len }
{
    usize::from(rec[LENGTHS + (u - 1)])
}

// The number of a list.
pub fn list_number(list: u8) -> u8
    requires { list ≤ 16 }
    ensures { result ≡ list_number list }
{
    LogEntry::BLOCKS + list
}

// The unit that holds a number; 0 past the holders. Two tests and no `saturating_sub`: who goes over all numbers needs neither, which the compiler sees so.
pub fn holder_of(rec: &[u8; RECORD], number: u8) -> u8
    ensures { result ≡ holder_of (record_in rec.now) number }
{
    let i = if number == 0 {
        0
    } else {
        usize::from(number) - 1
    };
    if i < NUMBERS {
        rec[HOLDERS + i]
    } else {
        NOBODY
    }
}

// The entry in a place of the queue.
#[tactic(auto, using(crate::proofs::Bytes::reads), unfolding(crate::specs::Record::record_in, card_log::specs::Cell::member_in))]
pub fn queue_entry(rec: &[u8; RECORD], at: usize) -> Queued
    requires { at < 32 }
    ensures { (result.member ≡ member_in (get_or (record_in rec.now).ring.queue at no_cell)) × (result.entry ≡ entry_in (get_or (record_in rec.now).ring.queue at no_cell)) }
{
    let i = CELL * at;
    let map = rec[i];
    Queued {
        member: map::is_member(map),
        entry: entry_in(map, rec[i + 1], rec[i + 2], rec[i + 3]),
    }
}

// Entry k of unit u's journal.
pub fn journal_entry(rec: &[u8; RECORD], u: usize, k: usize) -> LogEntry
    requires { (1 ≤ u) × (u ≤ 4) × (k < 15) }
    ensures { result ≡ entry_in (get_or (unit_at (record_in rec.now) u).journal k no_cell) }
{
    let i = JOURNALS + CELL * (Unit::JOURNAL * (u - 1) + k);
    entry_in(rec[i], rec[i + 1], rec[i + 2], rec[i + 3])
}
