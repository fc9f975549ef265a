// The units and their journals.
ghost use Rattle.std.specs.Prelude.{◌≡◌, ◌≤◌};
ghost use Rattle.lists.specs.Basic.{all, from};
ghost use Rattle.card_log.specs.Entry.{as_change};
ghost use Rattle.disk.specs.Record.{record_in, unit_at};
ghost use Rattle.inspect.specs.promises.Clauses.{change_right, change_in, unit_right, units_right};
ghost use Rattle.disk.specs.Sound.{open_unit};

use card_log::entry::LogEntry;
use card_log::legal::is_member;
use disk::record::{
    RECORD, Record, Unit, holder_of, journal_entry, journal_len, list_number, opened, window,
};

// May the entry stand in unit u's journal?
fn entry_right(rec: &[u8; RECORD], u: u8, e: LogEntry) -> bool
    ensures { result ≡ change_right (record_in rec.now).held.holder u (as_change e) }
{
    if !is_member(e) {
        return false;
    }
    match e {
        LogEntry::Take { list } => holder_of(rec, list_number(list)) == u,
        LogEntry::PutFirst { block, list: _ } => holder_of(rec, block) == u,
        LogEntry::PutAfter {
            block,
            list: _,
            predecessor: _,
        } => holder_of(rec, block) == u,
        _ => true,
    }
}

// May each of the first n entries of unit u's journal stand there?
fn entries_right(rec: &[u8; RECORD], u: usize, n: usize) -> bool
    requires { (1 ≤ u) × (u ≤ 4) × (n ≤ 15) }
    ensures { result ≡ all (change_right (record_in rec.now).held.holder u) (from (change_in (unit_at (record_in rec.now) u)) 0 n) }
{
    (0..n).all(|k| entry_right(rec, u as u8, journal_entry(rec, u, k)))
}

#[tactic(auto, unfolding(crate::specs::promises::Clauses::unit_right, lists::specs::Basic::each))]
fn unit_right(rec: &[u8; RECORD], u: usize) -> bool
    requires { (1 ≤ u) × (u ≤ 4) }
    ensures { result ≡ unit_right (record_in rec.now).held.holder (unit_at (record_in rec.now) u) u }
{
    let n = journal_len(rec, u);
    n <= Unit::JOURNAL
        && usize::from(window(rec, u)) <= Record::WINDOWS
        && (opened(rec, u) || n == 0)
        && entries_right(rec, u, n)
}

// Are all four right?
pub fn units_right(rec: &[u8; RECORD]) -> bool
    ensures { result ≡ units_right (record_in rec.now) }
{
    (1..Record::UNITS + 1).all(|u| unit_right(rec, u))
}

// Is unit u open? No other number is a unit.
#[tactic(auto, using(crate::proofs::Judging::opens), unfolding(disk::specs::Sound::open_unit))]
pub fn is_open(rec: &[u8; RECORD], u: usize) -> bool
    ensures { result ≡ open_unit (record_in rec.now) u }
{
    1 <= u && u <= Record::UNITS && opened(rec, u)
}
