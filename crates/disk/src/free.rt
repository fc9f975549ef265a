// The order of the free numbers: the first that is listed, one taken out, others added at its end.
ghost use Rattle.std.specs.Prelude.{◌≡◌, true, not, ◌≤◌, ◌<◌, eqb};
ghost use Rattle.lists.specs.Basic.{times};
ghost use Rattle.lists.specs.promises.Tables.{tables_in};
ghost use Rattle.card_log.specs.Entry.{legal, raw, member, as_change};
ghost use Rattle.disk.specs.Record.{record_in, listed_in};
ghost use Rattle.disk.specs.Questions.{first_free};
ghost use Rattle.disk.specs.promises.Listing.{as_option, Padded, Reorders, unlisted, pushed, Moves, ListsFree, Relists};

use crate::change::{list_first, put_listed};
use crate::record::{NUMBERS, RECORD, free_numbers, list_number, listed, listed_at};
use card_log::entry::LogEntry;
use lists::tables::free_after;

// A number at the end, while a place is left.
#[tactic(auto, using(crate::proofs::Listing::pushing))]
pub fn push(rec: &mut [u8; RECORD], number: u8)
    requires { Padded (record_in rec.old) }
    ensures { record_in rec.new ≡ pushed number (record_in rec.old) }
{
    let n = listed(rec);
    if n < NUMBERS {
        put_listed(rec, n, number);
        list_first(rec, n + 1);
    }
}

// The number of place k goes to place `left`, unless it is the one that is taken out. How many are left then.
fn move_up(rec: &mut [u8; RECORD], number: u8, k: usize, left: usize) -> usize
    requires { (k < 80) × (left ≤ k) }
    ensures { Moves number k left (record_in rec.old) result (record_in rec.new) }
{
    let x = listed_at(rec, k);
    put_listed(rec, k, 0);
    if x == number {
        return left;
    }
    put_listed(rec, left, x);
    left + 1
}

// A number out of the order, wherever it stands.
#[tactic(auto, using(crate::proofs::Listing::sifting))]
pub fn withdraw(rec: &mut [u8; RECORD], number: u8)
    requires { Padded (record_in rec.old) }
    ensures { record_in rec.new ≡ unlisted number (record_in rec.old) }
{
    let mut left = 0;
    for k in 0..listed(rec) {
        left = move_up(rec, number, k, left);
    }
    list_first(rec, left);
}

// Is the number listed?
#[tactic(auto, using(crate::proofs::Listing::listed_any))]
pub fn is_listed(rec: &[u8; RECORD], number: u8) -> bool
    requires { (record_in rec.now).tally.listed ≤ 80 }
    ensures { result ≡ not (eqb (times number (listed_in (record_in rec.now))) 0) }
{
    free_numbers(rec).contains(&number)
}

// The first of `many` numbers behind number `base` that is listed, counted from there.
pub fn first_free(rec: &[u8; RECORD], base: u8, many: u8) -> Option<u8>
    requires { ((record_in rec.now).tally.listed ≤ 80) × (base ≤ 64) × (many ≤ 64) }
    ensures { as_option result ≡ first_free base many (listed_in (record_in rec.now)) }
{
    free_numbers(rec)
        .iter()
        .find(|x| base < **x && **x <= base + many)
        .map(|x| *x - base)
}

// The free numbers that the tables show behind a number, behind 0 all of them, join the order at its end.
pub fn list_free(rec: &mut [u8; RECORD], nodes: &[u8; 1280], number: u8)
    requires { Padded (record_in rec.old) }
    ensures { ListsFree (tables_in nodes.now) number (record_in rec.old) (record_in rec.new) × Reorders (record_in rec.old) (record_in rec.new) }
{
    let mut x = number;
    for _i in 0..NUMBERS {
        x = free_after(nodes, x);
        if x == 0 {
            return;
        }
        push(rec, x);
    }
}

// What an entry that acted does to the order: the number that it brought into use leaves it, those that it freed join it. The tables show them behind
// `last`, the last free number before it.
pub fn relist(rec: &mut [u8; RECORD], nodes: &[u8; 1280], entry: LogEntry, last: u8)
    requires { Padded (record_in rec.old) × (legal (raw 0 (member (as_change entry))) ≡ true) }
    ensures { Relists entry last (tables_in nodes.now) (record_in rec.old) (record_in rec.new) × Reorders (record_in rec.old) (record_in rec.new) }
{
    match entry {
        LogEntry::Take { list } => withdraw(rec, list_number(list)),
        LogEntry::PutFirst { block, list: _ } => withdraw(rec, block),
        LogEntry::PutAfter {
            block,
            list: _,
            predecessor: _,
        } => withdraw(rec, block),
        LogEntry::DeleteBlock { block: _ } => list_free(rec, nodes, last),
        LogEntry::DeleteList { list: _ } => list_free(rec, nodes, last),
        _ => {}
    }
}
