// A unit's journal, laid over the state that lent tables show, and acting on the record's order of the free numbers.
ghost use Rattle.std.specs.Prelude.{◌≡◌, true, ◌≤◌};
ghost use Rattle.lists.specs.Basic.{all, from};
ghost use Rattle.lists.specs.Change.{map_change};
ghost use Rattle.lists.specs.promises.Tables.{tables_in, Did};
ghost use Rattle.card_log.specs.Entry.{legal, raw, member, as_change};
ghost use Rattle.card_log.specs.promises.Location.{number_at};
ghost use Rattle.disk.specs.Record.{record_in, unit_at};
ghost use Rattle.disk.specs.promises.Listing.{Padded};
ghost use Rattle.inspect.specs.promises.Clauses.{Overlays, change_in};
ghost use Rattle.inspect.specs.promises.Relisting.{RelistsChange, RelistsJournal};

use card_log::entry::LogEntry;
use card_log::feed::fields_of;
use card_log::location::{JOURNALS_AT, number_of};
use disk::free::relist;
use disk::record::{RECORD, Unit, journal_entry, journal_len};
use lists::tables::{act, last_free};

// An entry acts on the tables; what it says of a write's bytes is their location. Did it apply?
fn act_entry(nodes: &mut [u8; 1280], e: LogEntry, location: u16) -> bool
    requires { (legal (raw 0 (member (as_change e))) ≡ true) × (1 ≤ location) × (location ≤ 2048) }
    ensures { Did (map_change (number_at location) (as_change e)) (tables_in nodes.old) result (tables_in nodes.new) }
{
    let f = fields_of(e);
    act(
        nodes,
        f.kind,
        f.block,
        f.list,
        f.predecessor,
        number_of(location, f.race),
    )
}

// Unit u's changes in order; one that does not apply is skipped. Did every one apply?
pub fn enter_journal(nodes: &mut [u8; 1280], rec: &[u8; RECORD], u: usize) -> bool
    requires { ((unit_at (record_in rec.now) u).len ≤ 15) × (1 ≤ u) × (u ≤ 4) × (all (λ c. legal (raw 0 (member c))) (from (change_in (unit_at (record_in rec.now) u)) 0 (unit_at (record_in rec.now) u).len) ≡ true) }
    ensures { Overlays (tables_in nodes.old) (unit_at (record_in rec.now) u) u result (tables_in nodes.new) }
{
    let first = JOURNALS_AT + ((u - 1) * Unit::JOURNAL) as u16;
    let mut every = true;
    for k in 0..journal_len(rec, u) {
        every &= act_entry(nodes, journal_entry(rec, u, k), first + k as u16);
    }
    every
}

// An entry acts on the tables and on the order. The last free number is looked up before, since those that the entry frees stand behind it.
fn relist_entry(nodes: &mut [u8; 1280], rec: &mut [u8; RECORD], e: LogEntry, location: u16)
    requires { Padded (record_in rec.old) × (legal (raw 0 (member (as_change e))) ≡ true) × (1 ≤ location) × (location ≤ 2048) }
    ensures { RelistsChange (map_change (number_at location) (as_change e)) (tables_in nodes.old) (record_in rec.old) (record_in rec.new) (tables_in nodes.new) }
{
    let last = last_free(nodes);
    act_entry(nodes, e, location);
    relist(rec, nodes, e, last);
}

// Unit u's changes in order, all of which apply.
pub fn relist_journal(nodes: &mut [u8; 1280], rec: &mut [u8; RECORD], u: usize)
    requires { Padded (record_in rec.old) × ((unit_at (record_in rec.old) u).len ≤ 15) × (1 ≤ u) × (u ≤ 4) × (all (λ c. legal (raw 0 (member c))) (from (change_in (unit_at (record_in rec.old) u)) 0 (unit_at (record_in rec.old) u).len) ≡ true) }
    ensures { RelistsJournal (tables_in nodes.old) (unit_at (record_in rec.old) u) u (record_in rec.old) (record_in rec.new) (tables_in nodes.new) }
{
    let first = JOURNALS_AT + ((u - 1) * Unit::JOURNAL) as u16;
    for k in 0..journal_len(rec, u) {
        let e = journal_entry(rec, u, k);
        relist_entry(nodes, rec, e, first + k as u16);
    }
}
