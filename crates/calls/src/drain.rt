// The stores of a flush.
ghost use Rattle.std.specs.Prelude.{◌≡◌, ◌+◌, ◌-◌, ◌%◌, ◌≤◌, ◌<◌, length, take, drop};
ghost use Rattle.card_log.specs.Raced.{with_body};
ghost use Rattle.card_log.specs.Entry.{map_entry, as_entry};
ghost use Rattle.card_log.specs.Store.{do_stores, entry_stores};
ghost use Rattle.card_log.specs.promises.Within.{Storable};
ghost use Rattle.card_log.specs.Turns.{AllInTurn};
ghost use Rattle.disk.specs.Record.{record_in, with_flow};
ghost use Rattle.calls.specs.promises.Flushing.{HeadReady, Heads, Flushable, Flushes};

use answers::{Ending, Flushed};
use card_log::entry::LogEntry;
use card_log::layout::{SEGMENT, SLOT};
use card_log::place::{Home, Place, after, home_of};
use card_log::store::{store_step, stores_of};
use disk::change::flow;
use disk::record;
use disk::record::{RECORD, Record, head, len, queue_entry};

// What a flush makes of the queue's head: it has no place; the allowance ended when so many of its stores were done; or it is on the card, with the
// place behind it and the stores that it took. Three ways on, each with what it needs: as a Result it would be no plainer.
#[derive(Clone, Copy)]
pub enum Headed {
    Full,
    Spent(usize),
    Drained(Place, usize),
}

// The stores of an entry at its place from number `done` up to number `upto`, each in turn.
fn advance(
    card: &mut [u8],
    content: &[u8],
    place: Place,
    e: LogEntry,
    member: bool,
    done: usize,
    upto: usize,
)
    requires { Storable card.old place (map_entry (with_body content.now) (as_entry member e)) done × (upto ≤ length (entry_stores place (map_entry (with_body content.now) (as_entry member e)))) × (length content.now ≡ 256) × AllInTurn card.old place (map_entry (with_body content.now) (as_entry member e)) done upto }
    ensures { card.new ≡ do_stores (take (upto - done) (drop done (entry_stores place (map_entry (with_body content.now) (as_entry member e))))) card.old }
{
    for k in done..upto {
        store_step(card, content, place, e, member, k);
    }
}

// The head's stores, `done` of which are done, until it leaves the queue or the flush ends. Endings are tested in the definition's order: no place
// first, then the allowance.
fn store_head(
    card: &mut [u8],
    content: &[u8],
    place: Place,
    e: LogEntry,
    member: bool,
    done: usize,
    allowance: usize,
) -> Headed
    requires { HeadReady card.old place (map_entry (with_body content.now) (as_entry member e)) done × (length content.now ≡ 256) }
    ensures { Heads card.old place (map_entry (with_body content.now) (as_entry member e)) done allowance result card.new }
{
    let Home::At(home) = home_of(card.len() / SEGMENT, place, e) else {
        return Headed::Full;
    };
    let stores = stores_of(e);
    let left = stores - done;
    if allowance < left {
        let upto = done + allowance;
        advance(card, content, home, e, member, done, upto);
        return Headed::Spent(upto);
    }
    advance(card, content, home, e, member, done, stores);
    Headed::Drained(after(home, e), left)
}

// The record when `gone` entries have left the queue and `done` stores of the next one are on the card, and what the flush answers.
fn ended(rec: &mut [u8; RECORD], gone: usize, done: usize, stores: usize, ending: Ending) -> Flushed
    requires { (gone ≤ (record_in rec.old).ring.len) × ((record_in rec.old).ring.len ≤ 32) × ((record_in rec.old).ring.head < 32) × (done < 65536) }
    ensures left { record_in rec.new ≡ with_flow (record_in rec.old) (((record_in rec.old).ring.head + gone) % 32) ((record_in rec.old).ring.len - gone) done }
    ensures told { result ≡ record { stores = stores; ending = ending } }
{
    let first = (head(rec) + gone) % Record::QUEUE;
    let left = len(rec) - gone;
    flow(rec, first, left, done);
    Flushed { stores, ending }
}

// The queue's stores, from the place behind the log on, until the flush ends.
pub fn drain(
    card: &mut [u8],
    queue_data: &[u8],
    rec: &mut [u8; RECORD],
    behind: Place,
    allowance: usize,
) -> Flushed
    requires { Flushable card.old queue_data.now (record_in rec.old) behind }
    ensures { Flushes allowance card.old queue_data.now (record_in rec.old) card.new (record_in rec.new) result }
{
    let first = head(rec);
    let entries = len(rec);
    let mut place = behind;
    let mut done = record::done(rec);
    let mut left = allowance;
    for gone in 0..entries {
        let at = (first + gone) % Record::QUEUE;
        let queued = queue_entry(rec, at);
        let data = SLOT * at;
        match store_head(
            card,
            &queue_data[data..data + SLOT],
            place,
            queued.entry,
            queued.member,
            done,
            left,
        ) {
            Headed::Full => return ended(rec, gone, done, allowance - left, Ending::Full),
            Headed::Spent(upto) => return ended(rec, gone, upto, allowance, Ending::Spent),
            Headed::Drained(next, stores) => {
                place = next;
                left -= stores;
                done = 0;
            }
        }
    }
    ended(rec, entries, done, allowance - left, Ending::Drained)
}
