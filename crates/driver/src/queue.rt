// The stores of the queue, listed without making them.
ghost use Rattle.std.specs.Prelude.{◌≡◌, List, map, ℕ, ◌+◌, ◌-◌, ◌≤◌, ◌<◌, length, take, drop};
ghost use Rattle.std.proofs.lemmas.List.Edits.{sets};
ghost use Rattle.card_log.specs.Raced.{with_body};
ghost use Rattle.card_log.specs.Entry.{map_entry, as_entry};
ghost use Rattle.card_log.specs.Store.{entry_stores};
ghost use Rattle.disk.specs.Record.{record_in};
ghost use Rattle.disk.specs.Disk.{disk};
ghost use Rattle.disk.specs.Statements.{todo};
ghost use Rattle.calls.specs.promises.Flushing.{Flushable};
ghost use Rattle.driver.specs.Stores.{word};
ghost use Rattle.driver.specs.promises.Listing.{listed, Listable, HeadListable, HeadLists};

use super::word::word_of;
use card_log::entry::LogEntry;
use card_log::layout::{SEGMENT, SLOT};
use card_log::place::{Home, Place, after, home_of};
use card_log::store::stores_of;
use disk::record;
use disk::record::{RECORD, Record, head, len, queue_entry};
use std::ops::ControlFlow;

// The words of an entry's stores from number `done` up to number `upto`, in the buffer from `at` on.
fn put_words(
    content: &[u8],
    place: Place,
    e: LogEntry,
    member: bool,
    done: usize,
    upto: usize,
    stores: &mut [u32],
    at: usize,
)
    requires { Listable place (map_entry (with_body content.now) (as_entry member e)) done × (upto ≤ length (entry_stores place (map_entry (with_body content.now) (as_entry member e)))) × (length content.now ≡ 256) × (done ≤ upto) × (at + (upto - done) ≤ length stores.old) }
    ensures { stores.new ≡ sets stores.old at (map word (take (upto - done) (drop done (entry_stores place (map_entry (with_body content.now) (as_entry member e)))))) }
{
    for k in done..upto {
        stores[at + (k - done)] = word_of(content, place, e, member, k);
    }
}

// The words of the head's stores, `done` of which are made, behind the `at` words that stand in the buffer; it takes `most`. The listing ends there,
// as at a head without a place, or all are listed, and it goes on at the place behind; with the words that stand then.
fn list_head(
    segments: usize,
    content: &[u8],
    place: Place,
    e: LogEntry,
    member: bool,
    done: usize,
    most: usize,
    stores: &mut [u32],
    at: usize,
) -> ControlFlow<usize, (Place, usize)>
    requires { HeadListable segments place (map_entry (with_body content.now) (as_entry member e)) done × (length content.now ≡ 256) × (at ≤ most) × (most ≤ length stores.old) }
    ensures { HeadLists segments place (map_entry (with_body content.now) (as_entry member e)) done most at stores.old result stores.new }
{
    let Home::At(home) = home_of(segments, place, e) else {
        return ControlFlow::Break(at);
    };
    let all = stores_of(e);
    let room = most - at;
    if room < all - done {
        put_words(content, home, e, member, done, done + room, stores, at);
        ControlFlow::Break(most)
    } else {
        put_words(content, home, e, member, done, all, stores, at);
        ControlFlow::Continue((after(home, e), at + (all - done)))
    }
}

// The words of the queue's stores, from the place behind the log on, at most `most`; how many there are.
pub fn list_queue(
    card: &[u8],
    queue_data: &[u8],
    rec: &[u8; RECORD],
    behind: Place,
    most: usize,
    stores: &mut [u32],
) -> usize
    requires { Flushable card.now queue_data.now (record_in rec.now) behind × (most ≤ length stores.old) }
    ensures { (j : List ℕ) → listed 0 (take most (todo (disk card.now queue_data.now j (record_in rec.now)))) stores.old ≡ (result, stores.new) }
{
    let segments = card.len() / SEGMENT;
    let first = head(rec);
    let entries = len(rec);
    let mut place = behind;
    let mut done = record::done(rec);
    let mut at = 0;
    for gone in 0..entries {
        let i = (first + gone) % Record::QUEUE;
        let queued = queue_entry(rec, i);
        let data = SLOT * i;
        match list_head(
            segments,
            &queue_data[data..data + SLOT],
            place,
            queued.entry,
            queued.member,
            done,
            most,
            stores,
            at,
        ) {
            ControlFlow::Break(n) => return n,
            ControlFlow::Continue((next, n)) => {
                place = next;
                at = n;
                done = 0;
            }
        }
    }
    at
}
