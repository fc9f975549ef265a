// The stores on the card: the one store, and the two steps that make it, each in its order. Nothing else writes into a lent card.
//
// A cut can fall between any two stores, and a promise speaks of the card at return. So each step requires its order of the card as it is when the
// store is made: a flush's, that the stores before it stand behind the log; a formatting's, that the later segments are empty. The store itself and
// the step of a formatting are private here, so that no caller stores in another order, and no flush clears a count.
ghost use Rattle.std.specs.Prelude.{◌≡◌, Bool, length, set, take};
ghost use Rattle.card_log.specs.Raced.{with_body};
ghost use Rattle.card_log.specs.Entry.{map_entry, as_entry};
ghost use Rattle.card_log.specs.Card.{Content, segments_in};
ghost use Rattle.card_log.specs.Store.{do_stores, format_stores, entry_stores};
ghost use Rattle.card_log.specs.promises.Within.{Storable};
ghost use Rattle.card_log.specs.Turns.{InTurn, Clearable, stored_at, cleared_at};

use super::encode::{entry_byte, length_of, slots_of};
use super::entry::LogEntry;
use super::layout::{COUNT_AT, ENTRIES_AT, SEGMENT, SLOT};
use super::place::Place;

// One byte. Outside the slice nothing is stored.
fn store(bytes: &mut [u8], at: usize, value: u8)
    ensures { bytes.new ≡ set bytes.old at value }
{
    if at < bytes.len() {
        bytes[at] = value;
    }
}

// How many stores an entry takes, wherever it goes: a write's data bytes, the entry's bytes, and the count.
pub fn stores_of(e: LogEntry) -> usize
    ensures { (p : Place) (m : Bool) (d : Content) → length d ≡ 256 → result ≡ length (entry_stores p (map_entry (with_body d) (as_entry m e))) }
{
    SLOT * slots_of(e) + length_of(e) + 1
}

// Store number `done` of an entry at its place; `content` is what a write writes. First its data goes into the place's slot, then the entry's bytes
// behind those that stand, and last the raised count, with which the log has the entry. It is made only in turn: when the card as it is has the
// stores before it, and the log in front of the place.
pub fn store_step(
    card: &mut [u8],
    content: &[u8],
    place: Place,
    e: LogEntry,
    member: bool,
    done: usize,
)
    requires { Storable card.old place (map_entry (with_body content.now) (as_entry member e)) done × (length content.now ≡ 256) × InTurn card.old place (map_entry (with_body content.now) (as_entry member e)) done }
    ensures { card.new ≡ stored_at card.old place (map_entry (with_body content.now) (as_entry member e)) done }
{
    let segment = SEGMENT * place.segment;
    let data_bytes = SLOT * slots_of(e);
    if done < data_bytes {
        let slot = segment + SLOT * place.slots;
        store(&mut card[slot..slot + SLOT], done, content[done]);
        return;
    }
    let i = done - data_bytes;
    if i < length_of(e) {
        let byte = entry_byte(e, member, place.slots as u8, i);
        store(card, segment + ENTRIES_AT + place.bytes + i, byte);
    } else {
        store(card, segment + COUNT_AT, (place.entries + 1) as u8);
    }
}

// 0 in segment `g`'s count byte. It is stored only when the later segments of the card as it is are empty.
fn clear_step(card: &mut [u8], g: usize)
    requires { Clearable card.old g }
    ensures { card.new ≡ cleared_at card.old g }
{
    store(card, SEGMENT * g + COUNT_AT, 0);
}

// The first `k` stores of a formatting: 0 in each count byte, the last segment's first. A cut can leave any `k` of them.
pub fn format_stores(card: &mut [u8], k: usize)
    ensures { card.new ≡ do_stores (take k (format_stores (segments_in card.old))) card.old }
{
    let mut left = card.len() / SEGMENT;
    let stop = if k < left { left - k } else { 0 };
    while stop < left {
        left -= 1;
        clear_step(card, left);
    }
}
