// A place in the log, and where the next entry goes.
ghost use Rattle.std.specs.Prelude.{◌≡◌, false, ◌<◌};
ghost use Rattle.card_log.specs.Entry.{as_entry};
ghost use Rattle.card_log.specs.Store.{opened, after, fits, home};
ghost use Rattle.card_log.specs.promises.Within.{Within, as_place};

use super::encode::{length_of, slots_of};
use super::entry::LogEntry;
use super::layout::ENTRY_BYTES;

// The segment, and what it holds before this place: entries, entry bytes, slots used.
#[derive(Clone, Copy)]
pub struct Place {
    pub segment: usize,
    pub entries: usize,
    pub bytes: usize,
    pub slots: usize,
}

// The place of an entry, if the card has one.
#[derive(Clone, Copy)]
pub enum Home {
    At(Place),
    Full,
}

// The start of a segment.
pub fn opened(segment: usize) -> Place
    ensures { result ≡ opened segment }
{
    Place {
        segment,
        entries: 0,
        bytes: 0,
        slots: 0,
    }
}

// The place behind an entry.
pub fn after(place: Place, e: LogEntry) -> Place
    requires { Within place }
    ensures { result ≡ after place (as_entry false e) }
{
    Place {
        segment: place.segment,
        entries: place.entries + 1,
        bytes: place.bytes + length_of(e),
        slots: place.slots + slots_of(e),
    }
}

// Whether the place's segment has room for an entry.
pub fn fits(place: Place, e: LogEntry) -> bool
    requires { Within place }
    ensures { result ≡ fits place (as_entry false e) }
{
    place.bytes + length_of(e) <= ENTRY_BYTES
        && place.slots + slots_of(e) <= LogEntry::SLOTS as usize
}

// The place of an entry behind `place`, on a card of `n` segments: one that does not fit opens the next segment.
pub fn home_of(n: usize, place: Place, e: LogEntry) -> Home
    requires { Within place × (place.segment < n) }
    ensures { as_place result ≡ home n place (as_entry false e) }
{
    if fits(place, e) {
        return Home::At(place);
    }
    let next = place.segment + 1;
    if next < n {
        Home::At(opened(next))
    } else {
        Home::Full
    }
}
