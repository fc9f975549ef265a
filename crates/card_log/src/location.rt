// Where a block's content stands, as one number, so that a table holds it: from 1 on the card's slots, then the places of the queue data, then those of the
// journal data. 0 is none. With a race it is still one number.
ghost use Rattle.std.specs.Prelude.{◌≡◌, ◌+◌, ◌-◌, ◌*◌, ◌/◌, ◌≤◌, ◌<◌};
ghost use Rattle.card_log.specs.promises.Location.{card_location};

use super::layout::{SEGMENT, SLOT};

// How many locations a segment has.
const LOCATIONS: usize = SEGMENT / SLOT;

// The first places of the queue data and of the journal data.
pub const QUEUE_AT: u16 = 1025;

pub const JOURNALS_AT: u16 = 1057;

// What each number of a race adds; no location is above it.
pub const RACE: u16 = 2048;

// Slot k of segment g.
pub fn card_location(g: usize, k: usize) -> u16
    requires { (g < 64) × (k < 256) }
    ensures { result ≡ card_location g k }
{
    (LOCATIONS * g + 1 + k) as u16
}

// A location with a race, as a table holds it.
pub fn number_of(location: u16, race: u8) -> u16
    requires { (location ≤ 2048) × (race ≤ 24) }
    ensures { result ≡ location + 2048 * race }
{
    location + RACE * race as u16
}

// The race of a table's number, which is not 0.
pub fn race_in(number: u16) -> u8
    requires { 1 ≤ number }
    ensures { result ≡ (number - 1) / 2048 }
{
    ((number - 1) / RACE) as u8
}
