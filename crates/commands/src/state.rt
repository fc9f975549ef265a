// What the shell keeps from command to command, beside the card and both data buffers.
ghost use Rattle.std.specs.Prelude.{◌≡◌};

use disk::record::RECORD;

// The longest card that can be put in: one segment more than a card may have.
pub const LONGEST_CARD: usize = 266240;

pub const QUEUE_DATA: usize = 8192;

pub const JOURNAL_DATA: usize = 15360;

// The record, the card's length, and how many bytes of card, queue data and journal data are lent.
#[derive(Clone, Copy)]
pub struct State {
    pub rec: [u8; RECORD],
    pub size: usize,
    pub card: usize,
    pub queue: usize,
    pub journal: usize,
}

// A state, and the position behind what was printed.
#[derive(Clone, Copy)]
pub struct Ran {
    pub state: State,
    pub at: usize,
}

// With a card of this size, and all of it lent.
pub fn with_card(rec: [u8; RECORD], size: usize) -> State
    ensures { result ≡ record { rec = rec; size = size; card = size; queue = 8192; journal = 15360 } }
{
    State {
        rec,
        size,
        card: size,
        queue: QUEUE_DATA,
        journal: JOURNAL_DATA,
    }
}
