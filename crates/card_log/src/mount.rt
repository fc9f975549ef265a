// Mounting: questions 1 and 2 of a card.
ghost use Rattle.std.specs.Prelude.{◌≡◌};
ghost use Rattle.lists.specs.promises.Tables.{tables_in};
ghost use Rattle.card_log.specs.Card.{card_length};
ghost use Rattle.card_log.specs.promises.Mount.{Mounts, MountsOn};

use super::layout::SEGMENT;
use super::legal::both;
use super::place::Place;
use super::walk::{Walked, walk};

// The most segments of a card.
pub const SEGMENTS: usize = 64;

// What mounting finds: a length that is no card's; the segment and the entry of the first fault; or the place behind an acceptable log.
#[derive(Clone, Copy)]
pub enum Mounted {
    WrongLength,
    Fault(usize, usize),
    Sound(Place),
}

pub fn is_card(card: &[u8]) -> bool
    ensures { result ≡ card_length card.now }
{
    let n = card.len() / SEGMENT;
    both(both(card.len() % SEGMENT == 0, 1 <= n), n <= SEGMENTS)
}

// The state of an acceptable log is left in the lent tables. What they held does not matter.
pub fn mount_on(card: &[u8], nodes: &mut [u8; 1280]) -> Mounted
    ensures { MountsOn card.now result (tables_in nodes.new) }
{
    if !is_card(card) {
        return Mounted::WrongLength;
    }
    let mut members = [0u8; 128];
    match walk(card, nodes, &mut members) {
        Walked::Sound(behind, _) => Mounted::Sound(behind),
        Walked::Fault(g, i) => Mounted::Fault(g, i),
    }
}

pub fn mount(card: &[u8]) -> Mounted
    ensures { Mounts card.now result }
{
    let mut nodes = [0u8; 1280];
    mount_on(card, &mut nodes)
}
