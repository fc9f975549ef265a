// The state of a card, or why it has none.
ghost use Rattle.lists.specs.promises.Tables.{tables_in};
ghost use Rattle.listing.specs.promises.Reading.{Reads};

use answers::Refusal;
use card_log::layout::SEGMENT;
use card_log::mount::{Mounted, mount_on};

// The tables are left with the state of a card of `most` segments at most. What they held does not matter.
pub fn read(card: &[u8], most: usize, nodes: &mut [u8; 1280]) -> Result<(), Refusal>
    ensures { Reads most card.now result (tables_in nodes.new) }
{
    if most < card.len() / SEGMENT {
        return Err(Refusal::WrongLength);
    }
    match mount_on(card, nodes) {
        Mounted::WrongLength => Err(Refusal::WrongLength),
        Mounted::Fault(_, _) => Err(Refusal::LogFault),
        Mounted::Sound(_) => Ok(()),
    }
}
