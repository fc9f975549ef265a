// The stores that a flush would make.
ghost use Rattle.disk.specs.Call.{flush};
ghost use Rattle.answers.specs.Answers.{number_answer};
ghost use Rattle.driver.specs.Stores.{Lists};

use super::queue::list_queue;
use answers::{NumberReply, Refusal, ask};
use calls::flush::ALLOWANCE;
use disk::record::RECORD;
use inspect::examine::examine;

// The words of the longest list: a buffer of so many takes those of every flush (`StoresFew` in specs/Stores).
pub const FLUSH_STORES: usize = 8352;

// The stores that a flush with this allowance would make, as words, in order; how many there are, at most as many as fit.
// Questions: 1 lengths, 3 record, 5 allowance.
pub fn flush_stores(
    card: &[u8],
    queue_data: &[u8],
    journal_data: &[u8],
    rec: &[u8; RECORD],
    allowance: usize,
    stores: &mut [u32],
) -> NumberReply
    ensures { Lists (flush allowance) card.now queue_data.now journal_data.now rec.now stores.old stores.new (number_answer result) }
{
    let mut nodes = [0u8; 1280];
    let behind = examine(card, queue_data, journal_data, rec, &mut nodes)?;
    ask(allowance <= ALLOWANCE, Refusal::OutOfRange)?;
    let most = allowance.min(stores.len());
    Ok(list_queue(card, queue_data, rec, behind, most, stores))
}
