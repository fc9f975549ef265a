// Flush: the queue stored on the card, as far as the allowance and the card go.
ghost use Rattle.std.specs.Prelude.{[]};
ghost use Rattle.disk.specs.Disk.{disk_in};
ghost use Rattle.disk.specs.Call.{flush};
ghost use Rattle.answers.specs.Answers.{flush_answer};
ghost use Rattle.calls.specs.Performs.{Performs};

use crate::drain::drain;
use answers::{FlushReply, Refusal, ask};
use disk::record::RECORD;
use inspect::examine::examine;

// The largest allowance.
pub const ALLOWANCE: usize = 65535;

// Questions: 1 lengths, 3 record, 5 allowance.
pub fn flush(
    card: &mut [u8],
    queue_data: &[u8],
    journal_data: &[u8],
    rec: &mut [u8; RECORD],
    allowance: usize,
) -> FlushReply
    ensures { Performs (flush allowance) (disk_in card.old queue_data.now journal_data.now rec.old) (disk_in card.new queue_data.now journal_data.now rec.new) (flush_answer result) [] }
{
    let mut nodes = [0u8; 1280];
    let behind = examine(card, queue_data, journal_data, rec, &mut nodes)?;
    ask(allowance <= ALLOWANCE, Refusal::OutOfRange)?;
    Ok(drain(card, queue_data, rec, behind, allowance))
}
