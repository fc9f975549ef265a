// Begin: a unit opened for a window, its journal empty.
ghost use Rattle.disk.specs.Call.{begin as begin_of};
ghost use Rattle.answers.specs.Answers.{reply_answer};
ghost use Rattle.calls.specs.Performs.{ChangesRecord};

use crate::check::check;
use crate::ranges::{is_unit, is_window};
use answers::{Refusal, Reply, ask};
use disk::change::empty;
use disk::record::RECORD;
use inspect::units::is_open;

// Questions: 1 lengths, 3 record, 4 unit, 5 window, 6 closed.
pub fn begin(
    card: &[u8],
    queue_data: &[u8],
    journal_data: &[u8],
    rec: &mut [u8; RECORD],
    unit: usize,
    window: usize,
) -> Reply
    ensures { ChangesRecord (begin_of unit window) card.now queue_data.now journal_data.now rec.old rec.new (reply_answer result) }
{
    check(card, queue_data, journal_data, rec)?;
    ask(is_unit(unit), Refusal::StreamClosed)?;
    ask(is_window(window), Refusal::OutOfRange)?;
    ask(!is_open(rec, unit), Refusal::UnitOpen)?;
    empty(rec, unit, window as u8);
    Ok(())
}
