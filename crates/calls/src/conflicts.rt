// The look-up of a window's conflict count.
ghost use Rattle.std.specs.Prelude.{[]};
ghost use Rattle.disk.specs.Call.{conflict_count};
ghost use Rattle.answers.specs.Answers.{number_answer};
ghost use Rattle.calls.specs.Performs.{ChangesNothing};

use crate::check::check;
use crate::ranges::is_window;
use answers::{NumberReply, Refusal, ask};
use disk::record;
use disk::record::RECORD;

// Questions: 1 lengths, 3 record, 5 window.
pub fn conflicts(
    card: &[u8],
    queue_data: &[u8],
    journal_data: &[u8],
    rec: &[u8; RECORD],
    window: usize,
) -> NumberReply
    ensures { ChangesNothing (conflict_count window) card.now queue_data.now journal_data.now rec.now (number_answer result) [] }
{
    check(card, queue_data, journal_data, rec)?;
    ask(is_window(window), Refusal::OutOfRange)?;
    Ok(usize::from(record::conflicts(rec, window)))
}
