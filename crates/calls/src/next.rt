// The look-up of the block after another.
ghost use Rattle.std.specs.Prelude.{[]};
ghost use Rattle.disk.specs.Call.{block_after, in_view};
ghost use Rattle.answers.specs.Answers.{number_answer};
ghost use Rattle.calls.specs.Performs.{ChangesNothing};

use crate::ranges::{follows, is_position};
use answers::{NumberReply, Refusal, ask};
use disk::record::RECORD;
use inspect::look::look_view;
use lists::tables::{block_after, is_taken};

// The block after a predecessor on a list in a view: 0 stands for the first, and is returned at the end.
// Questions: 1 lengths, 3 record, 4 view, 5 list and predecessor, 7 list taken, 9 predecessor on it.
pub fn next(
    card: &[u8],
    queue_data: &[u8],
    journal_data: &[u8],
    rec: &[u8; RECORD],
    view: usize,
    list: usize,
    predecessor: usize,
) -> NumberReply
    ensures { ChangesNothing (in_view view (block_after list predecessor)) card.now queue_data.now journal_data.now rec.now (number_answer result) [] }
{
    let mut nodes = [0u8; 1280];
    look_view(card, queue_data, journal_data, rec, view, &mut nodes)?;
    ask(is_position(list, predecessor), Refusal::OutOfRange)?;
    let l = list as u8;
    let p = predecessor as u8;
    ask(is_taken(&nodes, l), Refusal::ListNotTaken)?;
    ask(follows(&nodes, l, p), Refusal::PredecessorElsewhere)?;
    Ok(usize::from(block_after(&nodes, l, p)))
}
