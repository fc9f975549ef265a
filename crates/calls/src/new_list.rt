// NewList: a free list taken.
ghost use Rattle.disk.specs.Call.{new_list, on_stream};
ghost use Rattle.answers.specs.Answers.{number_answer};
ghost use Rattle.calls.specs.Performs.{ChangesRecord};

use crate::enter::enter;
use crate::give::take_list;
use answers::NumberReply;
use disk::record::RECORD;

// Questions: 1 lengths, 3 record, 4 stream, 10 a free number, 11 journal, 13 queue.
pub fn new_list(
    card: &[u8],
    queue_data: &[u8],
    journal_data: &[u8],
    rec: &mut [u8; RECORD],
    stream: usize,
) -> NumberReply
    ensures { ChangesRecord (on_stream stream new_list) card.now queue_data.now journal_data.now rec.old rec.new (number_answer result) }
{
    let mut nodes = [0u8; 1280];
    enter(card, queue_data, journal_data, rec, stream, &mut nodes)?;
    take_list(rec, stream)
}
