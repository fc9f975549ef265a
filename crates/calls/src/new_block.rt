// NewBlock: a free block put on a list, first or behind another.
ghost use Rattle.disk.specs.Call.{new_block, on_stream};
ghost use Rattle.answers.specs.Answers.{number_answer};
ghost use Rattle.calls.specs.Performs.{ChangesRecord};

use crate::give::put_free;
use answers::NumberReply;
use disk::record::RECORD;
use inspect::look::look_stream;

// Questions: 1 lengths, 3 record, 4 stream, 5 list and predecessor, 7 list taken, 9 predecessor on it, 10 a free number, 11 journal, 13 queue.
pub fn new_block(
    card: &[u8],
    queue_data: &[u8],
    journal_data: &[u8],
    rec: &mut [u8; RECORD],
    stream: usize,
    list: usize,
    predecessor: usize,
) -> NumberReply
    ensures { ChangesRecord (on_stream stream (new_block list predecessor)) card.now queue_data.now journal_data.now rec.old rec.new (number_answer result) }
{
    let mut nodes = [0u8; 1280];
    look_stream(card, queue_data, journal_data, rec, stream, &mut nodes)?;
    put_free(&nodes, rec, stream, list, predecessor)
}
