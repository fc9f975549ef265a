// The look-up of the printed page.
ghost use Rattle.disk.specs.Call as call;
ghost use Rattle.answers.specs.Answers.{number_answer};
ghost use Rattle.calls.specs.Performs.{ChangesNothing};

use answers::{NumberReply, Refusal, ask};
use disk::record::RECORD;
use inspect::look::look_view;
use listing::page::{page_length, put_page};

// The page of a view goes to the front of the buffer; its length is returned. A buffer of `listing::page::PAGE` bytes is never too short.
// Questions: 1 lengths, 3 record, 4 view, 14 buffer.
pub fn page(
    card: &[u8],
    queue_data: &[u8],
    journal_data: &[u8],
    rec: &[u8; RECORD],
    view: usize,
    buffer: &mut [u8],
) -> NumberReply
    ensures { ChangesNothing (call.in_view view (call.page buffer.old)) card.now queue_data.now journal_data.now rec.now (number_answer result) buffer.new }
{
    let mut nodes = [0u8; 1280];
    look_view(card, queue_data, journal_data, rec, view, &mut nodes)?;
    let length = page_length(&nodes);
    ask(length <= buffer.len(), Refusal::BufferTooShort)?;
    put_page(buffer, 0, &nodes);
    Ok(length)
}
