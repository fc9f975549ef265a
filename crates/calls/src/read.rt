// ReadBlock: a block of a view copied to what the caller lends, and its race.
ghost use Rattle.disk.specs.Call.{read_block, in_view};
ghost use Rattle.answers.specs.Answers.{read_answer};
ghost use Rattle.calls.specs.Performs.{ChangesNothing};

use crate::ranges::is_read;
use answers::{ReadReply, Refusal, ask};
use card_log::content::copy_content;
use card_log::location::race_in;
use disk::record::RECORD;
use inspect::look::look_view;
use lists::tables::{UNWRITTEN, is_placed, location_of};

// Block b of view v goes to dest.
// Questions: 1 lengths, 3 record, 4 view, 5 block and destination, 8 on a list, 15 written.
pub fn read(
    card: &[u8],
    queue_data: &[u8],
    journal_data: &[u8],
    rec: &[u8; RECORD],
    view: usize,
    block: usize,
    dest: &mut [u8],
) -> ReadReply
    ensures { ChangesNothing (in_view view (read_block block dest.old)) card.now queue_data.now journal_data.now rec.now (read_answer result) dest.new }
{
    let mut nodes = [0u8; 1280];
    look_view(card, queue_data, journal_data, rec, view, &mut nodes)?;
    ask(is_read(block, dest.len()), Refusal::OutOfRange)?;
    let b = block as u8;
    ask(is_placed(&nodes, b), Refusal::BlockNotPlaced)?;
    let number = location_of(&nodes, b);
    ask(number != UNWRITTEN, Refusal::Unwritten)?;
    copy_content(card, queue_data, journal_data, number, dest);
    Ok(race_in(number))
}
