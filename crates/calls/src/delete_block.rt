// DeleteBlock: a block taken off its list.
ghost use Rattle.std.specs.Prelude.{[], ◌∷◌, ◌≤◌, ◌<◌};
ghost use Rattle.lists.specs.Change.{del_block};
ghost use Rattle.lists.specs.State.{placed};
ghost use Rattle.lists.specs.promises.Tables.{tables_in, OfShown};
ghost use Rattle.card_log.specs.declared.entry.LogEntry.TheVariants as E;
ghost use Rattle.card_log.specs.Entry.{is_block};
ghost use Rattle.disk.specs.Record.{record_in};
ghost use Rattle.disk.specs.promises.Listing.{Padded};
ghost use Rattle.disk.specs.Call.{delete_block, on_stream};
ghost use Rattle.answers.specs.Answers.{reply_answer};
ghost use Rattle.calls.specs.promises.Adds.{DeletesAfter};
ghost use Rattle.calls.specs.Performs.{ChangesRecord};

use crate::delete::delete;
use crate::ranges::is_block;
use answers::{Refusal, Reply, ask};
use card_log::entry::LogEntry;
use disk::record::RECORD;
use inspect::look::look_stream;
use lists::tables::is_placed;

// Questions 5, 8, 11 and 13, over the stream's view.
fn delete_placed(rec: &mut [u8; RECORD], nodes: &mut [u8; 1280], s: usize, b: usize) -> Reply
    requires { (s ≤ 4) × ((record_in rec.old).ring.head < 32) × Padded (record_in rec.old) }
    ensures { OfShown (tables_in nodes.old) (λ rs. DeletesAfter ((5, is_block b) ∷ (8, placed b rs) ∷ []) s (E.DeleteBlock b) (del_block b) rs (record_in rec.old) result (record_in rec.new)) }
{
    ask(is_block(b), Refusal::OutOfRange)?;
    let block = b as u8;
    ask(is_placed(nodes, block), Refusal::BlockNotPlaced)?;
    delete(nodes, rec, s, LogEntry::DeleteBlock { block })
}

// Questions: 1 lengths, 3 record, 4 stream, 5 block, 8 on a list, 11 journal, 13 queue.
pub fn delete_block(
    card: &[u8],
    queue_data: &[u8],
    journal_data: &[u8],
    rec: &mut [u8; RECORD],
    stream: usize,
    block: usize,
) -> Reply
    ensures { ChangesRecord (on_stream stream (delete_block block)) card.now queue_data.now journal_data.now rec.old rec.new (reply_answer result) }
{
    let mut nodes = [0u8; 1280];
    look_stream(card, queue_data, journal_data, rec, stream, &mut nodes)?;
    delete_placed(rec, &mut nodes, stream, block)
}
