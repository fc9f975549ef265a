// DeleteList: a list given up with its blocks.
ghost use Rattle.std.specs.Prelude.{[], ◌∷◌, ◌≤◌, ◌<◌};
ghost use Rattle.lists.specs.Change.{del_list};
ghost use Rattle.lists.specs.State.{taken};
ghost use Rattle.lists.specs.promises.Tables.{tables_in, OfShown};
ghost use Rattle.card_log.specs.declared.entry.LogEntry.TheVariants as E;
ghost use Rattle.card_log.specs.Entry.{is_list};
ghost use Rattle.disk.specs.Record.{record_in};
ghost use Rattle.disk.specs.promises.Listing.{Padded};
ghost use Rattle.disk.specs.Call.{delete_list, on_stream};
ghost use Rattle.answers.specs.Answers.{reply_answer};
ghost use Rattle.calls.specs.promises.Adds.{DeletesAfter};
ghost use Rattle.calls.specs.Performs.{ChangesRecord};

use crate::delete::delete;
use crate::ranges::is_list;
use answers::{Refusal, Reply, ask};
use card_log::entry::LogEntry;
use disk::record::RECORD;
use inspect::look::look_stream;
use lists::tables::is_taken;

// Questions 5, 7, 11 and 13, over the stream's view.
fn delete_taken(rec: &mut [u8; RECORD], nodes: &mut [u8; 1280], s: usize, l: usize) -> Reply
    requires { (s ≤ 4) × ((record_in rec.old).ring.head < 32) × Padded (record_in rec.old) }
    ensures { OfShown (tables_in nodes.old) (λ rs. DeletesAfter ((5, is_list l) ∷ (7, taken l rs) ∷ []) s (E.DeleteList l) (del_list l) rs (record_in rec.old) result (record_in rec.new)) }
{
    ask(is_list(l), Refusal::OutOfRange)?;
    let list = l as u8;
    ask(is_taken(nodes, list), Refusal::ListNotTaken)?;
    delete(nodes, rec, s, LogEntry::DeleteList { list })
}

// Questions: 1 lengths, 3 record, 4 stream, 5 list, 7 taken, 11 journal, 13 queue.
pub fn delete_list(
    card: &[u8],
    queue_data: &[u8],
    journal_data: &[u8],
    rec: &mut [u8; RECORD],
    stream: usize,
    list: usize,
) -> Reply
    ensures { ChangesRecord (on_stream stream (delete_list list)) card.now queue_data.now journal_data.now rec.old rec.new (reply_answer result) }
{
    let mut nodes = [0u8; 1280];
    look_stream(card, queue_data, journal_data, rec, stream, &mut nodes)?;
    delete_taken(rec, &mut nodes, stream, list)
}
