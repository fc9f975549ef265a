// Write: 256 bytes that a block is to hold, and the race that they are of, added on a stream.
ghost use Rattle.std.specs.Prelude.{◌≡◌, ◌&&◌, [], ◌∷◌, ◌≤◌, ◌<◌, eqb, length};
ghost use Rattle.lists.specs.State.{placed};
ghost use Rattle.lists.specs.promises.Tables.{tables_in, OfShown};
ghost use Rattle.card_log.specs.declared.entry.LogEntry.TheVariants as E;
ghost use Rattle.card_log.specs.Card.{slot_bytes};
ghost use Rattle.card_log.specs.Entry.{is_block, is_race};
ghost use Rattle.disk.specs.Record.{record_in};
ghost use Rattle.disk.specs.Disk.{disk_in};
ghost use Rattle.disk.specs.Call.{write_block, on_stream};
ghost use Rattle.answers.specs.Answers.{reply_answer};
ghost use Rattle.calls.specs.promises.Adds.{AddsAfter, InRange, place_next, Copies, HasPlace};
ghost use Rattle.calls.specs.Performs.{Performs};

use crate::add::add;
use crate::ranges::is_write;
use answers::{Refusal, Reply, ask};
use card_log::copy::copy_in;
use card_log::entry::LogEntry;
use card_log::layout::SLOT;
use disk::record::{RECORD, Record, Unit, head, journal_len, len};
use inspect::look::look_stream;
use lists::tables::is_placed;

// The place of the data of the entry that the stream takes next.
fn place_next(rec: &[u8; RECORD], s: usize) -> usize
    requires { InRange s (record_in rec.now) }
    ensures { result ≡ place_next s (record_in rec.now) }
{
    if s == 0 {
        (head(rec) + len(rec)) % Record::QUEUE
    } else {
        (s - 1) * Unit::JOURNAL + journal_len(rec, s)
    }
}

// The content goes to that place.
fn copy_content(queue_data: &mut [u8], journal_data: &mut [u8], s: usize, at: usize, content: &[u8])
    requires { (length queue_data.old ≡ 8192) × (length journal_data.old ≡ 15360) × (length content.now ≡ 256) × HasPlace s at }
    ensures { Copies s at content.now queue_data.old journal_data.old queue_data.new journal_data.new }
{
    if s == 0 {
        copy_in(queue_data, SLOT * at, content);
    } else {
        copy_in(journal_data, SLOT * at, content);
    }
}

// Questions 5, 8, 11 and 13, over the stream's view; n bytes are lent.
fn write_placed(
    rec: &mut [u8; RECORD],
    nodes: &[u8; 1280],
    s: usize,
    b: usize,
    race: usize,
    n: usize,
) -> Reply
    requires { (s ≤ 4) × ((record_in rec.old).ring.head < 32) }
    ensures { OfShown (tables_in nodes.now) (λ rs. AddsAfter ((5, is_block b && is_race race && eqb n slot_bytes) ∷ (8, placed b rs) ∷ []) s (E.Write b 0 race) (record_in rec.old) result (record_in rec.new)) }
{
    ask(is_write(b, race, n), Refusal::OutOfRange)?;
    let block = b as u8;
    let race_byte = race as u8;
    ask(is_placed(nodes, block), Refusal::BlockNotPlaced)?;
    add(
        rec,
        s,
        LogEntry::Write {
            block,
            slot: 0,
            race: race_byte,
        },
    )
}

// Questions: 1 lengths, 3 record, 4 stream, 5 block, race and length, 8 on a list, 11 journal, 13 queue.
pub fn write(
    card: &[u8],
    queue_data: &mut [u8],
    journal_data: &mut [u8],
    rec: &mut [u8; RECORD],
    stream: usize,
    block: usize,
    race: usize,
    content: &[u8],
) -> Reply
    ensures { Performs (on_stream stream (write_block block race content.now)) (disk_in card.now queue_data.old journal_data.old rec.old) (disk_in card.now queue_data.new journal_data.new rec.new) (reply_answer result) [] }
{
    let mut nodes = [0u8; 1280];
    look_stream(card, queue_data, journal_data, rec, stream, &mut nodes)?;
    let at = place_next(rec, stream);
    write_placed(rec, &nodes, stream, block, race, content.len())?;
    copy_content(queue_data, journal_data, stream, at, content);
    Ok(())
}
