// Formatting: the card becomes an empty log, the record a fresh one, in which every number is free.
ghost use Rattle.std.specs.Prelude.{[]};
ghost use Rattle.disk.specs.Disk.{disk_in};
ghost use Rattle.disk.specs.Call.{format};
ghost use Rattle.answers.specs.Answers.{reply_answer};
ghost use Rattle.calls.specs.Performs.{Performs};

use crate::renew::renew_from;
use answers::{Refusal, Reply, ask};
use card_log::layout::SEGMENT;
use card_log::store::format_stores;
use disk::record::RECORD;
use inspect::lengths::lengths_right;
use lists::tables::clear;

// Questions: 1 lengths. The record is not looked at.
pub fn format(
    card: &mut [u8],
    queue_data: &[u8],
    journal_data: &[u8],
    rec: &mut [u8; RECORD],
) -> Reply
    ensures { Performs format (disk_in card.old queue_data.now journal_data.now rec.old) (disk_in card.new queue_data.now journal_data.now rec.new) (reply_answer result) [] }
{
    ask(
        lengths_right(card, queue_data, journal_data),
        Refusal::WrongLength,
    )?;
    let segments = card.len() / SEGMENT;
    format_stores(card, segments);
    let mut nodes = [0u8; 1280];
    clear(&mut nodes);
    renew_from(rec, &nodes);
    Ok(())
}
