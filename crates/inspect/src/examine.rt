// Questions 1 and 3, by one walk of the log.
ghost use Rattle.std.specs.Prelude.{◌≡◌, true, List, ℕ, ◌≤◌, ◌<◌, ◌*◌, length};
ghost use Rattle.lists.specs.promises.Tables.{tables_in};
ghost use Rattle.card_log.specs.Card.{card_length, segments_in};
ghost use Rattle.card_log.specs.Store.{tail};
ghost use Rattle.card_log.specs.promises.Within.{Within};
ghost use Rattle.card_log.specs.promises.Feed.{memory};
ghost use Rattle.disk.specs.Record.{record_in};
ghost use Rattle.disk.specs.Disk.{disk_in};
ghost use Rattle.inspect.specs.promises.Clauses.{Settles};
ghost use Rattle.inspect.specs.promises.Inspect.{AsksLent, ExaminesLog, Examines};

use super::head::head_stands;
use super::holders::holders_right;
use super::lengths::lengths_right;
use super::listed::listed_right;
use super::numbers::numbers_right;
use super::queue::enter_queue;
use super::units::units_right;
use answers::{Refusal, Reply, ask};
use card_log::place::Place;
use card_log::walk::{Walked, walk};
use disk::record::RECORD;

// The rest of question 3 behind the log, whose state the tables show: the queue, the holders, the free numbers, the head.
fn settle(
    card: &[u8],
    queue_data: &[u8],
    rec: &[u8; RECORD],
    behind: Place,
    run: usize,
    nodes: &mut [u8; 1280],
    members: &mut [u8; 128],
) -> bool
    requires { (card_length card.now ≡ true) × (length queue_data.now ≡ 8192) × ((record_in rec.now).ring.len ≤ 32) × ((record_in rec.now).ring.head < 32) × ((record_in rec.now).tally.listed ≤ 80) × (behind ≡ tail card.now) × Within behind × (behind.segment < segments_in card.now) × (run ≤ 64 * 255) }
    ensures { Settles card.now queue_data.now (memory nodes.old members.old) run (record_in rec.now) result (tables_in nodes.new) }
{
    enter_queue(nodes, members, rec, run)
        && holders_right(rec, nodes)
        && listed_right(rec, nodes)
        && head_stands(card, queue_data, rec, behind)
}

// Question 1, and the clauses of 3 that the record decides alone.
fn ask_lent(card: &[u8], queue_data: &[u8], journal_data: &[u8], rec: &[u8; RECORD]) -> Reply
    ensures { AsksLent (disk_in card.now queue_data.now journal_data.now rec.now) result }
{
    ask(
        lengths_right(card, queue_data, journal_data),
        Refusal::WrongLength,
    )?;
    ask(numbers_right(rec), Refusal::RecordUnsound)?;
    ask(units_right(rec), Refusal::RecordUnsound)
}

// The card and what is behind its log, where these are right. The tables then show the committed state.
fn examine_log(
    card: &[u8],
    queue_data: &[u8],
    rec: &[u8; RECORD],
    nodes: &mut [u8; 1280],
) -> Result<Place, Refusal>
    requires { (card_length card.now ≡ true) × (length queue_data.now ≡ 8192) × ((record_in rec.now).ring.len ≤ 32) × ((record_in rec.now).ring.head < 32) × ((record_in rec.now).tally.listed ≤ 80) }
    ensures { (j : List ℕ) → ExaminesLog 0 (disk_in card.now queue_data.now j rec.now) result (tables_in nodes.new) }
{
    let mut members = [0u8; 128];
    let Walked::Sound(behind, run) = walk(card, nodes, &mut members) else {
        return Err(Refusal::RecordUnsound);
    };
    let settled = settle(card, queue_data, rec, behind, run, nodes, &mut members);
    ask(settled, Refusal::RecordUnsound)?;
    Ok(behind)
}

// The same on a copy, so that the tables go on showing the log's state.
fn examine_apart(
    card: &[u8],
    queue_data: &[u8],
    rec: &[u8; RECORD],
    nodes: &mut [u8; 1280],
) -> Result<Place, Refusal>
    requires { (card_length card.now ≡ true) × (length queue_data.now ≡ 8192) × ((record_in rec.now).ring.len ≤ 32) × ((record_in rec.now).ring.head < 32) × ((record_in rec.now).tally.listed ≤ 80) }
    ensures { (j : List ℕ) → ExaminesLog 5 (disk_in card.now queue_data.now j rec.now) result (tables_in nodes.new) }
{
    let mut members = [0u8; 128];
    let Walked::Sound(behind, run) = walk(card, nodes, &mut members) else {
        return Err(Refusal::RecordUnsound);
    };
    let mut then = *nodes;
    let settled = settle(card, queue_data, rec, behind, run, &mut then, &mut members);
    ask(settled, Refusal::RecordUnsound)?;
    Ok(behind)
}

// Are the lent lengths right and the record sound? Then the place behind the log; the tables show the committed state. What they held does not matter.
pub fn examine(
    card: &[u8],
    queue_data: &[u8],
    journal_data: &[u8],
    rec: &[u8; RECORD],
    nodes: &mut [u8; 1280],
) -> Result<Place, Refusal>
    ensures { Examines 0 (disk_in card.now queue_data.now journal_data.now rec.now) result (tables_in nodes.new) }
{
    ask_lent(card, queue_data, journal_data, rec)?;
    examine_log(card, queue_data, rec, nodes)
}

// The same, and the tables show the persistent state.
pub fn examine_persistent(
    card: &[u8],
    queue_data: &[u8],
    journal_data: &[u8],
    rec: &[u8; RECORD],
    nodes: &mut [u8; 1280],
) -> Result<Place, Refusal>
    ensures { Examines 5 (disk_in card.now queue_data.now journal_data.now rec.now) result (tables_in nodes.new) }
{
    ask_lent(card, queue_data, journal_data, rec)?;
    examine_apart(card, queue_data, rec, nodes)
}
