// The walk of a card's log, which mounting makes: entry by entry from segment 0, up to each count, until an empty segment.
// It sets up the lent tables, which are those of `feed`, and leaves in them the reader behind the log.
ghost use Rattle.std.specs.Prelude.{◌≡◌, true, false, ◌*◌, ◌≤◌, ◌<◌, length};
ghost use Rattle.lists.specs.promises.Tables.{Tables};
ghost use Rattle.card_log.specs.Entry.{legal, as_entry};
ghost use Rattle.card_log.specs.Card.{card_length};
ghost use Rattle.card_log.specs.promises.Location.{card_location};
ghost use Rattle.card_log.specs.promises.Feed.{memory};
ghost use Rattle.card_log.specs.promises.Walk.{step_if, Enters, OnSegment, Advances, OnCard, Passes, FirstUsed, Walks};

use super::entry::LogEntry;
use super::feed::{commit, keep};
use super::layout::{COUNT_AT, ENTRIES_AT, SEGMENT};
use super::location::{card_location, number_of};
use super::place::{Place, opened};
use super::reader::{Found, entry_at};
use lists::tables::act;
use lists::{kind, tables};

// The next entry of a segment: where it stands, how many slots are used before it, and how many members stand directly before it.
#[derive(Clone, Copy)]
pub struct Cursor {
    pub at: usize,
    pub slots: usize,
    pub run: usize,
}

#[derive(Clone, Copy)]
pub enum Step {
    Next(Cursor),
    Stuck,
}

// A segment passed: the place behind it and the length of the run there; or the number of its first entry at fault.
#[derive(Clone, Copy)]
pub enum Segment {
    Done(Place, usize),
    Broken(usize),
}

// The place behind the log and the length of the run there; or the segment and the entry of the first fault.
#[derive(Clone, Copy)]
pub enum Walked {
    Sound(Place, usize),
    Fault(usize, usize),
}

// The cursor behind an entry that is accepted.
fn go(accepted: bool, at: usize, slots: usize, run: usize) -> Step
    ensures { result ≡ step_if accepted at slots run }
{
    if accepted {
        Step::Next(Cursor { at, slots, run })
    } else {
        Step::Stuck
    }
}

// A plain entry of segment g acts, or is refused: `at` is behind it, `slots` are used before it.
fn plain(
    nodes: &mut [u8; 1280],
    members: &[u8; 128],
    run: usize,
    e: LogEntry,
    g: usize,
    at: usize,
    slots: usize,
) -> Step
    requires { (g < 64) × (slots < 256) × (legal (as_entry false e) ≡ true) }
    ensures { Enters (memory nodes.old members.now) run false e (card_location g slots) at slots result (memory nodes.new members.now) }
{
    match e {
        LogEntry::Take { list } => {
            let done = act(nodes, kind::TAKE, 0, list, 0, 0);
            go(done, at, slots, 0)
        }
        LogEntry::PutFirst { block, list } => {
            let done = act(nodes, kind::PUT_FIRST, block, list, 0, 0);
            go(done, at, slots, 0)
        }
        LogEntry::PutAfter {
            block,
            list,
            predecessor: x,
        } => {
            let done = act(nodes, kind::PUT_AFTER, block, list, x, 0);
            go(done, at, slots, 0)
        }
        LogEntry::Write {
            block,
            slot: _,
            race,
        } => {
            let number = number_of(card_location(g, slots), race);
            let done = act(nodes, kind::WRITE, block, 0, 0, number);
            go(done, at, slots + 1, 0)
        }
        LogEntry::DeleteBlock { block } => {
            let done = act(nodes, kind::DELETE_BLOCK, block, 0, 0, 0);
            go(done, at, slots, 0)
        }
        LogEntry::DeleteList { list } => {
            let done = act(nodes, kind::DELETE_LIST, 0, list, 0, 0);
            go(done, at, slots, 0)
        }
        LogEntry::Commit { count } => {
            let n = count as usize;
            let done = commit(nodes, members, run, n);
            go(done, at, slots, 0)
        }
    }
}

// A member is kept. A commit is none.
fn member(
    members: &mut [u8; 128],
    run: usize,
    e: LogEntry,
    g: usize,
    at: usize,
    slots: usize,
) -> Step
    requires { (g < 64) × (slots < 256) × (run < 1000000) × (legal (as_entry false e) ≡ true) }
    ensures { (t : Tables) → Enters (record { tables = t; members = members.old }) run true e (card_location g slots) at slots result (record { tables = t; members = members.new }) }
{
    match e {
        LogEntry::Take { list } => {
            let kept = keep(members, run, kind::TAKE, 0, list, 0, 0);
            go(kept, at, slots, run + 1)
        }
        LogEntry::PutFirst { block, list } => {
            let kept = keep(members, run, kind::PUT_FIRST, block, list, 0, 0);
            go(kept, at, slots, run + 1)
        }
        LogEntry::PutAfter {
            block,
            list,
            predecessor: x,
        } => {
            let kept = keep(members, run, kind::PUT_AFTER, block, list, x, 0);
            go(kept, at, slots, run + 1)
        }
        LogEntry::Write {
            block,
            slot: _,
            race,
        } => {
            let number = number_of(card_location(g, slots), race);
            let kept = keep(members, run, kind::WRITE, block, 0, 0, number);
            go(kept, at, slots + 1, run + 1)
        }
        LogEntry::DeleteBlock { block } => {
            let kept = keep(members, run, kind::DELETE_BLOCK, block, 0, 0, 0);
            go(kept, at, slots, run + 1)
        }
        LogEntry::DeleteList { list } => {
            let kept = keep(members, run, kind::DELETE_LIST, 0, list, 0, 0);
            go(kept, at, slots, run + 1)
        }
        LogEntry::Commit { count: _ } => Step::Stuck,
    }
}

// The entry at the cursor, in segment g.
fn step_entry(
    card: &[u8],
    nodes: &mut [u8; 1280],
    members: &mut [u8; 128],
    g: usize,
    cur: Cursor,
) -> Step
    requires { OnSegment card.now g cur }
    ensures { Advances card.now g cur (memory nodes.old members.old) result (memory nodes.new members.new) }
{
    let at = cur.at;
    let slots = cur.slots;
    let run = cur.run;
    match entry_at(card, g, at, slots) {
        Found::Member(e, behind) => member(members, run, e, g, behind, slots),
        Found::Plain(e, behind) => plain(nodes, members, run, e, g, behind, slots),
        Found::Bad => Step::Stuck,
    }
}

// The entries of segment g, which has one.
fn walk_segment(
    card: &[u8],
    nodes: &mut [u8; 1280],
    members: &mut [u8; 128],
    g: usize,
    run: usize,
) -> Segment
    requires { OnCard card.now g run }
    ensures { Passes card.now g run (memory nodes.old members.old) result (memory nodes.new members.new) }
{
    let start = SEGMENT * g + ENTRIES_AT;
    let n = card[SEGMENT * g + COUNT_AT] as usize;
    let mut cur = Cursor {
        at: start,
        slots: 0,
        run,
    };
    let mut i = 0;
    while i < n {
        match step_entry(card, nodes, members, g, cur) {
            Step::Next(after) => {
                cur = after;
            }
            Step::Stuck => {
                return Segment::Broken(i);
            }
        }
        i += 1;
    }
    let behind = Place {
        segment: g,
        entries: n,
        bytes: cur.at - start,
        slots: cur.slots,
    };
    Segment::Done(behind, cur.run)
}

// The first used segment from g up to n, or n.
fn first_used(card: &[u8], g: usize, n: usize) -> usize
    requires { (g ≤ n) × (4096 * n ≤ length card.now) × (n ≤ 64) }
    ensures { FirstUsed card.now g n result }
{
    let mut h = g;
    while h < n {
        if card[SEGMENT * h + COUNT_AT] != 0 {
            return h;
        }
        h += 1;
    }
    n
}

// The whole card. What the tables held does not matter.
pub fn walk(card: &[u8], nodes: &mut [u8; 1280], members: &mut [u8; 128]) -> Walked
    requires { card_length card.now ≡ true }
    ensures { Walks card.now result (memory nodes.new members.new) }
{
    tables::clear(nodes);
    *members = [0u8; 128];
    let n = card.len() / SEGMENT;
    let mut behind = opened(0);
    let mut run = 0;
    let mut g = 0;
    while g < n {
        if card[SEGMENT * g + COUNT_AT] == 0 {
            let used = first_used(card, g + 1, n);
            if used < n {
                return Walked::Fault(used, 0);
            }
            return Walked::Sound(behind, run);
        }
        match walk_segment(card, nodes, members, g, run) {
            Segment::Done(p, m) => {
                behind = p;
                run = m;
            }
            Segment::Broken(i) => {
                return Walked::Fault(g, i);
            }
        }
        g += 1;
    }
    Walked::Sound(behind, run)
}
