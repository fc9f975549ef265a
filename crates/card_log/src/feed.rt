// One entry after the other, fed to the reader that lent tables show.
//
// `nodes` are the linked tables of the reader's state. Its run of members may be long, but a commit takes at most 15 of them, so the last KEPT are
// kept: member j of the run in six bytes of `members`, from MEMBER * (j % KEPT) on.
ghost use Rattle.std.specs.Prelude.{◌≡◌, true, ◌≤◌, ◌<◌};
ghost use Rattle.lists.specs.promises.Tables.{tables_in};
ghost use Rattle.card_log.specs.Entry.{legal, raw, as_entry};
ghost use Rattle.card_log.specs.promises.Feed.{memory, member_set, fields_of, fed_if, ActsMember, Commits, Feeds};

use super::entry::LogEntry;
use super::location::number_of;
use lists::tables::of_bytes;
use lists::{kind, tables};

const KEPT: usize = 16;

const MEMBER: usize = 8;

// A commit is no kind of change.
const NO_KIND: u8 = 0;

// An entry by its fields, as `tables::act` takes them; those that it has not are 0.
#[derive(Clone, Copy)]
pub struct Fields {
    pub kind: u8,
    pub block: u8,
    pub list: u8,
    pub predecessor: u8,
    pub count: u8,
    pub race: u8,
}

// An entry fed: how long the run is now; or it is refused.
#[derive(Clone, Copy)]
pub enum Fed {
    Run(usize),
    Refused,
}

// Member `run` of the run, counted from 0, is kept until a commit; no member is refused before.
pub fn keep(
    members: &mut [u8; 128],
    run: usize,
    kind: u8,
    block: u8,
    list: u8,
    predecessor: u8,
    number: u16,
) -> bool
    ensures { (result ≡ true) × (members.new ≡ member_set members.old run kind block list predecessor number) }
{
    let i = MEMBER * (run % KEPT);
    members[i] = kind;
    members[i + 1] = block;
    members[i + 2] = list;
    members[i + 3] = predecessor;
    members[i + 4] = (number % 256) as u8;
    members[i + 5] = (number / 256) as u8;
    true
}

// Member `j` of the run acts.
fn act_member(nodes: &mut [u8; 1280], members: &[u8; 128], j: usize) -> bool
    ensures { ActsMember (memory nodes.old members.now) j result (tables_in nodes.new) }
{
    let i = MEMBER * (j % KEPT);
    let kind = members[i];
    let block = members[i + 1];
    let list = members[i + 2];
    let predecessor = members[i + 3];
    let number = of_bytes(members[i + 4], members[i + 5]);
    tables::act(nodes, kind, block, list, predecessor, number)
}

// A commit: the last `n` members of the run act, in their order. It is refused if there are fewer, or if one of them doesn't apply.
pub fn commit(nodes: &mut [u8; 1280], members: &[u8; 128], run: usize, n: usize) -> bool
    ensures { Commits (memory nodes.old members.now) run n result (memory nodes.new members.now) }
{
    if run < n {
        return false;
    }
    let mut j = run - n;
    while j < run {
        if !act_member(nodes, members, j) {
            return false;
        }
        j += 1;
    }
    true
}

fn change_fields(kind: u8, block: u8, list: u8, predecessor: u8, race: u8) -> Fields
    ensures { result ≡ record { kind = kind; block = block; list = list; predecessor = predecessor; count = 0; race = race } }
{
    Fields {
        kind,
        block,
        list,
        predecessor,
        count: 0,
        race,
    }
}

pub fn fields_of(e: LogEntry) -> Fields
    ensures { result ≡ fields_of e }
{
    match e {
        LogEntry::Take { list } => change_fields(kind::TAKE, 0, list, 0, 0),
        LogEntry::PutFirst { block, list } => change_fields(kind::PUT_FIRST, block, list, 0, 0),
        LogEntry::PutAfter {
            block,
            list,
            predecessor,
        } => change_fields(kind::PUT_AFTER, block, list, predecessor, 0),
        LogEntry::Write {
            block,
            slot: _,
            race,
        } => change_fields(kind::WRITE, block, 0, 0, race),
        LogEntry::DeleteBlock { block } => change_fields(kind::DELETE_BLOCK, block, 0, 0, 0),
        LogEntry::DeleteList { list } => change_fields(kind::DELETE_LIST, 0, list, 0, 0),
        LogEntry::Commit { count } => Fields {
            kind: NO_KIND,
            block: 0,
            list: 0,
            predecessor: 0,
            count,
            race: 0,
        },
    }
}

fn settle(accepted: bool) -> Fed
    ensures { result ≡ fed_if accepted }
{
    if accepted { Fed::Run(0) } else { Fed::Refused }
}

// An entry, legal but for its slot; a write's bytes stand at `location`.
pub fn feed(
    nodes: &mut [u8; 1280],
    members: &mut [u8; 128],
    run: usize,
    member: bool,
    e: LogEntry,
    location: u16,
) -> Fed
    requires { (run < 1000000) × (location ≤ 2048) × (legal (raw 0 (as_entry member e)) ≡ true) }
    ensures { Feeds (memory nodes.old members.old) run member e location result (memory nodes.new members.new) }
{
    let f = fields_of(e);
    if f.kind == NO_KIND {
        return settle(commit(nodes, members, run, f.count as usize));
    }
    let number = number_of(location, f.race);
    if member {
        keep(members, run, f.kind, f.block, f.list, f.predecessor, number);
        return Fed::Run(run + 1);
    }
    settle(tables::act(nodes, f.kind, f.block, f.list, f.predecessor, number))
}
