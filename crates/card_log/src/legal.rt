// Which numbers and entries may stand in a log.
ghost use Rattle.std.specs.Prelude.{◌≡◌, false, ◌&&◌};
ghost use Rattle.card_log.specs.Entry.{is_block, is_list, is_race, member, legal, raw, as_entry, as_change};

use crate::entry::LogEntry;

pub fn both(a: bool, b: bool) -> bool
    ensures { result ≡ (a && b) }
{
    if a { b } else { false }
}

pub fn is_block(b: u8) -> bool
    ensures { result ≡ is_block b }
{
    both(1 <= b, b <= LogEntry::BLOCKS)
}

pub fn is_list(l: u8) -> bool
    ensures { result ≡ is_list l }
{
    both(1 <= l, l <= LogEntry::LISTS)
}

// A race, or none.
pub fn is_race(r: u8) -> bool
    ensures { result ≡ is_race r }
{
    r <= LogEntry::RACES
}

// May the entry stand in a log as a unit's member, a write in slot 0?
pub fn is_member(e: LogEntry) -> bool
    ensures { result ≡ legal (raw 0 (member (as_change e))) }
{
    match e {
        LogEntry::Take { list } => is_list(list),
        LogEntry::PutFirst { block, list } => both(is_block(block), is_list(list)),
        LogEntry::PutAfter {
            block,
            list,
            predecessor,
        } => both(both(is_block(block), is_list(list)), is_block(predecessor)),
        LogEntry::Write {
            block,
            slot: _,
            race,
        } => both(is_block(block), is_race(race)),
        LogEntry::DeleteBlock { block } => is_block(block),
        LogEntry::DeleteList { list } => is_list(list),
        LogEntry::Commit { count: _ } => false,
    }
}

// May the entry stand in a log, a write in slot 0?
pub fn is_legal(member: bool, e: LogEntry) -> bool
    ensures { result ≡ legal (raw 0 (as_entry member e)) }
{
    match e {
        LogEntry::Take { list: _ } => is_member(e),
        LogEntry::PutFirst { block: _, list: _ } => is_member(e),
        LogEntry::PutAfter {
            block: _,
            list: _,
            predecessor: _,
        } => is_member(e),
        LogEntry::Write {
            block: _,
            slot: _,
            race: _,
        } => is_member(e),
        LogEntry::DeleteBlock { block: _ } => is_member(e),
        LogEntry::DeleteList { list: _ } => is_member(e),
        LogEntry::Commit { count } => count <= LogEntry::MEMBERS,
    }
}
