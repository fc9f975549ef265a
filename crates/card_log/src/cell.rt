// An entry in four bytes, as the record holds it: its map, then its fields, lowest bit first.
ghost use Rattle.std.specs.Prelude.{◌≡◌};
ghost use Rattle.card_log.specs.Cell.{cell, kind_in, entry_in};

use super::entry::LogEntry;
use super::map::{COMMIT, DELETE_BLOCK, DELETE_LIST, PUT_AFTER, PUT_FIRST, RACED, TAKE, WRITE};

// What a map without the mark of a member says with its fields.
fn kind_in(kind: u8, first: u8, second: u8, third: u8) -> LogEntry
    ensures { result ≡ kind_in kind first second third }
{
    match kind {
        TAKE => LogEntry::Take { list: first },
        PUT_FIRST => LogEntry::PutFirst {
            block: first,
            list: second,
        },
        PUT_AFTER => LogEntry::PutAfter {
            block: first,
            list: second,
            predecessor: third,
        },
        WRITE => LogEntry::Write {
            block: first,
            slot: second,
            race: 0,
        },
        RACED => LogEntry::Write {
            block: first,
            slot: second,
            race: third,
        },
        DELETE_BLOCK => LogEntry::DeleteBlock { block: first },
        DELETE_LIST => LogEntry::DeleteList { list: first },
        _ => LogEntry::Take { list: 0 },
    }
}

// The entry that four bytes say; its member mark is not looked at. A map that no entry has says a take of list 0, which no question accepts.
pub fn entry_in(map: u8, first: u8, second: u8, third: u8) -> LogEntry
    ensures { result ≡ entry_in (cell map first second third) }
{
    if map == COMMIT {
        return LogEntry::Commit { count: first };
    }
    kind_in(map % 128, first, second, third)
}
