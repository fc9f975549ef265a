// The writer's side of an entry: its map, its length and its bytes.
ghost use Rattle.std.specs.Prelude.{◌≡◌, false, [], ◌∷◌, get_or};
ghost use Rattle.card_log.specs.Entry.{encode, raw, as_entry, entry_length, carried};
ghost use Rattle.card_log.specs.Card.{used_by};

use super::entry::LogEntry;
use super::map;

// The map is built from the bits of the fields that the entry has. A commit is no member.
pub fn map_of(e: LogEntry, member: bool) -> u8
    ensures { result ≡ get_or (encode (as_entry member e)) 0 0 }
{
    match e {
        LogEntry::Take { list: _ } => map::marked(map::LIST, member),
        LogEntry::PutFirst { block: _, list: _ } => map::marked(map::BLOCK | map::LIST, member),
        LogEntry::PutAfter {
            block: _,
            list: _,
            predecessor: _,
        } => map::marked(map::BLOCK | map::LIST | map::PREDECESSOR, member),
        LogEntry::Write {
            block: _,
            slot: _,
            race,
        } => map::marked(map::of_write(race), member),
        LogEntry::DeleteBlock { block: _ } => map::marked(map::BLOCK | map::REMOVAL, member),
        LogEntry::DeleteList { list: _ } => map::marked(map::LIST | map::REMOVAL, member),
        LogEntry::Commit { count: _ } => map::COUNT,
    }
}

// The length of an entry, whatever its slot and whether or not it is a member.
pub fn length_of(e: LogEntry) -> usize
    ensures { result ≡ entry_length (as_entry false e) }
{
    map::length(map_of(e, false))
}

// How many slots an entry uses.
pub fn slots_of(e: LogEntry) -> usize
    ensures { result ≡ used_by (carried (as_entry false e)) }
{
    map::slots(map_of(e, false))
}

// Byte `i` of the entry with that slot: the map, then its fields, lowest bit first. 0 past its end.
pub fn entry_byte(e: LogEntry, member: bool, slot: u8, i: usize) -> u8
    ensures { result ≡ get_or (encode (raw slot (as_entry member e))) i 0 }
{
    if i == 0 {
        return map_of(e, member);
    }
    match e {
        LogEntry::Take { list } => field(i, list, 0, 0),
        LogEntry::PutFirst { block, list } => field(i, block, list, 0),
        LogEntry::PutAfter {
            block,
            list,
            predecessor,
        } => field(i, block, list, predecessor),
        LogEntry::Write {
            block,
            slot: _,
            race,
        } => field(i, block, slot, race),
        LogEntry::DeleteBlock { block } => field(i, block, 0, 0),
        LogEntry::DeleteList { list } => field(i, list, 0, 0),
        LogEntry::Commit { count } => field(i, count, 0, 0),
    }
}

// Field `i` of three, counted from 1.
fn field(i: usize, x: u8, y: u8, z: u8) -> u8
    ensures { result ≡ get_or (0 ∷ x ∷ y ∷ z ∷ []) i 0 }
{
    match i {
        1 => x,
        2 => y,
        3 => z,
        _ => 0,
    }
}
