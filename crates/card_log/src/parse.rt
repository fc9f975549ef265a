// The reader's side of an entry: its fields are picked from the map, and its numbers are judged.
ghost use Rattle.std.specs.Prelude.{◌≡◌, ◌≢◌, ◌+◌, ◌-◌, ◌<◌, ◌≤◌, leb, length};
ghost use Rattle.std.specs.Int.Bits.{bit_and};
ghost use Rattle.std.specs.Int.Count.{ones};
ghost use Rattle.card_log.specs.Entry.{is_slot, is_count, size_of};
ghost use Rattle.card_log.specs.promises.Parse.{byte_at, Inside, parsed_of, decoded_at};

use super::entry::LogEntry;
use super::legal::{both, is_block, is_list, is_race};
use super::map;
use super::map::{COMMIT, DELETE_BLOCK, DELETE_LIST, PUT_AFTER, PUT_FIRST, RACED, TAKE, WRITE};

// An entry and the place behind it; or none: the map is not legal, a number is out of range, the slot is not the next one or the bytes end too soon.
#[derive(Clone, Copy)]
pub enum Parsed {
    Entry(LogEntry, usize),
    Bad,
}

// The entry whose map stands at `at`, up to `end`; `kind` is that map without the mark of a member, `slots` are used before it. Its length is asked first,
// so that its fields are read without a test, and in each arm, where it is a number: a walk takes a quarter less.
pub fn parse(card: &[u8], at: usize, end: usize, slots: usize, kind: u8) -> Parsed
    requires { Inside card.now at end × (kind < 128) }
    ensures { parsed_of result ≡ decoded_at card.now at end slots kind }
{
    match kind {
        PUT_FIRST => {
            if !fits(at, end, PUT_FIRST) {
                return Parsed::Bad;
            }
            let block = field(card, at, end, PUT_FIRST, map::BLOCK);
            let list = field(card, at, end, PUT_FIRST, map::LIST);
            if both(is_block(block), is_list(list)) {
                Parsed::Entry(
                    LogEntry::PutFirst { block, list },
                    at + map::length(PUT_FIRST),
                )
            } else {
                Parsed::Bad
            }
        }
        PUT_AFTER => {
            if !fits(at, end, PUT_AFTER) {
                return Parsed::Bad;
            }
            let block = field(card, at, end, PUT_AFTER, map::BLOCK);
            let list = field(card, at, end, PUT_AFTER, map::LIST);
            let predecessor = field(card, at, end, PUT_AFTER, map::PREDECESSOR);
            if both(both(is_block(block), is_list(list)), is_block(predecessor)) {
                Parsed::Entry(
                    LogEntry::PutAfter {
                        block,
                        list,
                        predecessor,
                    },
                    at + map::length(PUT_AFTER),
                )
            } else {
                Parsed::Bad
            }
        }
        WRITE => {
            if !fits(at, end, WRITE) {
                return Parsed::Bad;
            }
            let block = field(card, at, end, WRITE, map::BLOCK);
            let slot = field(card, at, end, WRITE, map::SLOT);
            if both(both(is_block(block), is_slot(slot)), slot as usize == slots) {
                Parsed::Entry(
                    LogEntry::Write {
                        block,
                        slot,
                        race: 0,
                    },
                    at + map::length(WRITE),
                )
            } else {
                Parsed::Bad
            }
        }
        RACED => parse_raced(card, at, end, slots),
        _ => parse_short(card, at, end, slots, kind),
    }
}

// A write with a race.
fn parse_raced(card: &[u8], at: usize, end: usize, slots: usize) -> Parsed
    requires { Inside card.now at end }
    ensures { parsed_of result ≡ decoded_at card.now at end slots 73 }
{
    if !fits(at, end, RACED) {
        return Parsed::Bad;
    }
    let block = field(card, at, end, RACED, map::BLOCK);
    let slot = field(card, at, end, RACED, map::SLOT);
    let race = field(card, at, end, RACED, map::RACE);
    if !both(1 <= race, is_race(race)) {
        return Parsed::Bad;
    }
    if both(both(is_block(block), is_slot(slot)), slot as usize == slots) {
        Parsed::Entry(
            LogEntry::Write { block, slot, race },
            at + map::length(RACED),
        )
    } else {
        Parsed::Bad
    }
}

// The kinds with one field.
fn parse_short(card: &[u8], at: usize, end: usize, slots: usize, kind: u8) -> Parsed
    requires { Inside card.now at end × (kind < 128) × (kind ≢ 3) × (kind ≢ 7) × (kind ≢ 9) × (kind ≢ 73) }
    ensures { parsed_of result ≡ decoded_at card.now at end slots kind }
{
    match kind {
        TAKE => {
            if !fits(at, end, TAKE) {
                return Parsed::Bad;
            }
            let list = field(card, at, end, TAKE, map::LIST);
            if is_list(list) {
                Parsed::Entry(LogEntry::Take { list }, at + map::length(TAKE))
            } else {
                Parsed::Bad
            }
        }
        DELETE_BLOCK => {
            if !fits(at, end, DELETE_BLOCK) {
                return Parsed::Bad;
            }
            let block = field(card, at, end, DELETE_BLOCK, map::BLOCK);
            if is_block(block) {
                Parsed::Entry(
                    LogEntry::DeleteBlock { block },
                    at + map::length(DELETE_BLOCK),
                )
            } else {
                Parsed::Bad
            }
        }
        DELETE_LIST => {
            if !fits(at, end, DELETE_LIST) {
                return Parsed::Bad;
            }
            let list = field(card, at, end, DELETE_LIST, map::LIST);
            if is_list(list) {
                Parsed::Entry(LogEntry::DeleteList { list }, at + map::length(DELETE_LIST))
            } else {
                Parsed::Bad
            }
        }
        COMMIT => {
            if !fits(at, end, COMMIT) {
                return Parsed::Bad;
            }
            let count = field(card, at, end, COMMIT, map::COUNT);
            if is_count(count) {
                Parsed::Entry(LogEntry::Commit { count }, at + map::length(COMMIT))
            } else {
                Parsed::Bad
            }
        }
        _ => Parsed::Bad,
    }
}

// Does an entry of this map end before `end`?
fn fits(at: usize, end: usize, map: u8) -> bool
    requires { at ≤ end }
    ensures { result ≡ leb (size_of map) (end - at) }
{
    map::length(map) <= end - at
}

// The byte of the field of a bit: behind the map and the bytes of the lower bits.
fn field(card: &[u8], at: usize, end: usize, map: u8, bit: u8) -> u8
    requires { (1 ≤ bit) × (at + (1 + ones (bit_and map (bit - 1))) < end) × (end ≤ length card.now) }
    ensures { result ≡ byte_at card.now end (at + (1 + ones (bit_and map (bit - 1)))) }
{
    card[at + (1 + u8::count_ones(map & (bit - 1)) as usize)]
}

// The byte at `at`, or 0 from `end` on.
pub fn byte_at(card: &[u8], at: usize, end: usize) -> u8
    requires { end ≤ length card.now }
    ensures { result ≡ byte_at card.now end at }
{
    if at < end { card[at] } else { 0 }
}

fn is_slot(s: u8) -> bool
    ensures { result ≡ is_slot s }
{
    s <= LogEntry::SLOTS - 1
}

fn is_count(n: u8) -> bool
    ensures { result ≡ is_count n }
{
    n <= LogEntry::MEMBERS
}
