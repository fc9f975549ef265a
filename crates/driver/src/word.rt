// A store as one number.
ghost use Rattle.std.specs.Prelude.{◌≡◌, ◌<◌, length};
ghost use Rattle.card_log.specs.Raced.{with_body};
ghost use Rattle.card_log.specs.Entry.{map_entry, as_entry};
ghost use Rattle.driver.specs.Stores.{word};
ghost use Rattle.driver.specs.promises.Listing.{Listable, store_at};

use card_log::encode::{entry_byte, length_of, slots_of};
use card_log::entry::LogEntry;
use card_log::layout::{COUNT_AT, ENTRIES_AT, SEGMENT, SLOT};
use card_log::place::Place;

// Offset and byte. A card has at most 262,144 bytes.
pub fn joined(at: usize, byte: u8) -> u32
    requires { at < 262144 }
    ensures { result ≡ word (at, byte) }
{
    256 * (at as u32) + u32::from(byte)
}

// Store number `done` of an entry at its place; `content` is what a write writes. The order is that in which a flush stores: data, entry, count.
pub fn word_of(content: &[u8], place: Place, e: LogEntry, member: bool, done: usize) -> u32
    requires { Listable place (map_entry (with_body content.now) (as_entry member e)) done × (length content.now ≡ 256) }
    ensures { result ≡ word (store_at place (map_entry (with_body content.now) (as_entry member e)) done) }
{
    let segment = SEGMENT * place.segment;
    let data_bytes = SLOT * slots_of(e);
    if done < data_bytes {
        return joined(segment + SLOT * place.slots + done, content[done]);
    }
    let i = done - data_bytes;
    if i < length_of(e) {
        let byte = entry_byte(e, member, place.slots as u8, i);
        return joined(segment + ENTRIES_AT + place.bytes + i, byte);
    }
    joined(segment + COUNT_AT, (place.entries + 1) as u8)
}
