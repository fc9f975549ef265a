// The stores of an entry that are done already: those of its data, then those of its bytes.
ghost use Rattle.std.specs.Prelude.{◌≡◌, true, false, ◌+◌, ◌≤◌, ◌<◌, length};
ghost use Rattle.std.proofs.Math.Option.{some};
ghost use Rattle.card_log.specs.Raced.{with_body};
ghost use Rattle.card_log.specs.Entry.{map_entry, as_entry};
ghost use Rattle.card_log.specs.Card.{card_length, segments_in};
ghost use Rattle.card_log.specs.Store.{fits, head_at};
ghost use Rattle.card_log.specs.promises.Within.{Within};
ghost use Rattle.card_log.specs.promises.Begun.{stands_from};

use super::encode::{entry_byte, length_of, slots_of};
use super::entry::LogEntry;
use super::layout::{ENTRIES_AT, SEGMENT, SLOT};
use super::place::Place;

// Do the first `n` of some bytes stand on the card, from `at` on?
fn bytes_stand(card: &[u8], at: usize, bytes: &[u8], n: usize) -> bool
    requires { (at + n ≤ length card.now) × (n ≤ length bytes.now) }
    ensures { result ≡ stands_from card.now at bytes.now n }
{
    let mut i = 0;
    while i < n {
        if card[at + i] != bytes[i] {
            return false;
        }
        i += 1;
    }
    true
}

// Do the first `done` stores of an entry at its place stand on the card? The closing one is none of them; `content` is what a write writes.
pub fn is_begun(
    card: &[u8],
    content: &[u8],
    place: Place,
    e: LogEntry,
    member: bool,
    done: usize,
) -> bool
    requires { (card_length card.now ≡ true) × (length content.now ≡ 256) × Within place × (place.segment < segments_in card.now) × (fits place (as_entry false e) ≡ true) }
    ensures { result ≡ head_at card.now done (some place) (map_entry (with_body content.now) (as_entry member e)) }
{
    let data_bytes = SLOT * slots_of(e);
    if data_bytes + length_of(e) < done {
        return false;
    }
    let segment = SEGMENT * place.segment;
    let slot = segment + SLOT * place.slots;
    if done <= data_bytes {
        return bytes_stand(card, slot, content, done);
    }
    if !bytes_stand(card, slot, content, data_bytes) {
        return false;
    }
    let s = place.slots as u8;
    let code = [
        entry_byte(e, member, s, 0),
        entry_byte(e, member, s, 1),
        entry_byte(e, member, s, 2),
        entry_byte(e, member, s, 3),
    ];
    bytes_stand(
        card,
        segment + ENTRIES_AT + place.bytes,
        &code,
        done - data_bytes,
    )
}
