// The stores of the queue's head that are done.
ghost use Rattle.std.specs.Prelude.{◌≡◌, true, List, ℕ, ◌≤◌, ◌<◌, length};
ghost use Rattle.card_log.specs.Card.{card_length, segments_in};
ghost use Rattle.card_log.specs.Store.{tail};
ghost use Rattle.card_log.specs.promises.Within.{Within};
ghost use Rattle.disk.specs.Record.{record_in};
ghost use Rattle.disk.specs.Disk.{disk_in, queued};
ghost use Rattle.disk.specs.Sound.{head_standing};

use card_log::head::is_begun;
use card_log::layout::{SEGMENT, SLOT};
use card_log::place::{Home, Place, home_of};
use disk::record::{RECORD, done, head, len, queue_entry};

// Do they stand on the card, `place` being the place behind its log?
pub fn head_stands(card: &[u8], queue_data: &[u8], rec: &[u8; RECORD], place: Place) -> bool
    requires { (card_length card.now ≡ true) × (length queue_data.now ≡ 8192) × ((record_in rec.now).ring.len ≤ 32) × ((record_in rec.now).ring.head < 32) × (place ≡ tail card.now) × Within place × (place.segment < segments_in card.now) }
    ensures { (j : List ℕ) → result ≡ head_standing card.now (record_in rec.now).ring.done (queued (disk_in card.now queue_data.now j rec.now)) }
{
    let stores = done(rec);
    if len(rec) == 0 {
        return stores == 0;
    }
    let at = head(rec);
    let first = queue_entry(rec, at);
    let e = first.entry;
    let data = SLOT * at;
    match home_of(card.len() / SEGMENT, place, e) {
        Home::At(p) => is_begun(
            card,
            &queue_data[data..data + SLOT],
            p,
            e,
            first.member,
            stores,
        ),
        Home::Full => stores == 0,
    }
}
