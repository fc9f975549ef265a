// The content that a table's number names: of the card, of the queue data or of the journal data.
ghost use Rattle.std.specs.Prelude.{◌≡◌, ◌≤◌, length};
ghost use Rattle.card_log.specs.Card.{slot};
ghost use Rattle.card_log.specs.promises.Location.{content_at};

use super::copy::copy_in;
use super::layout::SLOT;
use super::location::{JOURNALS_AT, QUEUE_AT, RACE};

// Locations count from 1.
const QUEUE: usize = QUEUE_AT as usize - 1;

const JOURNALS: usize = JOURNALS_AT as usize - 1;

// The 256 bytes that a number names, which is not 0.
pub fn copy_content(
    card: &[u8],
    queue_data: &[u8],
    journal_data: &[u8],
    number: u16,
    dest: &mut [u8],
)
    requires { (1 ≤ number) × (length (content_at card.now queue_data.now journal_data.now number).body ≡ 256) × (length dest.old ≡ 256) }
    ensures { dest.new ≡ (content_at card.now queue_data.now journal_data.now number).body }
{
    let at = ((number - 1) % RACE) as usize;
    if at < QUEUE {
        copy_slot(card, at, dest);
    } else if at < JOURNALS {
        copy_slot(queue_data, at - QUEUE, dest);
    } else {
        copy_slot(journal_data, at - JOURNALS, dest);
    }
}

// The 256 bytes number k of a buffer.
fn copy_slot(src: &[u8], k: usize, dest: &mut [u8])
    requires { (k ≤ 65535) × (length (slot src.now k) ≡ 256) × (length dest.old ≡ 256) }
    ensures { dest.new ≡ slot src.now k }
{
    let start = SLOT * k;
    let end = start + SLOT;
    copy_in(dest, 0, &src[start..end]);
}
