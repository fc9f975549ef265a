// The stores that a formatting would make.
ghost use Rattle.std.specs.Prelude.{◌≡◌, ◌≤◌, length, take};
ghost use Rattle.card_log.specs.Store.{format_stores};
ghost use Rattle.disk.specs.Call.{format};
ghost use Rattle.answers.specs.Answers.{number_answer};
ghost use Rattle.driver.specs.Stores.{Lists};
ghost use Rattle.driver.specs.promises.Listing.{listed};

use super::word::joined;
use answers::{NumberReply, Refusal, ask};
use card_log::layout::{COUNT_AT, SEGMENT};
use disk::record::RECORD;
use inspect::lengths::lengths_right;

// 0 in each count byte, the last segment's first, as words; how many there are.
fn list_counts(segments: usize, stores: &mut [u32]) -> usize
    requires { segments ≤ 64 }
    ensures { listed 0 (take (length stores.old) (format_stores segments)) stores.old ≡ (result, stores.new) }
{
    let most = segments.min(stores.len());
    for at in 0..most {
        stores[at] = joined(SEGMENT * (segments - at - 1) + COUNT_AT, 0);
    }
    most
}

// The stores that a formatting would make, as words, in order; how many there are, at most as many as fit. The record is lent as to the call, and is
// not looked at.
// Questions: 1 lengths.
pub fn format_stores(
    card: &[u8],
    queue_data: &[u8],
    journal_data: &[u8],
    rec: &[u8; RECORD],
    stores: &mut [u32],
) -> NumberReply
    ensures { Lists format card.now queue_data.now journal_data.now rec.now stores.old stores.new (number_answer result) }
{
    ask(
        lengths_right(card, queue_data, journal_data),
        Refusal::WrongLength,
    )?;
    Ok(list_counts(card.len() / SEGMENT, stores))
}
