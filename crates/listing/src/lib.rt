// The text that the lister prints for a card, and the printed page of one, put into a lent buffer from a position on.
#![tactic(auto)]

mod block_lines;
mod blocks;
mod head_line;
mod list_lines;
pub mod page;
mod page_line;
mod read;
mod state_lines;
mod taken;

ghost use Rattle.text.specs.Written.{Puts};
ghost use Rattle.listing.specs.Listing.{listing as Listing·listing};

use crate::read::read;
use crate::state_lines::{put_refusal, put_state};

// The most segments that are listed.
const SEGMENTS: usize = 16;

// The position after the text is returned; one past the buffer's end says that it did not fit.
pub fn listing(card: &[u8], out: &mut [u8], at: usize) -> usize
    ensures { Puts out.old at (Listing·listing card.now) out.new result }
{
    let mut nodes = [0u8; 1280];
    match read(card, SEGMENTS, &mut nodes) {
        Ok(()) => put_state(out, at, card, &nodes),
        Err(refusal) => put_refusal(out, at, refusal),
    }
}
