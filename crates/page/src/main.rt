// Reads a card on standard input and prints the page of its persistent state: `page < CARD`.
#![tactic(auto)]

use card_log::layout::SEGMENT;
use card_log::mount::SEGMENTS;
use files::input::{Names, run};
use listing::page::{PAGE, card_page};

const NAMES: Names = Names {
    input: b"page: standard input",
    output: b"page: standard output",
    usage: b"usage: page < CARD\n",
};

// The longest card, and one byte more, which tells a longer one.
const LENGTH: usize = SEGMENTS * SEGMENT + 1;

fn main(rt: HostRuntime) {
    let mut card = [0u8; LENGTH];
    let mut lines = [0u8; PAGE];
    run(&rt, &NAMES, &mut card, &mut lines, |bytes, lines| {
        card_page(bytes, lines, 0)
    });
}
