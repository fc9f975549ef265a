// Reads a card on standard input and prints what is on it: `lister < CARD`.
#![tactic(auto)]

use files::input::{Names, run};

const NAMES: Names = Names {
    input: b"lister: standard input",
    output: b"lister: standard output",
    usage: b"usage: lister < CARD\n",
};

fn main(rt: HostRuntime) {
    // The longest card that is listed, and one byte more, which tells a longer one.
    let mut card = [0u8; 65537];
    // The longest text, of 16 lists and 64 blocks, has fewer than 1,400 bytes.
    let mut lines = [0u8; 4096];
    run(&rt, &NAMES, &mut card, &mut lines, |bytes, lines| {
        listing::listing(bytes, lines, 0)
    });
}
