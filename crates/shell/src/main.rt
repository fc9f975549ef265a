// Runs a script of calls on a card: `shell PATH < SCRIPT`.
#![tactic(auto)]

mod line;
mod session;

ghost use Rattle.std.specs.Prelude.{◌≤◌};

use crate::session::run_whole;
use commands::state::LONGEST_CARD;
use files::arguments::{is_help, is_option};
use files::found::{find, load};
use files::message::{Failure, print, put_message};
use files::path::PATH_MAX;
use files::save::save;
use files::status::resolve;
use files::transfer::Stream;
use std::env::{Env, FillError};
use std::fs::Metadata;
use std::io;
use text::line::part;

// The longest card, and one byte more, which tells a longer one.
const CARD: usize = LONGEST_CARD + 1;

// The system's number for a path that is too long.
const TOO_LONG: i32 = 36;

fn main(rt: HostRuntime) {
    let mut word = [0u8; PATH_MAX];
    let got = rt.arg(1, &mut word);
    if has_second(&rt) {
        usage(&rt, Stream::Error);
        return;
    }
    match got {
        Ok(length) => start(&rt, part(&word, 0, length)),
        Err(FillError::NotPresent) => usage(&rt, Stream::Error),
        Err(FillError::TooLong) => fail_long(&rt, &word),
    }
}

// Is there an argument behind the path?
fn has_second(rt: &HostRuntime) -> bool {
    !matches!(rt.arg(2, &mut [0; 1]), Err(FillError::NotPresent))
}

// Too long an argument is named by what of it there is room for.
fn fail_long(rt: &HostRuntime, word: &[u8]) {
    let mut who = [0u8; 65536];
    let n = put_message(&mut who, b"shell", word);
    let error = io::Error::from_raw_os_error(TOO_LONG);
    Failure::of("not read", error).tell(rt, part(&who, 0, n));
}

fn usage(rt: &HostRuntime, to: Stream) {
    print(
        rt,
        b"shell: standard output",
        to,
        b"usage: shell PATH < SCRIPT\n",
    );
}

fn start(rt: &HostRuntime, word: &[u8]) {
    if is_help(word) {
        usage(rt, Stream::Output);
    } else if is_option(word) {
        usage(rt, Stream::Error);
    } else {
        let mut who = [0u8; 65536];
        let n = put_message(&mut who, b"shell", word);
        let who = part(&who, 0, n);
        if let Err(failure) = edit(rt, who, word) {
            failure.tell(rt, who);
        }
    }
}

// A link stays: the file behind it is read and replaced.
fn edit(rt: &HostRuntime, who: &[u8], path: &[u8]) -> Result<(), Failure> {
    let resolved = resolve(rt, path);
    let target = resolved.bytes();
    let found = find(rt, path, target)?;
    let mut card = [0u8; CARD];
    let size = load(rt, target, found.as_ref(), &mut card)?;
    if size > LONGEST_CARD {
        print(rt, b"shell: standard output", Stream::Output, b"too long\n");
        return Err(Failure::refusal("not read: longer than 266,240 bytes"));
    }
    play(rt, who, target, found.as_ref(), &mut card, size)
}

// The script runs on a card that was read whole. What it leaves is kept, unless standard input or output failed; a card that is as
// it was read is not written.
fn play(
    rt: &HostRuntime,
    who: &[u8],
    target: &[u8],
    found: Option<&Metadata>,
    card: &mut [u8; CARD],
    size: usize,
) -> Result<(), Failure>
    requires { size ≤ 266240 }
{
    let before = *card;
    let left = run_whole(rt, card, size)?;
    let after = part(card, 0, left);
    if after != part(&before, 0, size) {
        save(rt, who, target, found, after);
    }
    Ok(())
}
