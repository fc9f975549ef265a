// What was not done, and messages of it on standard error: `WHO: WHAT`, and the error's text where a call failed. WHO is the
// program and the file, `PROGRAM: NAME`.
ghost use Rattle.std.specs.Prelude.{◌≡◌, ◌↔◌, Some, None, IsSome, Ok, IsOk, IsErrAnd, MatchResult};
ghost use Rattle.text.specs.Written.{Puts};
ghost use Rattle.files.specs.Message.{message};

use crate::transfer::{Stream, write_last, write_whole};
use std::io;
use std::io::{Cursor, Write};
use text::line::part;
use text::put::{put_byte, put_bytes};

// What was not done, and the error where a call failed.
#[derive(Clone, Copy)]
pub struct Failure {
    what: &'static str,
    error: Option<io::Error>,
}

impl Failure {
    // A call failed.
    pub fn of(what: &'static str, error: io::Error) -> Failure
        ensures { result.error ≡ Some error }
    {
        Failure {
            what,
            error: Some(error),
        }
    }

    // Something is refused for what it is.
    pub fn refusal(what: &'static str) -> Failure
        ensures { result.error ≡ None }
    {
        Failure { what, error: None }
    }

    // A message that is lost cannot be told of.
    pub fn tell(self, rt: &HostRuntime, who: &[u8]) {
        let mut line = [0u8; 65536];
        let mut at = put_message(&mut line, who, self.what.as_bytes());
        if let Some(error) = self.error {
            at = put_bytes(&mut line, at, b": ");
            at = put_reason(&mut line, at, error);
        }
        at = put_byte(&mut line, at, b'\n');
        let _ = write_whole(&mut rt.stderr(), part(&line, 0, at));
    }
}

pub trait Context<T> {
    // What a call gave, or what was not done.
    fn context(self, what: &'static str) -> Result<T, Failure>;
}

impl<T> Context<T> for io::Result<T> {
    fn context(self, what: &'static str) -> Result<T, Failure>
        ensures { MatchResult self (λ given. result ≡ Ok given) (λ error. IsErrAnd result (λ failure. failure.error ≡ Some error)) }
    {
        self.map_err(|error| Failure::of(what, error))
    }
}

// What was given. Where something was not done, that is told.
pub fn told<T: Drop>(rt: &HostRuntime, who: &[u8], done: Result<T, Failure>) -> Option<T>
    ensures { IsSome result ↔ IsOk done }
{
    match done {
        Ok(given) => Some(given),
        Err(failure) => {
            failure.tell(rt, who);
            None
        }
    }
}

// By `put_bytes`: WHO need not be text, and `write!` puts nothing else.
pub fn put_message(out: &mut [u8], who: &[u8], what: &[u8]) -> usize
    ensures { Puts out.old 0 (message who.now what.now) out.new result }
{
    let mut at = put_bytes(out, 0, who);
    at = put_bytes(out, at, b": ");
    put_bytes(out, at, what)
}

// The system's text for an error, as C has it: std puts the number behind it, in parentheses.
fn put_reason(out: &mut [u8], at: usize, error: io::Error) -> usize {
    let mut text = Cursor::new([0u8; 256]);
    let _ = write!(text, "{error}");
    let end = text.position() as usize;
    let text = part(text.get_ref(), 0, end);
    match error.raw_os_error() {
        Some(_) => put_bytes(out, at, before_number(text)),
        None => put_bytes(out, at, text),
    }
}

// What stands before the blank before the last parenthesis.
fn before_number(text: &[u8]) -> &[u8] {
    match text.iter().rposition(|byte| *byte == b'(') {
        Some(n) => part(text, 0, n.saturating_sub(1)),
        None => text,
    }
}

// The last text that goes to standard output, or to standard error. Where it is lost, that is told.
pub fn print(rt: &HostRuntime, who: &[u8], to: Stream, text: &[u8]) {
    told(rt, who, write_last(rt, to, text).context("not written"));
}
