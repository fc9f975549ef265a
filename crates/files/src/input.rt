// Programs that take no argument, and print a text that they make of standard input.
ghost use Rattle.std.specs.Prelude.{length};
ghost use Rattle.files.specs.Within.{InBuffer};

use crate::arguments::is_help;
use crate::message::{Context, Failure, print, told};
use crate::path::PATH_MAX;
use crate::transfer::{Stream, read_whole};
use std::env::{Env, FillError};
use text::line::part;

// What a program calls its standard input and output, and its usage.
#[derive(Clone, Copy)]
pub struct Names {
    pub input: &'static [u8],
    pub output: &'static [u8],
    pub usage: &'static [u8],
}

// With an argument the usage is printed, on standard output where the argument asks for help.
pub fn run<F>(rt: &HostRuntime, names: &Names, buffer: &mut [u8], text: &mut [u8], put: F)
where
    F: FnOnce(&[u8], &mut [u8]) -> usize,
    requires { F.IsAlwaysCallable put }
{
    let mut word = [0u8; PATH_MAX];
    match rt.arg(1, &mut word) {
        Err(FillError::NotPresent) => print_text(rt, names, buffer, text, put),
        Ok(n) if is_help(part(&word, 0, n)) => {
            print(rt, names.output, Stream::Output, names.usage);
        }
        _ => print(rt, names.output, Stream::Error, names.usage),
    }
}

// `put` makes the text in its buffer, of what was read, and gives its length.
fn print_text<F>(rt: &HostRuntime, names: &Names, buffer: &mut [u8], text: &mut [u8], put: F)
where
    F: FnOnce(&[u8], &mut [u8]) -> usize,
    requires { F.IsAlwaysCallable put }
{
    if let Some(size) = told(rt, names.input, read_input(rt, buffer)) {
        let length = put(part(buffer, 0, size), text);
        print(rt, names.output, Stream::Output, part(text, 0, length));
    }
}

// Standard input up to its end, or to that of the buffer.
pub fn read_input(rt: &HostRuntime, buffer: &mut [u8]) -> Result<usize, Failure>
    ensures { InBuffer result (length buffer.old) }
{
    read_whole(&mut rt.stdin(), buffer).context("not read")
}
