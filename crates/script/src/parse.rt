// A line of a script as a command: the rows of the language's table, in order.
ghost use Rattle.std.specs.Prelude.{◌≡◌, None};
ghost use Rattle.std.proofs.Math.Seq.{slice};
ghost use Rattle.script.specs.Arguments.{two_from};
ghost use Rattle.script.specs.Commands.{command_of, is_quiet, last_named, pick, first_rows, middle_rows, card_of, poke_of, write_from, read_from, begin_from, cut_from, lend_from};
ghost use Rattle.script.specs.Commands.{alone as Commands·alone};
ghost use Rattle.script.specs.Commands.{on_stream as Commands·on_stream};
ghost use Rattle.script.specs.Commands.{in_view as Commands·in_view};

use crate::arguments::{
    BLOCK, MOST, is_end, lent_raced, number_lent, one_number, part_lent, three_numbers,
    two_numbers, window,
};
use crate::command::{Command, Cut, Edit, Lend, Look, Print, Request, Tool};
use lists::limits;
use text::decimal::number;
use text::hex::is_hex;
use text::line::word;
use text::word::Word;

// The most bytes of a line.
const LONGEST_LINE: usize = 1023;

// The longest card that can be put in: one segment more than a card may have.
const LONGEST_CARD: u64 = 266240;

const LARGEST_BYTE: u64 = u8::MAX as u64;

// The bytes lent for an inventory and a page where a line does not say how many. The language fixes the page's; the longest page has more.
const LISTS: u64 = limits::LISTS as u64;

const PAGE_LENT: u64 = 820;

// The most that a line can say of a page.
const MOST_PAGE: u64 = 1000;

// `None` where the line is no command of the language.
#[tactic(auto, unfolding(crate::specs::Commands::command_of))]
pub fn command(line: &[u8]) -> Option<Command>
    ensures { result ≡ command_of line.now }
{
    if line.len() > LONGEST_LINE {
        return None;
    }
    if is_quiet(line) {
        return Some(Command::Nothing);
    }
    let w = word(line, 0);
    first_rows(line, w)
        .or_else(|| middle_rows(line, w))
        .or_else(|| last_rows(line, w))
}

// Is the line blank, or does it begin with `#`?
#[tactic(auto, unfolding(crate::specs::Commands::is_quiet))]
fn is_quiet(line: &[u8]) -> bool
    ensures { result ≡ is_quiet line.now }
{
    line.starts_with(b"#") || is_end(line, 0)
}

// The command that the name and the words behind it make, if a row has the name. No name stands in two groups of rows, so each group is asked where
// those before answer nothing.
#[tactic(auto, using(crate::proofs::Words::words), unfolding(crate::specs::Commands::first_rows, crate::specs::Commands::pick, crate::specs::Spelling::bytes))]
fn first_rows(line: &[u8], w: Word) -> Option<Command>
    ensures { result ≡ pick (slice w.start w.end line.now) (first_rows line.now w.end) None }
{
    let at = w.end;
    match w.text(line) {
        b"card" => card(line, at),
        b"format" => alone(line, at, Command::Call(Request::Format)),
        b"mount" => alone(line, at, Command::Call(Request::Mount)),
        b"begin" => begin(line, at),
        b"end" => one_number(line, at).map(|unit| Command::Call(Request::End { unit })),
        b"newlist" => one_number(line, at).map(|stream| on_stream(stream, Edit::NewList)),
        b"newblock" => three_numbers(line, at).map(|(stream, list, predecessor)| {
            on_stream(stream, Edit::NewBlock { list, predecessor })
        }),
        _ => None,
    }
}

#[tactic(auto, using(crate::proofs::Words::words), unfolding(crate::specs::Commands::middle_rows, crate::specs::Commands::pick, crate::specs::Spelling::bytes))]
fn middle_rows(line: &[u8], w: Word) -> Option<Command>
    ensures { result ≡ pick (slice w.start w.end line.now) (middle_rows line.now w.end) None }
{
    let at = w.end;
    match w.text(line) {
        b"write" => write(line, at),
        b"read" => read(line, at),
        b"delblock" => two_numbers(line, at).map(|(stream, block)| {
            on_stream(stream, Edit::DeleteBlock { block })
        }),
        b"dellist" => two_numbers(line, at).map(|(stream, list)| {
            on_stream(stream, Edit::DeleteList { list })
        }),
        b"flush" => one_number(line, at).map(|allowance| {
            Command::Call(Request::Flush { allowance })
        }),
        b"next" => three_numbers(line, at).map(|(view, list, predecessor)| {
            in_view(view, Look::Next { list, predecessor })
        }),
        b"conflicts" => window(line, at).map(|window| Command::Call(Request::Conflicts { window })),
        _ => None,
    }
}

#[tactic(auto, using(crate::proofs::Words::words), unfolding(crate::specs::Commands::last_named, crate::specs::Commands::last_rows, crate::specs::Commands::pick, crate::specs::Spelling::bytes))]
fn last_rows(line: &[u8], w: Word) -> Option<Command>
    ensures { result ≡ last_named line.now w.start w.end }
{
    let at = w.end;
    match w.text(line) {
        b"inventory" => number_lent(line, at, LISTS, MOST).map(|(view, lent)| {
            in_view(view, Look::Inventory { lent })
        }),
        b"page" => number_lent(line, at, PAGE_LENT, MOST_PAGE).map(|(view, lent)| {
            in_view(view, Look::Page { lent })
        }),
        b"cut" => cut(line, at),
        b"poke" => poke(line, at),
        b"lend" => lend(line, at),
        b"sum" => alone(line, at, Command::Tool(Tool::Print(Print::Sum))),
        b"list" => alone(line, at, Command::Tool(Tool::Print(Print::Listing))),
        b"show" => one_number(line, at).map(|view| {
            Command::Tool(Tool::Print(Print::Show { view }))
        }),
        _ => None,
    }
}

// A command without further words.
#[tactic(auto, unfolding(crate::specs::Commands::alone))]
fn alone(line: &[u8], from: usize, c: Command) -> Option<Command>
    ensures { result ≡ Commands·alone line.now from c }
{
    if is_end(line, from) { Some(c) } else { None }
}

fn on_stream(stream: u64, edit: Edit) -> Command
    ensures { result ≡ Commands·on_stream stream edit }
{
    Command::Call(Request::Edit { stream, edit })
}

fn in_view(view: u64, look: Look) -> Command
    ensures { result ≡ Commands·in_view view look }
{
    Command::Call(Request::Look { view, look })
}

fn card(line: &[u8], from: usize) -> Option<Command>
    ensures { result ≡ card_of (two_from line.now from) }
{
    let (length, byte) = two_numbers(line, from)?;
    if length > LONGEST_CARD || byte > LARGEST_BYTE {
        return None;
    }
    Some(Command::Tool(Tool::Card { length, byte }))
}

fn poke(line: &[u8], from: usize) -> Option<Command>
    ensures { result ≡ poke_of (two_from line.now from) }
{
    let (at, byte) = two_numbers(line, from)?;
    if byte > LARGEST_BYTE {
        return None;
    }
    Some(Command::Tool(Tool::Poke { at, byte }))
}

#[tactic(auto, unfolding(crate::specs::Commands::write_from))]
fn write(line: &[u8], from: usize) -> Option<Command>
    ensures { result ≡ write_from line.now from }
{
    let s = word(line, from);
    let b = word(line, s.end);
    let digits = word(line, b.end);
    if !is_hex(digits.text(line)) {
        return None;
    }
    let stream = number(s.text(line))?;
    let block = number(b.text(line))?;
    let (lent, race) = lent_raced(line, digits.end)?;
    let edit = Edit::Write {
        block,
        lent,
        race,
        digits,
    };
    Some(on_stream(stream, edit))
}

#[tactic(auto, unfolding(crate::specs::Commands::read_from))]
fn read(line: &[u8], from: usize) -> Option<Command>
    ensures { result ≡ read_from line.now from }
{
    let v = word(line, from);
    let b = word(line, v.end);
    let view = number(v.text(line))?;
    let block = number(b.text(line))?;
    let lent = part_lent(line, b.end, BLOCK, MOST)?;
    Some(in_view(view, Look::Read { block, lent }))
}

#[tactic(auto, unfolding(crate::specs::Commands::begin_from))]
fn begin(line: &[u8], from: usize) -> Option<Command>
    ensures { result ≡ begin_from line.now from }
{
    let u = word(line, from);
    let unit = number(u.text(line))?;
    let window = window(line, u.end)?;
    Some(Command::Call(Request::Begin { unit, window }))
}

#[tactic(auto, using(crate::proofs::Words::words), unfolding(crate::specs::Commands::cut_from, crate::specs::Commands::cut_named, crate::specs::Commands::cut_rows, crate::specs::Commands::pick, crate::specs::Spelling::bytes))]
fn cut(line: &[u8], from: usize) -> Option<Command>
    ensures { result ≡ cut_from line.now from }
{
    if is_end(line, from) {
        return Some(Command::Tool(Tool::Cut(Cut::Between)));
    }
    let call = word(line, from);
    match call.text(line) {
        b"flush" => two_numbers(line, call.end).map(|(allowance, stores)| {
            Command::Tool(Tool::Cut(Cut::Flush { allowance, stores }))
        }),
        b"format" => one_number(line, call.end).map(|stores| {
            Command::Tool(Tool::Cut(Cut::Format { stores }))
        }),
        _ => None,
    }
}

#[tactic(auto, using(crate::proofs::Words::words), unfolding(crate::specs::Commands::lend_from, crate::specs::Commands::lend_named, crate::specs::Commands::lend_rows, crate::specs::Commands::pick, crate::specs::Spelling::bytes))]
fn lend(line: &[u8], from: usize) -> Option<Command>
    ensures { result ≡ lend_from line.now from }
{
    let what = word(line, from);
    let at = what.end;
    match what.text(line) {
        b"card" => one_number(line, at).map(|most| Command::Tool(Tool::Lend(Lend::Card { most }))),
        b"queue" => one_number(line, at).map(|most| {
            Command::Tool(Tool::Lend(Lend::Queue { most }))
        }),
        b"journal" => one_number(line, at).map(|most| {
            Command::Tool(Tool::Lend(Lend::Journal { most }))
        }),
        b"all" => alone(line, at, Command::Tool(Tool::Lend(Lend::All))),
        _ => None,
    }
}
