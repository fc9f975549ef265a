// One line of a script, run.
ghost use Rattle.std.specs.Prelude.{◌≡◌, List, ◌++◌, ℕ, min, ◌≤◌, length as Len, drop, replicate};
ghost use Rattle.text.specs.Written.{Puts};
ghost use Rattle.script.specs.Commands.{command_of};
ghost use Rattle.commands.specs.Shell.{shell_of};
ghost use Rattle.commands.specs.Ran.{poked, lending, cutting, printing, worked, longest_card, ran, Fits, Runs};

use crate::call::call;
use crate::cutting::{broken_flush, broken_format, cut_short};
use crate::power::cut;
use crate::show::show;
use crate::state::{JOURNAL_DATA, LONGEST_CARD, QUEUE_DATA, Ran, State, with_card};
use crate::view::View;
use script::command::{Command, Cut, Lend, Print, Tool};
use script::lines::put_number;
use script::parse::command;
use text::adler::adler32;
use text::line::part;
use text::put::put_bytes;

pub fn run(
    line: &[u8],
    card: &mut [u8],
    queue: &mut [u8],
    journal: &mut [u8],
    state: State,
    out: &mut [u8],
    at: usize,
) -> Ran
    requires { Fits card.old state }
    ensures { Runs (ran line.now (command_of line.now) (shell_of card.old queue.old journal.old state)) card.old out.old at card.new queue.new journal.new out.new result }
{
    let Some(asked) = command(line) else {
        return said(state, out, at, b"?\n");
    };
    match asked {
        Command::Nothing => Ran { state, at },
        Command::Call(q) => {
            // A call sees only what is lent.
            let n = state.card.min(state.size);
            let m = state.queue.min(queue.len());
            let k = state.journal.min(journal.len());
            let mut rec = state.rec;
            let next = call(
                q,
                line,
                &mut card[..n],
                &mut queue[..m],
                &mut journal[..k],
                &mut rec,
                out,
                at,
            );
            Ran {
                state: State { rec, ..state },
                at: next,
            }
        }
        Command::Tool(t) => work(t, card, queue, journal, state, out, at),
    }
}

// The shell's own commands.
fn work(
    tool: Tool,
    card: &mut [u8],
    queue: &mut [u8],
    journal: &mut [u8],
    state: State,
    out: &mut [u8],
    at: usize,
) -> Ran
    requires { Fits card.old state }
    ensures { Runs (worked tool (shell_of card.old queue.old journal.old state)) card.old out.old at card.new queue.new journal.new out.new result }
{
    match tool {
        Tool::Card { length, byte } => {
            let n = refill(card, length as usize, (byte % 256) as u8);
            let rec = cut(queue, journal);
            said(with_card(rec, n), out, at, b"ok\n")
        }
        Tool::Poke { at: place, byte } => poke(card, state, place as usize, byte, out, at),
        Tool::Cut(x) => cut_power(x, card, queue, journal, state, out, at),
        Tool::Lend(l) => said(lend(l, state), out, at, b"ok\n"),
        Tool::Print(p) => {
            let next = print(p, card, queue, journal, state, out, at);
            Ran { state, at: next }
        }
    }
}

fn cut_power(
    x: Cut,
    card: &mut [u8],
    queue: &mut [u8],
    journal: &mut [u8],
    state: State,
    out: &mut [u8],
    at: usize,
) -> Ran
    requires { Fits card.old state }
    ensures { Runs (cutting x (shell_of card.old queue.old journal.old state)) card.old out.old at card.new queue.new journal.new out.new result }
{
    match x {
        Cut::Between => {
            let rec = cut(queue, journal);
            said(State { rec, ..state }, out, at, b"cut\n")
        }
        Cut::Flush { allowance, stores } => {
            let n = state.card.min(state.size);
            let mut rec = state.rec;
            let broken = broken_flush(
                &mut card[..n],
                part(queue, 0, state.queue),
                part(journal, 0, state.journal),
                &mut rec,
                allowance as usize,
                stores as usize,
            );
            cut_short(broken, queue, journal, state, out, at)
        }
        Cut::Format { stores } => {
            let n = state.card.min(state.size);
            let broken = broken_format(
                &mut card[..n],
                part(queue, 0, state.queue),
                part(journal, 0, state.journal),
                stores as usize,
            );
            cut_short(broken, queue, journal, state, out, at)
        }
    }
}

// How much is lent from now on.
fn lend(l: Lend, state: State) -> State
    ensures { (result.size ≡ state.size) × ((card queue journal : List ℕ) → Fits card state → shell_of card queue journal result ≡ lending l (shell_of card queue journal state)) }
{
    match l {
        Lend::Card { most } => State {
            card: (most as usize).min(state.size),
            ..state
        },
        Lend::Queue { most } => State {
            queue: (most as usize).min(QUEUE_DATA),
            ..state
        },
        Lend::Journal { most } => State {
            journal: (most as usize).min(JOURNAL_DATA),
            ..state
        },
        Lend::All => with_card(state.rec, state.size),
    }
}

fn print(
    p: Print,
    card: &[u8],
    queue: &[u8],
    journal: &[u8],
    state: State,
    out: &mut [u8],
    at: usize,
) -> usize
    ensures { Puts out.old at (printing p (shell_of card.now queue.now journal.now state)) out.new result }
{
    match p {
        Print::Sum => {
            let sum = adler32(part(card, 0, state.size));
            put_number(out, at, sum as u64)
        }
        Print::Listing => listing::listing(part(card, 0, state.size), out, at),
        Print::Show { view } => {
            let rec = state.rec;
            let v = View {
                card: part(card, 0, state.card.min(state.size)),
                queue: part(queue, 0, state.queue),
                journal: part(journal, 0, state.journal),
                rec: &rec,
                number: view as usize,
            };
            show(v, out, at)
        }
    }
}

// The length of what is filled.
fn refill(card: &mut [u8], length: usize, byte: u8) -> usize
    requires { longest_card ≤ Len card.old }
    ensures { (result ≡ min length longest_card) × (card.new ≡ replicate result byte ++ drop result card.old) }
{
    let n = length.min(LONGEST_CARD);
    card[..n].fill(byte);
    n
}

// Someone else writes a byte of the card.
fn poke(card: &mut [u8], state: State, place: usize, byte: u64, out: &mut [u8], at: usize) -> Ran
    requires { Fits card.old state }
    ensures { (queue journal : List ℕ) → Runs (poked place byte (shell_of card.old queue journal state)) card.old out.old at card.new queue journal out.new result }
{
    if place < state.size {
        card[place] = (byte % 256) as u8;
        said(state, out, at, b"ok\n")
    } else {
        said(state, out, at, b"?\n")
    }
}

fn said(state: State, out: &mut [u8], at: usize, words: &[u8]) -> Ran
    ensures { (result.state ≡ state) × Puts out.old at words.now out.new result.at }
{
    let next = put_bytes(out, at, words);
    Ran { state, at: next }
}
