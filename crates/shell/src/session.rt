// A script, run as its bytes come.
ghost use Rattle.std.specs.Prelude.{◌≤◌, length as Len};
ghost use Rattle.commands.specs.Ran.{longest_card, Fits};

use crate::line::Line;
use commands::power::cut;
use commands::run::run;
use commands::state::{JOURNAL_DATA, QUEUE_DATA, State, with_card};
use files::message::{Context, Failure};
use files::transfer::{Stream, read_some, settle, write_whole};
use text::line::part;

// From here on what was printed is written before another line runs: no line prints more than 35,000 bytes.
const FULL: usize = 30000;

// What is lent to the commands, with the shell's state, and the line that comes; what was printed, up to a position.
#[derive(Drop)]
struct Session<'a> {
    card: &'a mut [u8],
    queue: [u8; QUEUE_DATA],
    journal: [u8; JOURNAL_DATA],
    state: State,
    line: Line,
    out: [u8; 65536],
    at: usize,
    ghost fits: { Fits card.now state },
}

// Runs the script on standard input on a card of this size: the size of what it leaves.
pub fn run_whole(rt: &HostRuntime, card: &mut [u8], size: usize) -> Result<usize, Failure>
    requires { (longest_card ≤ Len card.old) × (size ≤ Len card.old) }
{
    let mut session = begin(card, size);
    session.run_script(rt)?;
    session.run_last(rt)?;
    Ok(session.state.size)
}

fn begin(card: &mut [u8], size: usize) -> Session<'_>
    requires { (longest_card ≤ Len card.old) × (size ≤ Len card.old) }
{
    let mut queue = [0u8; QUEUE_DATA];
    let mut journal = [0u8; JOURNAL_DATA];
    let rec = cut(&mut queue, &mut journal);
    Session {
        card,
        queue,
        journal,
        state: with_card(rec, size),
        line: Line::new(),
        out: [0; 65536],
        at: 0,
    }
}

impl Session<'_> {
    // All lines but a last one that lacks its end. No proof knows that a script ends, so the turns are counted, up to a number
    // that no script uses up.
    fn run_script(&mut self, rt: &HostRuntime) -> Result<(), Failure> {
        let mut bytes = [0u8; 65536];
        for _ in 0..u64::MAX {
            // What was printed is written before more of the script is asked for.
            self.write(rt)?;
            let read = read_some(&mut rt.stdin(), &mut bytes);
            let count = read.context("not saved: standard input")?;
            if count == 0 {
                break;
            }
            self.run_bytes(rt, &bytes[..count])?;
        }
        Ok(())
    }

    fn run_bytes(&mut self, rt: &HostRuntime, bytes: &[u8]) -> Result<(), Failure> {
        let mut pieces = bytes.split(|byte| *byte == b'\n');
        // The first goes on with the line that has begun.
        if let Some(first) = pieces.next() {
            self.line.push(first);
        }
        for piece in pieces {
            self.run_line(rt)?;
            self.line.push(piece);
        }
        Ok(())
    }

    // A last line may lack its end. A file system may tell only at the end that it lost what was written.
    fn run_last(&mut self, rt: &HostRuntime) -> Result<(), Failure> {
        self.run_line(rt)?;
        self.write(rt)?;
        settle(rt, Stream::Output).context("not saved: standard output")
    }

    fn run_line(&mut self, rt: &HostRuntime) -> Result<(), Failure> {
        let ran = run(
            self.line.bytes(),
            self.card,
            &mut self.queue,
            &mut self.journal,
            self.state,
            &mut self.out,
            self.at,
        );
        self.line.clear();
        self.state = ran.state;
        self.at = ran.at;
        if self.at > FULL {
            self.write(rt)?;
        }
        Ok(())
    }

    fn write(&mut self, rt: &HostRuntime) -> Result<(), Failure> {
        let printed = part(&self.out, 0, self.at);
        write_whole(&mut rt.stdout(), printed).context("not saved: standard output")?;
        self.at = 0;
        Ok(())
    }
}
