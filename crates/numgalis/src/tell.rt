// The replies told over the border: a number returned, and the results put where the caller wants them.
ghost use Rattle.std.specs.Prelude.{◌≡◌};
ghost use Rattle.answers.specs.Answers.{number, ending_number, ending_of, reply_answer, mount_answer, number_answer, flush_answer};
ghost use Rattle.numgalis.specs.Border.{told};

use answers::{Ending, FlushReply, MountRefusal, MountReply, NumberReply, Refusal, Reply};

// The endings of a flush, as their numbers: those of the C header, which stay.
pub const DRAINED: usize = 0;

pub const FULL: usize = 1;

pub const SPENT: usize = 2;

#[tactic(auto, unfolding(answers::specs::Answers::ending_number, answers::specs::Answers::ending_of))]
fn ending_number(ending: Ending) -> usize
    ensures { result ≡ ending_number (ending_of ending) }
{
    match ending {
        Ending::Drained => DRAINED,
        Ending::Full => FULL,
        Ending::Spent => SPENT,
    }
}

fn code(x: Refusal) -> usize
    ensures { result ≡ number x }
{
    u64::from(x) as usize
}

#[tactic(auto, unfolding(answers::specs::Answers::reply_answer))]
pub fn tell(reply: Reply) -> usize
    ensures { reply_answer reply ≡ told result 0 0 }
{
    reply.err().map_or(0, code)
}

#[tactic(auto, unfolding(answers::specs::Answers::number_answer))]
pub fn tell_number(reply: NumberReply, value: &mut usize) -> usize
    ensures { number_answer reply ≡ told result value.new 0 }
{
    match reply {
        Ok(n) => {
            *value = n;
            0
        }
        Err(x) => {
            *value = 0;
            code(x)
        }
    }
}

#[tactic(auto, unfolding(answers::specs::Answers::mount_answer, answers::specs::Answers::number))]
pub fn tell_mount(reply: MountReply, segment: &mut usize, entry: &mut usize) -> usize
    ensures { mount_answer reply ≡ told result segment.new entry.new }
{
    *segment = 0;
    *entry = 0;
    match reply {
        Ok(()) => 0,
        Err(
            MountRefusal::Fault {
                segment: g,
                entry: i,
            },
        ) => {
            *segment = g;
            *entry = i;
            code(Refusal::LogFault)
        }
        Err(MountRefusal::Refused(x)) => code(x),
    }
}

#[tactic(auto, unfolding(answers::specs::Answers::flush_answer))]
pub fn tell_flush(reply: FlushReply, stores: &mut usize, ending: &mut usize) -> usize
    ensures { flush_answer reply ≡ told result stores.new ending.new }
{
    match reply {
        Ok(flushed) => {
            *stores = flushed.stores;
            *ending = ending_number(flushed.ending);
            0
        }
        Err(x) => {
            *stores = 0;
            *ending = 0;
            code(x)
        }
    }
}
