// The lines that say what a call replied.
ghost use Rattle.std.specs.Prelude.{◌≡◌};
ghost use Rattle.text.specs.Written.{Puts};
ghost use Rattle.answers.specs.Answers.{reply_answer, number_answer, read_answer, mount_answer, flush_answer, ending_of, ending_number};
ghost use Rattle.script.specs.Lines.{answer_line, numbered_line, mount_line, flush_line, ended_line, ending_name, read_line, content_line, inventory_line, counted_line, length_and_text, page_reply};

use crate::lines::{put_number, put_numbers, put_pair, put_raced, put_spaced, put_triple};
use answers::{Ending, FlushReply, MountRefusal, MountReply, NumberReply, ReadReply, Reply};
use text::decimal::put_decimal;
use text::line::part;
use text::put::{put_byte, put_bytes};

// `A`
#[tactic(auto, unfolding(answers::specs::Answers::reply_answer))]
pub fn put_answer(out: &mut [u8], at: usize, reply: Reply) -> usize
    ensures { Puts out.old at (answer_line (reply_answer reply)) out.new result }
{
    match reply {
        Ok(()) => put_number(out, at, 0),
        Err(x) => put_number(out, at, u64::from(x)),
    }
}

// `A N`
#[tactic(auto, unfolding(answers::specs::Answers::number_answer))]
pub fn put_numbered(out: &mut [u8], at: usize, reply: NumberReply) -> usize
    ensures { Puts out.old at (numbered_line (number_answer reply)) out.new result }
{
    match reply {
        Ok(n) => put_pair(out, at, 0, n as u64),
        Err(x) => put_pair(out, at, u64::from(x), 0),
    }
}

// `A SEGMENT ENTRY`
#[tactic(auto, unfolding(answers::specs::Answers::mount_answer))]
pub fn put_mounted(out: &mut [u8], at: usize, reply: MountReply) -> usize
    ensures { Puts out.old at (mount_line (mount_answer reply)) out.new result }
{
    match reply {
        Ok(()) => put_triple(out, at, 0, 0, 0),
        Err(MountRefusal::Fault { segment, entry }) => {
            put_triple(out, at, 2, segment as u64, entry as u64)
        }
        Err(MountRefusal::Refused(x)) => put_triple(out, at, u64::from(x), 0, 0),
    }
}

// `A STORES ENDING`
#[tactic(auto, using(crate::proofs::Refused::refused_code), unfolding(answers::specs::Answers::flush_answer, crate::specs::Lines::flush_line, crate::specs::Spelling::bytes))]
pub fn put_flushed(out: &mut [u8], at: usize, reply: FlushReply) -> usize
    ensures { Puts out.old at (flush_line (flush_answer reply)) out.new result }
{
    match reply {
        Ok(f) => put_ended(out, at, 0, f.stores as u64, name(f.ending)),
        Err(x) => put_ended(out, at, u64::from(x), 0, b"-"),
    }
}

#[tactic(auto, unfolding(answers::specs::Answers::ending_of, answers::specs::Answers::ending_number, crate::specs::Lines::ending_name, crate::specs::Spelling::bytes))]
fn name(ending: Ending) -> &'static [u8]
    ensures { result.now ≡ ending_name (ending_number (ending_of ending)) }
{
    match ending {
        Ending::Drained => b"drained",
        Ending::Full => b"full",
        Ending::Spent => b"spent",
    }
}

fn put_ended(out: &mut [u8], at: usize, a: u64, stores: u64, ending: &[u8]) -> usize
    ensures { Puts out.old at (ended_line a stores ending.now) out.new result }
{
    let mut position = put_decimal(out, at, a);
    position = put_spaced(out, position, stores);
    position = put_byte(out, position, b' ');
    position = put_bytes(out, position, ending);
    put_byte(out, position, b'\n')
}

// `A HEX race R`, refused: `A`
#[tactic(auto, using(crate::proofs::Refused::refused_code), unfolding(answers::specs::Answers::read_answer, crate::specs::Lines::read_line))]
pub fn put_read(out: &mut [u8], at: usize, reply: ReadReply, content: &[u8]) -> usize
    ensures { Puts out.old at (read_line (read_answer reply) content.now) out.new result }
{
    match reply {
        Ok(race) => put_content(out, at, content, race),
        Err(x) => put_number(out, at, u64::from(x)),
    }
}

fn put_content(out: &mut [u8], at: usize, content: &[u8], race: u8) -> usize
    ensures { Puts out.old at (content_line content.now race) out.new result }
{
    let mut position = put_bytes(out, at, b"0 ");
    position = put_raced(out, position, content, race);
    put_byte(out, position, b'\n')
}

// `A COUNT L L ..`: so many of the lists stand in the lent bytes.
#[tactic(auto, using(crate::proofs::Refused::refused_code), unfolding(answers::specs::Answers::number_answer, crate::specs::Lines::inventory_line))]
pub fn put_inventory(out: &mut [u8], at: usize, reply: NumberReply, lists: &[u8]) -> usize
    ensures { Puts out.old at (inventory_line (number_answer reply) lists.now) out.new result }
{
    match reply {
        Ok(n) => put_counted(out, at, n as u64, part(lists, 0, n)),
        Err(x) => put_pair(out, at, u64::from(x), 0),
    }
}

fn put_counted(out: &mut [u8], at: usize, n: u64, lists: &[u8]) -> usize
    ensures { Puts out.old at (counted_line n lists.now) out.new result }
{
    let mut position = put_bytes(out, at, b"0");
    position = put_spaced(out, position, n);
    position = put_numbers(out, position, lists);
    put_byte(out, position, b'\n')
}

// `A LEN` and the page, which is so many bytes of the buffer.
#[tactic(auto, using(crate::proofs::Refused::refused_code), unfolding(answers::specs::Answers::number_answer, crate::specs::Lines::page_reply))]
pub fn put_page(out: &mut [u8], at: usize, reply: NumberReply, buffer: &[u8]) -> usize
    ensures { Puts out.old at (page_reply (number_answer reply) buffer.now) out.new result }
{
    match reply {
        Ok(n) => put_text(out, at, n as u64, part(buffer, 0, n)),
        Err(x) => put_pair(out, at, u64::from(x), 0),
    }
}

fn put_text(out: &mut [u8], at: usize, n: u64, text: &[u8]) -> usize
    ensures { Puts out.old at (length_and_text n text.now) out.new result }
{
    let position = put_pair(out, at, 0, n);
    put_bytes(out, position, text)
}
