// A flush or a formatting that a power cut breaks off.
ghost use Rattle.std.specs.Prelude.{◌≡◌};
ghost use Rattle.disk.specs.Record.{Record};
ghost use Rattle.disk.specs.Disk.{disk, disk_in};
ghost use Rattle.commands.specs.Cut.{cut_allowance, broken_flush, broken_format, Breaks, Loses};

use crate::power::cut;
use crate::state::{Ran, State};
use answers::Refusal;
use calls::flush::ALLOWANCE;
use card_log::layout::SEGMENT;
use card_log::store::format_stores;
use disk::record::RECORD;
use inspect::lengths::lengths_right;
use script::lines::{put_cut, put_number};

// How many stores were made, or why none was.
pub fn broken_flush(
    card: &mut [u8],
    queue: &[u8],
    journal: &[u8],
    rec: &mut [u8; RECORD],
    allowance: usize,
    stores: usize,
) -> Result<usize, Refusal>
    ensures { Breaks (broken_flush allowance stores (disk_in card.old queue.now journal.now rec.old)) card.old card.new result }
{
    let allowance = cut_allowance(allowance, stores);
    let flushed = calls::flush::flush(card, queue, journal, rec, allowance)?;
    Ok(flushed.stores)
}

// A cut after so many stores leaves what a smaller allowance leaves; an allowance out of range stays so.
fn cut_allowance(allowance: usize, stores: usize) -> usize
    ensures { result ≡ cut_allowance allowance stores }
{
    if allowance <= ALLOWANCE {
        allowance.min(stores)
    } else {
        allowance
    }
}

// Formatting asks the lengths only.
pub fn broken_format(
    card: &mut [u8],
    queue: &[u8],
    journal: &[u8],
    stores: usize,
) -> Result<usize, Refusal>
    ensures { (rec : Record) → Breaks (broken_format stores (disk card.old queue.now journal.now rec)) card.old card.new result }
{
    if !lengths_right(card, queue, journal) {
        return Err(Refusal::WrongLength);
    }
    let made = stores.min(card.len() / SEGMENT);
    format_stores(card, stores);
    Ok(made)
}

// Refused, there is no cut.
pub fn cut_short(
    broken: Result<usize, Refusal>,
    queue: &mut [u8],
    journal: &mut [u8],
    state: State,
    out: &mut [u8],
    at: usize,
) -> Ran
    ensures { Loses broken queue.old journal.old state out.old at queue.new journal.new out.new result }
{
    match broken {
        Ok(k) => {
            let rec = cut(queue, journal);
            let next = put_cut(out, at, k as u64);
            Ran {
                state: State { rec, ..state },
                at: next,
            }
        }
        Err(x) => {
            let next = put_number(out, at, x.into());
            Ran { state, at: next }
        }
    }
}
