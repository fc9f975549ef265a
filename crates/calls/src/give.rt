// The numbers given: a free list taken, a free block put.
ghost use Rattle.std.specs.Prelude.{◌≡◌, [], ◌≤◌, ◌<◌};
ghost use Rattle.lists.specs.promises.Tables.{tables_in, OfShown, IsList};
ghost use Rattle.disk.specs.Record.{record_in};
ghost use Rattle.disk.specs.promises.Listing.{Padded};
ghost use Rattle.calls.specs.promises.Giving.{Takes, none0, GivenBlock, held_by, put_entry, Gives, put_questions, PutsFree};

use crate::add::add;
use crate::ranges::{follows, is_position};
use answers::{NumberReply, Refusal, ask};
use card_log::entry::LogEntry;
use disk::change::hold;
use disk::free::{first_free, withdraw};
use disk::record::{RECORD, list_number};
use lists::tables::is_taken;

// Number n held by unit s, by none on stream 0.
fn held(rec: &mut [u8; RECORD], s: usize, n: u8)
    requires { (s ≤ 4) × (1 ≤ n) × (n ≤ 80) }
    ensures { record_in rec.new ≡ held_by s n (record_in rec.old) }
{
    if s != 0 {
        hold(rec, usize::from(n), s as u8);
    }
}

// 10. Is a list free? 11 and 13, and the take: the number is held in a unit, and leaves the order of the free ones.
pub fn take_list(rec: &mut [u8; RECORD], s: usize) -> NumberReply
    requires { Padded (record_in rec.old) × (s ≤ 4) × ((record_in rec.old).ring.head < 32) }
    ensures { Takes s (record_in rec.old) result (record_in rec.new) }
{
    let free = first_free(rec, LogEntry::BLOCKS, LogEntry::LISTS);
    let l = free.ok_or(Refusal::NoNumberFree)?;
    add(rec, s, LogEntry::Take { list: l })?;
    let n = list_number(l);
    held(rec, s, n);
    withdraw(rec, n);
    Ok(usize::from(l))
}

// The entry of a block put first, or behind block p.
fn entry_of(b: u8, l: u8, p: u8) -> LogEntry
    ensures { result ≡ put_entry b l p }
{
    if p == 0 {
        LogEntry::PutFirst { block: b, list: l }
    } else {
        LogEntry::PutAfter {
            block: b,
            list: l,
            predecessor: p,
        }
    }
}

// 11 and 13, and the put.
fn put_block(rec: &mut [u8; RECORD], s: usize, l: u8, p: u8, b: u8) -> NumberReply
    requires { (s ≤ 4) × ((record_in rec.old).ring.head < 32) × (1 ≤ b) × (b ≤ 64) × Padded (record_in rec.old) }
    ensures { Gives [] s l p b (record_in rec.old) result (record_in rec.new) }
{
    add(rec, s, entry_of(b, l, p))?;
    held(rec, s, b);
    withdraw(rec, b);
    Ok(usize::from(b))
}

// 7, 9 and 10 of a block put on list l behind block p, first if p is 0: the free one, if there is one.
fn put_on(
    nodes: &[u8; 1280],
    rec: &mut [u8; RECORD],
    s: usize,
    l: u8,
    p: u8,
    free: Option<u8>,
) -> NumberReply
    requires { (s ≤ 4) × ((record_in rec.old).ring.head < 32) × IsList l × (p ≤ 64) × GivenBlock free × Padded (record_in rec.old) }
    ensures { OfShown (tables_in nodes.now) (λ rs. Gives (put_questions l p (none0 free) rs) s l p (none0 free) (record_in rec.old) result (record_in rec.new)) }
{
    ask(is_taken(nodes, l), Refusal::ListNotTaken)?;
    ask(follows(nodes, l, p), Refusal::PredecessorElsewhere)?;
    let b = free.ok_or(Refusal::NoNumberFree)?;
    put_block(rec, s, l, p, b)
}

// 5 before them. The number is the first free one; the list and the predecessor are of the stream's view, which the tables show.
pub fn put_free(
    nodes: &[u8; 1280],
    rec: &mut [u8; RECORD],
    s: usize,
    l: usize,
    p: usize,
) -> NumberReply
    requires { (s ≤ 4) × ((record_in rec.old).ring.head < 32) × Padded (record_in rec.old) }
    ensures { OfShown (tables_in nodes.now) (λ rs. PutsFree s l p rs (record_in rec.old) result (record_in rec.new)) }
{
    ask(is_position(l, p), Refusal::OutOfRange)?;
    let free = first_free(rec, 0, LogEntry::BLOCKS);
    put_on(nodes, rec, s, l as u8, p as u8, free)
}
