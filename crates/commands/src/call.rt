// The commands that are calls, on what is lent to them.
ghost use Rattle.disk.specs.Disk.{disk_in};
ghost use Rattle.disk.specs.Call.{on_stream};
ghost use Rattle.commands.specs.Called.{edit_of, call_of, Calls};

use crate::look::look;
use crate::view::View;
use disk::record::RECORD;
use script::command::{Edit, Request};
use script::replies::{put_answer, put_flushed, put_mounted, put_numbered};
use text::hex::hex;
use text::line::part;

// The position behind the call's line.
pub fn call(
    q: Request,
    line: &[u8],
    card: &mut [u8],
    queue: &mut [u8],
    journal: &mut [u8],
    rec: &mut [u8; RECORD],
    out: &mut [u8],
    at: usize,
) -> usize
    ensures { Calls (call_of line.now q) (disk_in card.old queue.old journal.old rec.old) (disk_in card.new queue.new journal.new rec.new) out.old at out.new result }
{
    match q {
        Request::Format => {
            let reply = calls::format::format(card, queue, journal, rec);
            put_answer(out, at, reply)
        }
        Request::Mount => {
            let reply = calls::mount::mount(card, queue, journal, rec);
            put_mounted(out, at, reply)
        }
        Request::Begin { unit, window } => {
            let reply = calls::begin::begin(
                card,
                queue,
                journal,
                rec,
                unit as usize,
                window as usize,
            );
            put_answer(out, at, reply)
        }
        Request::End { unit } => {
            let reply = calls::end::end(card, queue, journal, rec, unit as usize);
            put_answer(out, at, reply)
        }
        Request::Flush { allowance } => {
            let reply = calls::flush::flush(card, queue, journal, rec, allowance as usize);
            put_flushed(out, at, reply)
        }
        Request::Conflicts { window } => {
            let reply = calls::conflicts::conflicts(card, queue, journal, rec, window as usize);
            put_numbered(out, at, reply)
        }
        Request::Edit { stream, edit: e } => {
            edit(stream as usize, e, line, card, queue, journal, rec, out, at)
        }
        Request::Look { view, look: l } => {
            let v = View {
                card,
                queue,
                journal,
                rec,
                number: view as usize,
            };
            look(v, l, out, at)
        }
    }
}

// An edit on a stream stores nothing on the card.
fn edit(
    stream: usize,
    e: Edit,
    line: &[u8],
    card: &[u8],
    queue: &mut [u8],
    journal: &mut [u8],
    rec: &mut [u8; RECORD],
    out: &mut [u8],
    at: usize,
) -> usize
    ensures { Calls (on_stream stream (edit_of line.now e)) (disk_in card.now queue.old journal.old rec.old) (disk_in card.now queue.new journal.new rec.new) out.old at out.new result }
{
    match e {
        Edit::NewList => {
            let reply = calls::new_list::new_list(card, queue, journal, rec, stream);
            put_numbered(out, at, reply)
        }
        Edit::NewBlock { list, predecessor } => {
            let reply = calls::new_block::new_block(
                card,
                queue,
                journal,
                rec,
                stream,
                list as usize,
                predecessor as usize,
            );
            put_numbered(out, at, reply)
        }
        Edit::Write {
            block,
            lent,
            race,
            digits,
        } => {
            // The data lent are the first of the digits' bytes, and zeros behind them.
            let mut content = [0u8; 300];
            hex(part(line, digits.start, digits.end), &mut content[0..256]);
            let reply = calls::write::write(
                card,
                queue,
                journal,
                rec,
                stream,
                block as usize,
                race as usize,
                part(&content, 0, lent as usize),
            );
            put_answer(out, at, reply)
        }
        Edit::DeleteBlock { block } => {
            let b = block as usize;
            let reply = calls::delete_block::delete_block(card, queue, journal, rec, stream, b);
            put_answer(out, at, reply)
        }
        Edit::DeleteList { list } => {
            let l = list as usize;
            let reply = calls::delete_list::delete_list(card, queue, journal, rec, stream, l);
            put_answer(out, at, reply)
        }
    }
}
