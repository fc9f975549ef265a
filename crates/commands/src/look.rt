// The look-ups in a view; read, the inventory and the page, on so many bytes as are lent to them.
ghost use Rattle.disk.specs.Call as call;
ghost use Rattle.commands.specs.Called.{look_of, bytes_lent, Calls};
ghost use Rattle.commands.specs.Viewed.{disk_of};

use crate::view::View;
use script::command::Look;
use script::replies::{put_inventory, put_numbered, put_page, put_read};
use text::line::part;

// The most bytes that are lent as a destination: a page's.
const PART: usize = 1000;

pub fn look(v: View<'_>, l: Look, out: &mut [u8], at: usize) -> usize
    ensures { Calls (call.in_view v.entry.number (look_of l)) (disk_of v.entry) (disk_of v.entry) out.old at out.new result }
{
    match l {
        Look::Read { block, lent } => read(v, block as usize, lent as usize, out, at),
        Look::Next { list, predecessor } => {
            let reply = calls::next::next(
                v.card,
                v.queue,
                v.journal,
                v.rec,
                v.number,
                list as usize,
                predecessor as usize,
            );
            put_numbered(out, at, reply)
        }
        Look::Inventory { lent } => inventory(v, lent as usize, out, at),
        Look::Page { lent } => page(v, lent as usize, out, at),
    }
}

fn read(v: View<'_>, block: usize, lent: usize, out: &mut [u8], at: usize) -> usize
    ensures { Calls (call.in_view v.entry.number (call.read_block block (bytes_lent lent))) (disk_of v.entry) (disk_of v.entry) out.old at out.new result }
{
    let mut content = [0u8; PART];
    let dest = &mut content[..lent.min(PART)];
    let reply = calls::read::read(v.card, v.queue, v.journal, v.rec, v.number, block, dest);
    put_read(out, at, reply, part(&content, 0, lent))
}

fn inventory(v: View<'_>, lent: usize, out: &mut [u8], at: usize) -> usize
    ensures { Calls (call.in_view v.entry.number (call.inventory (bytes_lent lent))) (disk_of v.entry) (disk_of v.entry) out.old at out.new result }
{
    let mut lists = [0u8; PART];
    let dest = &mut lists[..lent.min(PART)];
    let reply = calls::inventory::inventory(v.card, v.queue, v.journal, v.rec, v.number, dest);
    put_inventory(out, at, reply, part(&lists, 0, lent))
}

fn page(v: View<'_>, lent: usize, out: &mut [u8], at: usize) -> usize
    ensures { Calls (call.in_view v.entry.number (call.page (bytes_lent lent))) (disk_of v.entry) (disk_of v.entry) out.old at out.new result }
{
    let mut page = [0u8; PART];
    let buffer = &mut page[..lent.min(PART)];
    let reply = calls::page::page(v.card, v.queue, v.journal, v.rec, v.number, buffer);
    put_page(out, at, reply, part(&page, 0, lent))
}
