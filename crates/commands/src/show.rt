// A view, shown by the look-ups.
ghost use Rattle.std.specs.Prelude.{◌≡◌, length};
ghost use Rattle.std.proofs.Math.Seq.{slice};
ghost use Rattle.text.specs.Written.{Puts};
ghost use Rattle.commands.specs.Shown.{block_behind, blocks_on, list_shown, block_shown, contents_on, view_shown, shown};
ghost use Rattle.commands.specs.Viewed.{disk_of};

use crate::view::View;
use card_log::entry::LogEntry;
use script::lines::{put_block, put_list, put_number, put_unwritten};
use text::line::part;
use text::put::put_each;

const LISTS: usize = LogEntry::LISTS as usize;

// No list has more blocks.
const BLOCKS: usize = LogEntry::BLOCKS as usize;

// The lists of a view with their blocks, then the blocks with their contents.
pub fn show(v: View<'_>, out: &mut [u8], at: usize) -> usize
    ensures { Puts out.old at (shown v.entry.number (disk_of v.entry)) out.new result }
{
    let mut lists = [0u8; LISTS];
    match calls::inventory::inventory(v.card, v.queue, v.journal, v.rec, v.number, &mut lists) {
        Ok(n) => show_view(v, part(&lists, 0, n), out, at),
        Err(x) => put_number(out, at, x.into()),
    }
}

fn show_view(v: View<'_>, lists: &[u8], out: &mut [u8], at: usize) -> usize
    ensures { Puts out.old at (view_shown (disk_of v.entry) v.entry.number lists.now) out.new result }
{
    let list_text = |out: &mut [u8], at: usize, list: u8| -> usize
        ensures { Puts out.old at (list_shown (disk_of v.entry) v.entry.number list) out.new result }
    { show_list(v, list, out, at) };
    let contents = |out: &mut [u8], at: usize, list: u8| -> usize
        ensures { Puts out.old at (contents_on (disk_of v.entry) v.entry.number list) out.new result }
    { show_contents(v, list, out, at) };
    let position = put_each(out, at, lists, list_text);
    put_each(out, position, lists, contents)
}

fn show_list(v: View<'_>, list: u8, out: &mut [u8], at: usize) -> usize
    ensures { Puts out.old at (list_shown (disk_of v.entry) v.entry.number list) out.new result }
{
    let mut blocks = [0u8; BLOCKS];
    let n = gather(v, list, &mut blocks);
    put_list(out, at, list, part(&blocks, 0, n))
}

// The contents of a list's blocks.
fn show_contents(v: View<'_>, list: u8, out: &mut [u8], at: usize) -> usize
    ensures { Puts out.old at (contents_on (disk_of v.entry) v.entry.number list) out.new result }
{
    let mut blocks = [0u8; BLOCKS];
    let n = gather(v, list, &mut blocks);
    let content = |out: &mut [u8], at: usize, block: u8| -> usize
        ensures { Puts out.old at (block_shown (disk_of v.entry) v.entry.number block) out.new result }
    { show_block(v, block, out, at) };
    put_each(out, at, part(&blocks, 0, n), content)
}

// So many blocks of the list are put into the table, which has a place for each.
fn gather(v: View<'_>, list: u8, blocks: &mut [u8]) -> usize
    requires { length blocks.old ≡ 64 }
    ensures { slice 0 result blocks.new ≡ blocks_on (disk_of v.entry) v.entry.number list }
{
    let mut block = block_after(v, list, 0);
    for n in 0..BLOCKS {
        if block == 0 {
            return n;
        }
        blocks[n] = block;
        block = block_after(v, list, block);
    }
    BLOCKS
}

fn block_after(v: View<'_>, list: u8, block: u8) -> u8
    ensures { result ≡ block_behind (disk_of v.entry) v.entry.number list block }
{
    match calls::next::next(
        v.card,
        v.queue,
        v.journal,
        v.rec,
        v.number,
        list as usize,
        block as usize,
    ) {
        Ok(n) => n as u8,
        Err(_) => 0,
    }
}

fn show_block(v: View<'_>, block: u8, out: &mut [u8], at: usize) -> usize
    ensures { Puts out.old at (block_shown (disk_of v.entry) v.entry.number block) out.new result }
{
    let mut content = [0u8; 256];
    match calls::read::read(
        v.card,
        v.queue,
        v.journal,
        v.rec,
        v.number,
        block as usize,
        &mut content,
    ) {
        Ok(race) => put_block(out, at, block, &content, race),
        Err(_) => put_unwritten(out, at, block),
    }
}
