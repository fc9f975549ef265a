// The look-ups: of a view, and of a window's conflicts.
ghost use Rattle.std.specs.Prelude.{[]};
ghost use Rattle.disk.specs.Call as call;
ghost use Rattle.calls.specs.Performs.{ChangesNothing};
ghost use Rattle.numgalis.specs.Border.{told};

use crate::tell::tell_number;
use calls::conflicts::conflicts;
use calls::inventory::inventory;
use calls::next::next;
use calls::page::page;
use calls::read::read;
use disk::record::RECORD;

// ReadBlock: the race that the block was written for, 0 for none.
#[unsafe(no_mangle)]
pub extern "C" fn numgalis_read(
    card: &[u8],
    queue_data: &[u8],
    journal_data: &[u8],
    rec: &[u8; RECORD],
    view: usize,
    block: usize,
    dest: &mut [u8],
    race: &mut usize,
) -> usize
    ensures { ChangesNothing (call.in_view view (call.read_block block dest.old)) card.now queue_data.now journal_data.now rec.now (told result race.new 0) dest.new }
{
    tell_number(
        read(card, queue_data, journal_data, rec, view, block, dest).map(usize::from),
        race,
    )
}

// The block behind another of a list, 0 behind the last.
#[unsafe(no_mangle)]
pub extern "C" fn numgalis_next(
    card: &[u8],
    queue_data: &[u8],
    journal_data: &[u8],
    rec: &[u8; RECORD],
    view: usize,
    list: usize,
    predecessor: usize,
    block: &mut usize,
) -> usize
    ensures { ChangesNothing (call.in_view view (call.block_after list predecessor)) card.now queue_data.now journal_data.now rec.now (told result block.new 0) [] }
{
    tell_number(
        next(card, queue_data, journal_data, rec, view, list, predecessor),
        block,
    )
}

// The lists taken, and how many.
#[unsafe(no_mangle)]
pub extern "C" fn numgalis_inventory(
    card: &[u8],
    queue_data: &[u8],
    journal_data: &[u8],
    rec: &[u8; RECORD],
    view: usize,
    dest: &mut [u8],
    count: &mut usize,
) -> usize
    ensures { ChangesNothing (call.in_view view (call.inventory dest.old)) card.now queue_data.now journal_data.now rec.now (told result count.new 0) dest.new }
{
    tell_number(
        inventory(card, queue_data, journal_data, rec, view, dest),
        count,
    )
}

// The page of a view, and its length.
#[unsafe(no_mangle)]
pub extern "C" fn numgalis_page(
    card: &[u8],
    queue_data: &[u8],
    journal_data: &[u8],
    rec: &[u8; RECORD],
    view: usize,
    buffer: &mut [u8],
    length: &mut usize,
) -> usize
    ensures { ChangesNothing (call.in_view view (call.page buffer.old)) card.now queue_data.now journal_data.now rec.now (told result length.new 0) buffer.new }
{
    tell_number(
        page(card, queue_data, journal_data, rec, view, buffer),
        length,
    )
}

// The conflicts of a window.
#[unsafe(no_mangle)]
pub extern "C" fn numgalis_conflicts(
    card: &[u8],
    queue_data: &[u8],
    journal_data: &[u8],
    rec: &[u8; RECORD],
    window: usize,
    count: &mut usize,
) -> usize
    ensures { ChangesNothing (call.conflict_count window) card.now queue_data.now journal_data.now rec.now (told result count.new 0) [] }
{
    tell_number(
        conflicts(card, queue_data, journal_data, rec, window),
        count,
    )
}
