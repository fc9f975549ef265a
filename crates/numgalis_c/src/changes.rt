// The changes, each on a stream.
ghost use Rattle.std.specs.Prelude.{[]};
ghost use Rattle.disk.specs.Disk.{disk_in};
ghost use Rattle.disk.specs.Call.{on_stream, new_list, new_block, write_block, delete_block, delete_list};
ghost use Rattle.calls.specs.Performs.{Performs, ChangesRecord};
ghost use Rattle.numgalis.specs.Border.{told};

use disk::record::RECORD;
use numgalis::changes as library;

// NewList: the list given.
#[unsafe(no_mangle)]
pub extern "C" fn numgalis_new_list(
    card: &[u8],
    queue_data: &[u8],
    journal_data: &[u8],
    rec: &mut [u8; RECORD],
    stream: usize,
    list: &mut usize,
) -> usize
    ensures { ChangesRecord (on_stream stream new_list) card.now queue_data.now journal_data.now rec.old rec.new (told result list.new 0) }
{
    library::numgalis_new_list(card, queue_data, journal_data, rec, stream, list)
}

// NewBlock: the block given.
#[unsafe(no_mangle)]
pub extern "C" fn numgalis_new_block(
    card: &[u8],
    queue_data: &[u8],
    journal_data: &[u8],
    rec: &mut [u8; RECORD],
    stream: usize,
    list: usize,
    predecessor: usize,
    block: &mut usize,
) -> usize
    ensures { ChangesRecord (on_stream stream (new_block list predecessor)) card.now queue_data.now journal_data.now rec.old rec.new (told result block.new 0) }
{
    library::numgalis_new_block(
        card,
        queue_data,
        journal_data,
        rec,
        stream,
        list,
        predecessor,
        block,
    )
}

// Write.
#[unsafe(no_mangle)]
pub extern "C" fn numgalis_write(
    card: &[u8],
    queue_data: &mut [u8],
    journal_data: &mut [u8],
    rec: &mut [u8; RECORD],
    stream: usize,
    block: usize,
    race: usize,
    content: &[u8],
) -> usize
    ensures { Performs (on_stream stream (write_block block race content.now)) (disk_in card.now queue_data.old journal_data.old rec.old) (disk_in card.now queue_data.new journal_data.new rec.new) (told result 0 0) [] }
{
    library::numgalis_write(
        card,
        queue_data,
        journal_data,
        rec,
        stream,
        block,
        race,
        content,
    )
}

// DeleteBlock.
#[unsafe(no_mangle)]
pub extern "C" fn numgalis_delete_block(
    card: &[u8],
    queue_data: &[u8],
    journal_data: &[u8],
    rec: &mut [u8; RECORD],
    stream: usize,
    block: usize,
) -> usize
    ensures { ChangesRecord (on_stream stream (delete_block block)) card.now queue_data.now journal_data.now rec.old rec.new (told result 0 0) }
{
    library::numgalis_delete_block(card, queue_data, journal_data, rec, stream, block)
}

// DeleteList.
#[unsafe(no_mangle)]
pub extern "C" fn numgalis_delete_list(
    card: &[u8],
    queue_data: &[u8],
    journal_data: &[u8],
    rec: &mut [u8; RECORD],
    stream: usize,
    list: usize,
) -> usize
    ensures { ChangesRecord (on_stream stream (delete_list list)) card.now queue_data.now journal_data.now rec.old rec.new (told result 0 0) }
{
    library::numgalis_delete_list(card, queue_data, journal_data, rec, stream, list)
}
