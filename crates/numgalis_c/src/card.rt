// The card as a whole: formatting, mounting, and the flush.
ghost use Rattle.std.specs.Prelude.{[]};
ghost use Rattle.disk.specs.Disk.{disk_in};
ghost use Rattle.disk.specs.Call as call;
ghost use Rattle.calls.specs.Performs.{Performs, ChangesRecord};
ghost use Rattle.numgalis.specs.Border.{told};

use disk::record::RECORD;
use numgalis::card as library;

// Formatting.
#[unsafe(no_mangle)]
pub extern "C" fn numgalis_format(
    card: &mut [u8],
    queue_data: &[u8],
    journal_data: &[u8],
    rec: &mut [u8; RECORD],
) -> usize
    ensures { Performs call.format (disk_in card.old queue_data.now journal_data.now rec.old) (disk_in card.new queue_data.now journal_data.now rec.new) (told result 0 0) [] }
{
    library::numgalis_format(card, queue_data, journal_data, rec)
}

// Mounting; where the log has a fault, its segment and entry.
#[unsafe(no_mangle)]
pub extern "C" fn numgalis_mount(
    card: &[u8],
    queue_data: &[u8],
    journal_data: &[u8],
    rec: &mut [u8; RECORD],
    segment: &mut usize,
    entry: &mut usize,
) -> usize
    ensures { ChangesRecord call.mount card.now queue_data.now journal_data.now rec.old rec.new (told result segment.new entry.new) }
{
    library::numgalis_mount(card, queue_data, journal_data, rec, segment, entry)
}

// A flush: the stores done, and its ending.
#[unsafe(no_mangle)]
pub extern "C" fn numgalis_flush(
    card: &mut [u8],
    queue_data: &[u8],
    journal_data: &[u8],
    rec: &mut [u8; RECORD],
    allowance: usize,
    stores: &mut usize,
    ending: &mut usize,
) -> usize
    ensures { Performs (call.flush allowance) (disk_in card.old queue_data.now journal_data.now rec.old) (disk_in card.new queue_data.now journal_data.now rec.new) (told result stores.new ending.new) [] }
{
    library::numgalis_flush(
        card,
        queue_data,
        journal_data,
        rec,
        allowance,
        stores,
        ending,
    )
}
