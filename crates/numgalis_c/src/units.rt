// The units: Begin and End.
ghost use Rattle.std.specs.Prelude.{[]};
ghost use Rattle.disk.specs.Disk.{disk_in};
ghost use Rattle.disk.specs.Call as call;
ghost use Rattle.calls.specs.Performs.{Performs, ChangesRecord};
ghost use Rattle.numgalis.specs.Border.{told};

use disk::record::RECORD;
use numgalis::units as library;

// Begin.
#[unsafe(no_mangle)]
pub extern "C" fn numgalis_begin(
    card: &[u8],
    queue_data: &[u8],
    journal_data: &[u8],
    rec: &mut [u8; RECORD],
    unit: usize,
    window: usize,
) -> usize
    ensures { ChangesRecord (call.begin unit window) card.now queue_data.now journal_data.now rec.old rec.new (told result 0 0) }
{
    library::numgalis_begin(card, queue_data, journal_data, rec, unit, window)
}

// End.
#[unsafe(no_mangle)]
pub extern "C" fn numgalis_end(
    card: &[u8],
    queue_data: &mut [u8],
    journal_data: &[u8],
    rec: &mut [u8; RECORD],
    unit: usize,
) -> usize
    ensures { Performs (call.end unit) (disk_in card.now queue_data.old journal_data.now rec.old) (disk_in card.now queue_data.new journal_data.now rec.new) (told result 0 0) [] }
{
    library::numgalis_end(card, queue_data, journal_data, rec, unit)
}
