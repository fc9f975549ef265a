// For a card that is not memory: the stores that a flush or a formatting would make.
ghost use Rattle.disk.specs.Call as call;
ghost use Rattle.driver.specs.Stores.{Lists};
ghost use Rattle.numgalis.specs.Border.{told};

use disk::record::RECORD;
use numgalis::stores as library;

// The stores of a flush, and how many of them are listed.
#[unsafe(no_mangle)]
pub extern "C" fn numgalis_flush_stores(
    card: &[u8],
    queue_data: &[u8],
    journal_data: &[u8],
    rec: &[u8; RECORD],
    allowance: usize,
    stores: &mut [u32],
    count: &mut usize,
) -> usize
    ensures { Lists (call.flush allowance) card.now queue_data.now journal_data.now rec.now stores.old stores.new (told result count.new 0) }
{
    library::numgalis_flush_stores(
        card,
        queue_data,
        journal_data,
        rec,
        allowance,
        stores,
        count,
    )
}

// The stores of a formatting, and how many of them are listed.
#[unsafe(no_mangle)]
pub extern "C" fn numgalis_format_stores(
    card: &[u8],
    queue_data: &[u8],
    journal_data: &[u8],
    rec: &[u8; RECORD],
    stores: &mut [u32],
    count: &mut usize,
) -> usize
    ensures { Lists call.format card.now queue_data.now journal_data.now rec.now stores.old stores.new (told result count.new 0) }
{
    library::numgalis_format_stores(card, queue_data, journal_data, rec, stores, count)
}
