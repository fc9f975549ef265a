// Questions 1 and 3, of a call that looks nothing up.
ghost use Rattle.disk.specs.Disk.{disk_in};
ghost use Rattle.calls.specs.promises.Checks.{Checks};

use answers::Reply;
use disk::record::RECORD;
use inspect::look::look_committed;

// Refused by question 1 or 3; or the disk is seen to be sound.
pub fn check(card: &[u8], queue_data: &[u8], journal_data: &[u8], rec: &[u8; RECORD]) -> Reply
    ensures { Checks (disk_in card.now queue_data.now journal_data.now rec.now) result }
{
    let mut nodes = [0u8; 1280];
    look_committed(card, queue_data, journal_data, rec, &mut nodes)
}
