// A power cut: what it leaves of record and data.
ghost use Rattle.std.specs.Prelude.{◌≡◌, length, replicate};
ghost use Rattle.commands.specs.Cut.{unsound_bytes};

use disk::record::RECORD;

// What a cut leaves in each byte of both data buffers and of the record, whose head is outside the ring then.
const LEFT: u8 = 165;

// Both data buffers lose what they had, and the record is one that is not sound.
pub fn cut(queue: &mut [u8], journal: &mut [u8]) -> [u8; RECORD]
    ensures { (result ≡ unsound_bytes)
        × (queue.new ≡ replicate (length queue.old) 165)
        × (journal.new ≡ replicate (length journal.old) 165) }
{
    queue.fill(LEFT);
    journal.fill(LEFT);
    [LEFT; RECORD]
}
