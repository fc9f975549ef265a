// Mounting: the record becomes a fresh one, if the log is acceptable, with the log's free numbers in the order of their freeing.
ghost use Rattle.disk.specs.Call.{mount};
ghost use Rattle.answers.specs.Answers.{mount_answer};
ghost use Rattle.calls.specs.Performs.{ChangesRecord};

use crate::renew::renew_from;
use answers::{MountRefusal, MountReply, Refusal, ask};
use card_log::mount::{Mounted, mount_on};
use disk::record::RECORD;
use inspect::lengths::data_right;

// Questions: 1 lengths, of which the walk asks the card's, 2 log. The record is not looked at.
pub fn mount(
    card: &[u8],
    queue_data: &[u8],
    journal_data: &[u8],
    rec: &mut [u8; RECORD],
) -> MountReply
    ensures { ChangesRecord mount card.now queue_data.now journal_data.now rec.old rec.new (mount_answer result) }
{
    ask(data_right(queue_data, journal_data), Refusal::WrongLength)?;
    let mut nodes = [0u8; 1280];
    match mount_on(card, &mut nodes) {
        Mounted::WrongLength => Err(MountRefusal::Refused(Refusal::WrongLength)),
        Mounted::Fault(segment, entry) => Err(MountRefusal::Fault { segment, entry }),
        Mounted::Sound(_) => {
            renew_from(rec, &nodes);
            Ok(())
        }
    }
}
