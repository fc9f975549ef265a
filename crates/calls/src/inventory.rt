// The look-up of the lists taken.
ghost use Rattle.std.specs.Prelude.{◌≡◌, ◌++◌, length, drop};
ghost use Rattle.lists.specs.Lookup.{list_nums};
ghost use Rattle.lists.specs.promises.Tables.{tables_in, OfShown};
ghost use Rattle.disk.specs.Call as call;
ghost use Rattle.answers.specs.Answers.{number_answer};
ghost use Rattle.calls.specs.Performs.{ChangesNothing};

use answers::{NumberReply, Refusal, ask};
use card_log::entry::LogEntry;
use disk::record::RECORD;
use inspect::look::look_view;
use lists::tables::list_after;

const LISTS: usize = LogEntry::LISTS as usize;

// The lists taken in a view go to dest, in the order of their taking; their number is returned.
// Questions: 1 lengths, 3 record, 4 view, 5 destination.
pub fn inventory(
    card: &[u8],
    queue_data: &[u8],
    journal_data: &[u8],
    rec: &[u8; RECORD],
    view: usize,
    dest: &mut [u8],
) -> NumberReply
    ensures { ChangesNothing (call.in_view view (call.inventory dest.old)) card.now queue_data.now journal_data.now rec.now (number_answer result) dest.new }
{
    let mut nodes = [0u8; 1280];
    look_view(card, queue_data, journal_data, rec, view, &mut nodes)?;
    ask(dest.len() == LISTS, Refusal::OutOfRange)?;
    Ok(put_lists(&nodes, dest))
}

// The lists that tables with these links show, from the first on.
fn put_lists(nodes: &[u8; 1280], dest: &mut [u8]) -> usize
    requires { length dest.old ≡ 16 }
    ensures { OfShown (tables_in nodes.now) (λ rs. (result ≡ length (list_nums rs)) × (dest.new ≡ list_nums rs ++ drop (length (list_nums rs)) dest.old)) }
{
    let mut list = list_after(nodes, 0);
    for i in 0..LISTS {
        if list == 0 {
            return i;
        }
        dest[i] = list;
        list = list_after(nodes, list);
    }
    LISTS
}
