// Question 1.
ghost use Rattle.std.specs.Prelude.{◌≡◌, ◌&&◌, eqb, length};
ghost use Rattle.disk.specs.Record.{Record};
ghost use Rattle.disk.specs.Disk.{disk};
ghost use Rattle.disk.specs.Sound.{lengths_right};

use card_log::mount::is_card;

const QUEUE_DATA: usize = 8192;

const JOURNAL_DATA: usize = 15360;

// Are the queue data and the journal data as long as they are to be?
pub fn data_right(queue_data: &[u8], journal_data: &[u8]) -> bool
    ensures { result ≡ eqb (length queue_data.now) 8192 && eqb (length journal_data.now) 15360 }
{
    queue_data.len() == QUEUE_DATA && journal_data.len() == JOURNAL_DATA
}

// Are the lent lengths right?
#[tactic(auto, unfolding(disk::specs::Sound::lengths_right))]
pub fn lengths_right(card: &[u8], queue_data: &[u8], journal_data: &[u8]) -> bool
    ensures { (rec : Record) → result ≡ lengths_right (disk card.now queue_data.now journal_data.now rec) }
{
    is_card(card) && data_right(queue_data, journal_data)
}
