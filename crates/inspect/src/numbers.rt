// The record's counts and numbers.
ghost use Rattle.std.specs.Prelude.{◌≡◌, eqb};
ghost use Rattle.lists.specs.Basic.{all};
ghost use Rattle.lists.specs.Numbers.{is_number};
ghost use Rattle.disk.specs.Record.{record_in};
ghost use Rattle.disk.specs.Sound.{order_sound};
ghost use Rattle.inspect.specs.promises.Clauses.{numbers_right};

use disk::record::{NUMBERS, RECORD, Record, free_numbers, head, len, listed, order};

fn is_number(n: u8) -> bool
    ensures { result ≡ is_number n }
{
    1 <= n && usize::from(n) <= NUMBERS
}

// Do these places hold numbers, or nothing?
fn are_numbers(places: &[u8]) -> bool
    ensures { result ≡ all is_number places.now }
{
    let mut right = true;
    for x in places {
        right &= is_number(*x);
    }
    right
}

fn are_empty(places: &[u8]) -> bool
    ensures { result ≡ all (λ n. eqb n 0) places.now }
{
    places.iter().all(|x| *x == 0)
}

// Is the order right? The places behind it are looked at too.
#[tactic(auto, unfolding(disk::specs::Sound::order_sound))]
fn order_right(rec: &[u8; RECORD]) -> bool
    ensures { result ≡ order_sound (record_in rec.now) }
{
    let n = listed(rec);
    n <= NUMBERS && are_numbers(free_numbers(rec)) && are_empty(&order(rec)[n..])
}

// Are they in range?
#[tactic(auto, unfolding(crate::specs::promises::Clauses::numbers_right, lists::specs::Basic::each))]
pub fn numbers_right(rec: &[u8; RECORD]) -> bool
    ensures { result ≡ numbers_right (record_in rec.now) }
{
    len(rec) <= Record::QUEUE && head(rec) < Record::QUEUE && order_right(rec)
}
