// The free numbers that the record lists, over the committed state.
ghost use Rattle.std.specs.Prelude.{◌≡◌, ℕ, ◌≤◌, ◌<◌, eqb, get_or, replicate};
ghost use Rattle.lists.specs.Basic.{all, times};
ghost use Rattle.lists.specs.Numbers.{all_numbers};
ghost use Rattle.lists.specs.promises.Tables.{tables_in, OfShown};
ghost use Rattle.disk.specs.Record.{record_in, listed_in};
ghost use Rattle.disk.specs.Sound.{due_times, listed_sound};

use super::holders::{FIRST_LIST, is_used};
use disk::record::{NUMBERS, RECORD, free_numbers, holder_of};

// How often each number is listed, counted up from nothing. A byte names a place of `seen`, so that no number needs a test.
fn count_listed(rec: &[u8; RECORD], seen: &mut [u8; 256])
    requires { ((record_in rec.now).tally.listed ≤ 80) × (seen.old ≡ replicate 256 0) }
    ensures { (n : ℕ) → n < 256 → get_or seen.new n 0 ≡ times n (listed_in (record_in rec.now)) }
{
    for x in free_numbers(rec) {
        let number = usize::from(*x);
        seen[number] = seen[number] + 1;
    }
}

// How often is the number to be listed: once if it is free?
#[tactic(auto, unfolding(disk::specs::Sound::due_times))]
fn due(rec: &[u8; RECORD], nodes: &[u8; 1280], number: u8) -> u8
    requires { (1 ≤ number) × (number ≤ 80) }
    ensures { OfShown (tables_in nodes.now) (λ rs. result ≡ due_times (record_in rec.now) rs number) }
{
    u8::from(holder_of(rec, number) == 0 && !is_used(nodes, number))
}

// Is the number listed so often?
fn number_right(rec: &[u8; RECORD], nodes: &[u8; 1280], seen: &[u8; 256], number: usize) -> bool
    requires { (1 ≤ number) × (number ≤ 80) }
    ensures { OfShown (tables_in nodes.now) (λ rs. result ≡ eqb (get_or seen.now number 0) (due_times (record_in rec.now) rs number)) }
{
    seen[number] == due(rec, nodes, number as u8)
}

// Is each free number listed once, and no other? The blocks, then the lists.
pub fn listed_right(rec: &[u8; RECORD], nodes: &[u8; 1280]) -> bool
    requires { (record_in rec.now).tally.listed ≤ 80 }
    ensures { OfShown (tables_in nodes.now) (λ rs. result ≡ all (listed_sound (record_in rec.now) rs) all_numbers) }
{
    let mut seen = [0u8; 256];
    count_listed(rec, &mut seen);
    (1..FIRST_LIST).all(|n| number_right(rec, nodes, &seen, n))
        && (FIRST_LIST..NUMBERS + 1).all(|n| number_right(rec, nodes, &seen, n))
}
