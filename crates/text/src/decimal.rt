// Decimal numbers, put into a buffer and read from a word.
ghost use Rattle.std.specs.Prelude.{◌≡◌, [], ◌∷◌};
ghost use Rattle.text.specs.Decimal.{decimal, number_of, number_after};
ghost use Rattle.text.specs.Written.{Puts};

use crate::put::put_byte;

pub fn put_decimal(out: &mut [u8], at: usize, n: u64) -> usize
    ensures { Puts out.old at (decimal n) out.new result }
{
    if n < 10 {
        return put_byte(out, at, b'0' + n as u8);
    }
    let position = put_decimal(out, at, n / 10);
    put_byte(out, position, b'0' + (n % 10) as u8)
}

// The number that the text says: one or more digits that fit 64 bits, zeros in front too.
#[tactic(auto, using(crate::proofs::Digits::reading))]
pub fn number(text: &[u8]) -> Option<u64>
    ensures { result ≡ number_of text.now }
{
    if text.is_empty() {
        return None;
    }
    let mut n = 0;
    for b in text {
        n = with_digit(n, *b)?;
    }
    Some(n)
}

// The number with one digit more.
#[tactic(auto, using(crate::proofs::Digits::digit))]
fn with_digit(n: u64, b: u8) -> Option<u64>
    ensures { result ≡ number_after n (b ∷ []) }
{
    let digit = char::from(b).to_digit(10)?;
    n.checked_mul(10)?.checked_add(u64::from(digit))
}
