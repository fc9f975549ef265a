// Bytes as hex digits, put into a buffer and read from a word.
ghost use Rattle.std.specs.Prelude.{◌≡◌, [], ◌∷◌, ◌<◌, length, get_or};
ghost use Rattle.text.specs.Hex.{glyph as Hex·glyph};
ghost use Rattle.text.specs.Hex.{nibble as Hex·nibble};
ghost use Rattle.text.specs.Hex.{glyphs, trimmed, hex_text, is_hex, pairs, hex_bytes};
ghost use Rattle.text.specs.Written.{Puts};

use crate::line::is_same;
use crate::put::put_byte;

// Without the zeros at the end; a dash where nothing is left.
pub fn put_hex(out: &mut [u8], at: usize, bytes: &[u8]) -> usize
    ensures { Puts out.old at (hex_text bytes.now) out.new result }
{
    let kept = trimmed(bytes);
    if kept.is_empty() {
        return put_byte(out, at, b'-');
    }
    let mut position = at;
    for b in kept {
        position = put_pair(out, position, *b);
    }
    position
}

fn trimmed(bytes: &[u8]) -> &[u8]
    ensures { result.now ≡ trimmed bytes.now }
{
    let n = bytes
        .iter()
        .rposition(|b| *b != 0)
        .map_or(0, |last| last + 1);
    &bytes[..n]
}

fn put_pair(out: &mut [u8], at: usize, b: u8) -> usize
    ensures { Puts out.old at (glyphs (b ∷ [])) out.new result }
{
    let next = put_byte(out, at, glyph(b / 16));
    put_byte(out, next, glyph(b % 16))
}

#[tactic(auto, unfolding(crate::specs::Hex::glyph))]
fn glyph(digit: u8) -> u8
    requires { digit < 16 }
    ensures { result ≡ Hex·glyph digit }
{
    if digit < 10 {
        b'0' + digit
    } else {
        b'a' - 10 + digit
    }
}

// One or more pairs of digits, at most 256, or a dash.
#[tactic(auto, using(std::proofs::lemmas::Bool::Decides::nat_tests), unfolding(crate::specs::Hex::is_hex))]
pub fn is_hex(text: &[u8]) -> bool
    ensures { result ≡ is_hex text.now }
{
    is_same(text, b"-")
        || (!text.is_empty()
            && text.len() <= 512
            && text.len() % 2 == 0
            && text.iter().all(|c| c.is_ascii_hexdigit()))
}

// The bytes that hex digits spell, with zeros behind them.
pub fn hex(text: &[u8], out: &mut [u8])
    requires { length out.old ≡ 256 }
    ensures { out.new ≡ hex_bytes text.now }
{
    for (i, b) in out.iter_mut().enumerate() {
        *b = pair_at(text, i);
    }
}

// The byte that pair `i` of the digits spells, 0 past the last pair.
#[tactic(auto, using(crate::proofs::Nibbles::pair))]
fn pair_at(text: &[u8], i: usize) -> u8
    requires { i < 256 }
    ensures { result ≡ get_or (pairs text.now) i 0 }
{
    let k = 2 * i;
    if k + 1 < text.len() {
        16 * nibble(text[k]) + nibble(text[k + 1])
    } else {
        0
    }
}

#[tactic(auto, using(std::proofs::lemmas::Bool::Decides::nat_tests), unfolding(crate::specs::Hex::nibble, crate::specs::Hex::between))]
fn nibble(c: u8) -> u8
    ensures { (result < 16) × (result ≡ Hex·nibble c) }
{
    match c {
        b'0'..=b'9' => c - b'0',
        b'a'..=b'f' => c - b'a' + 10,
        b'A'..=b'F' => c - b'A' + 10,
        _ => 0,
    }
}
