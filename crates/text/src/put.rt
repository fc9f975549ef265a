// Bytes put into a lent buffer. Every writer stores what of its text lies within the buffer and returns the position after
// the text, so that writers follow each other unasked; a position past the buffer's end says that the text did not fit.
ghost use Rattle.std.specs.Prelude.{[], ◌∷◌, List, ℕ};
ghost use Rattle.text.specs.Each.{each_of};
ghost use Rattle.text.specs.Columns.{blanks};
ghost use Rattle.text.specs.Written.{Puts};

#[tactic(auto, using(crate::proofs::Writing::written_out), unfolding(crate::specs::Written::written, crate::specs::Written::after_text))]
pub fn put_byte(out: &mut [u8], at: usize, b: u8) -> usize
    ensures { Puts out.old at (b ∷ []) out.new result }
{
    if at < out.len() {
        out[at] = b;
        return at + 1;
    }
    if at == out.len() { at + 1 } else { at }
}

pub fn put_bytes(out: &mut [u8], at: usize, src: &[u8]) -> usize
    ensures { Puts out.old at src.now out.new result }
{
    let mut position = at;
    for b in src {
        position = put_byte(out, position, *b);
    }
    position
}

pub fn put_blanks(out: &mut [u8], at: usize, n: usize) -> usize
    ensures { Puts out.old at (blanks n) out.new result }
{
    let mut position = at;
    for _ in 0..n {
        position = put_byte(out, position, b' ');
    }
    position
}

// The text of each item, one behind the other.
pub fn put_each<F: Fn(&mut [u8], usize, u8) -> usize>(
    out: &mut [u8],
    at: usize,
    items: &[u8],
    put: F,
) -> usize
    requires { F.IsAlwaysCallable put }
    ensures { (text : ℕ → List ℕ) → ((o o' : _) (p x r : ℕ) → F.post put o p x r o' → Puts o.now p (text x) o'.now r) → Puts out.old at (each_of text items.now) out.new result }
{
    let mut position = at;
    for x in items {
        position = put(out, position, *x);
    }
    position
}
