// Adler-32, as zlib computes it.
ghost use Rattle.std.specs.Prelude.{◌≡◌};
ghost use Rattle.text.specs.Adler.{adler};

const BASE: u32 = 65521;

#[tactic(auto, using(crate::proofs::Sums::adler_steps), unfolding(crate::specs::Adler::adler))]
pub fn adler32(bytes: &[u8]) -> u32
    ensures { result ≡ adler bytes.now }
{
    let mut a: u32 = 1;
    let mut b: u32 = 0;
    for x in bytes {
        a = (a + u32::from(*x)) % BASE;
        b = (b + a) % BASE;
    }
    65536 * b + a
}
