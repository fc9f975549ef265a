// 256 bytes put into a buffer at a place.
ghost use Rattle.std.specs.Prelude.{◌≡◌, ◌+◌, ◌<◌, ◌≤◌, length};
ghost use Rattle.card_log.specs.Card.{splice};

// The first 256 bytes of src go to dest from `at` on.
pub fn copy_in(dest: &mut [u8], at: usize, src: &[u8])
    requires { (at + 256 ≤ length dest.old) × (length src.now ≡ 256) × (length dest.old ≤ 1000000) }
    ensures { dest.new ≡ splice dest.old at src.now }
{
    let mut i = 0;
    while i < 256 {
        dest[at + i] = src[i];
        i += 1;
    }
}
