// Exclusive or of bytes.
ghost use Rattle.std.specs.Prelude.{◌≡◌, length};
ghost use Rattle.bits.specs.Bytes.{xor_bytes};

// Each byte XORed with the one at its place in `other`.
pub fn xor_in(s: &mut [u8], other: &[u8])
    requires { length other.now ≡ length s.old }
    ensures { s.new ≡ xor_bytes s.old other.now }
{
    // By index: std says nothing of what `iter_mut().zip` leaves, and `iter_mut().enumerate()` would take `other` by the same index.
    for i in 0..s.len() {
        s[i] ^= other[i];
    }
}
