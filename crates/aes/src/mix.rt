// InvMixColumns of one column, without a table.
ghost use Rattle.std.specs.Prelude.{◌≡◌};
ghost use Rattle.bits.specs.Words.{le_bytes};
ghost use Rattle.fips197.specs.InvCipher.{inv_mix_row};
ghost use Rattle.aes.specs.Columns.{scaled, staggered, mixed};

use crate::word::rot_word;

// Every byte of a column times x.
fn xtime(x: u32) -> u32
    ensures { le_bytes 4 result ≡ scaled 2 (le_bytes 4 x) }
{
    ((x & 0x7f7f7f7f) << 1) ^ (((x & 0x80808080) >> 7) * 27)
}

// The rows of the matrix are one row, turned: so are the terms of the sum.
#[tactic(auto, using(crate::proofs::Staggered::summed))]
pub fn stagger(a: u32, b: u32, c: u32, d: u32) -> u32
    ensures { le_bytes 4 result ≡ staggered (le_bytes 4 a) (le_bytes 4 b) (le_bytes 4 c) (le_bytes 4 d) }
{
    a ^ rot_word(b) ^ rot_word(rot_word(c)) ^ rot_word(rot_word(rot_word(d)))
}

#[tactic(auto, using(crate::proofs::Staggered::inv_mixes))]
pub fn inv_mix_column(x: u32) -> u32
    ensures { le_bytes 4 result ≡ mixed inv_mix_row (le_bytes 4 x) }
{
    let x2 = xtime(x);
    let x4 = xtime(x2);
    let x8 = xtime(x4);
    stagger(x8 ^ x4 ^ x2, x8 ^ x2 ^ x, x8 ^ x4 ^ x, x8 ^ x)
}
