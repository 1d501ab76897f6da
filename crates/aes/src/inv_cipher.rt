// The last round of InvCipher, of FIPS 197 section 5.3.
ghost use Rattle.std.specs.Prelude.{◌≡◌};
ghost use Rattle.fips197.specs.InvCipher.{inv_shift_rows};
ghost use Rattle.aes.specs.Meaning.{bytes_of};
ghost use Rattle.aes.specs.Tables.{table_sub_bytes, table_inv_final_round};

use crate::Block;
use crate::word::sub_diagonal;

// InvShiftRows, then InvSubBytes: each byte is looked up at the place from which it moves. Beside `sub_shift`, since FIPS 197 moves the rows the other way.
#[tactic(auto, using(bits::proofs::Lists::four), unfolding(crate::specs::Tables::table_sub_bytes, fips197::specs::InvCipher::inv_shift_rows))]
fn inv_shift_sub(inverse: &[u8; 256], s: Block) -> Block
    ensures { bytes_of result ≡ table_sub_bytes inverse.now (inv_shift_rows (bytes_of s)) }
{
    Block {
        a: sub_diagonal(inverse, s.a, s.d, s.c, s.b),
        b: sub_diagonal(inverse, s.b, s.a, s.d, s.c),
        c: sub_diagonal(inverse, s.c, s.b, s.a, s.d),
        d: sub_diagonal(inverse, s.d, s.c, s.b, s.a),
    }
}

#[tactic(auto, unfolding(crate::specs::Tables::table_inv_final_round))]
pub fn inv_final_round(inverse: &[u8; 256], s: Block, k: Block) -> Block
    ensures { bytes_of result ≡ table_inv_final_round inverse.now (bytes_of s) (bytes_of k) }
{
    inv_shift_sub(inverse, s).xor(k)
}
