// The final round of Cipher, of FIPS 197 section 5.1.
ghost use Rattle.std.specs.Prelude.{◌≡◌};
ghost use Rattle.fips197.specs.Cipher.{shift_rows};
ghost use Rattle.aes.specs.Meaning.{bytes_of};
ghost use Rattle.aes.specs.Tables.{table_sub_bytes, table_final_round};

use crate::Block;
use crate::word::sub_diagonal;

// SubBytes, then ShiftRows: each byte is looked up at the place from which it moves.
#[tactic(auto, using(bits::proofs::Lists::four), unfolding(fips197::specs::Cipher::shift_rows, crate::specs::Tables::table_sub_bytes))]
fn sub_shift(sbox: &[u8; 256], s: Block) -> Block
    ensures { bytes_of result ≡ shift_rows (table_sub_bytes sbox.now (bytes_of s)) }
{
    Block {
        a: sub_diagonal(sbox, s.a, s.b, s.c, s.d),
        b: sub_diagonal(sbox, s.b, s.c, s.d, s.a),
        c: sub_diagonal(sbox, s.c, s.d, s.a, s.b),
        d: sub_diagonal(sbox, s.d, s.a, s.b, s.c),
    }
}

#[tactic(auto, unfolding(crate::specs::Tables::table_final_round))]
pub fn final_round(sbox: &[u8; 256], s: Block, k: Block) -> Block
    ensures { bytes_of result ≡ table_final_round sbox.now (bytes_of s) (bytes_of k) }
{
    sub_shift(sbox, s).xor(k)
}
