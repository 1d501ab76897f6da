// A round of InvCipher, in two ways: by a table and mixed round keys, where blocks follow that pay for them, and by the products with the inverse matrix.
ghost use Rattle.std.specs.Prelude.{◌≡◌, ◌*◌};
ghost use Rattle.fips197.specs.Sbox.{InvSboxTable};
ghost use Rattle.fips197.specs.Sizes.{nr};
ghost use Rattle.fips197.specs.InvCipher.{inv_sub_bytes, inv_shift_rows, inv_mix_row, inv_mix_columns};
ghost use Rattle.aes.specs.Meaning.{bytes_of};
ghost use Rattle.aes_inv_blocks.specs.Tables.{Products, InvMixedTable, InvMixed};

use crate::inverse::InvRound;
use aes::inv_cipher::inv_final_round;
use aes::mix::inv_mix_column;
use aes::{Block, Schedule};
use aes_blocks::tables::table_column;

/// A round of the equivalent inverse cipher (FIPS 197 section 5.3.5): its key comes after InvMixColumns.
#[derive(Clone, Copy)]
pub(crate) struct ByTable<'a> {
    pub mixed: &'a [u32; 256],
    pub keys: &'a Schedule,
}

impl<'a> InvRound for ByTable<'a> {
    ghost holds = { λ c w n. InvMixedTable c.mixed.now × InvMixed w (4 * n) c.keys.now.words };

    fn round(&self, _w: &Schedule, s: Block, i: usize) -> Block {
        inv_shift_sub_mix(self.mixed, s).xor(self.keys.round_key(i))
    }
}

// InvShiftRows, InvSubBytes and InvMixColumns at once. Beside the cipher's `sub_shift_mix`, since FIPS 197 moves the rows the other way.
#[tactic(auto, using(bits::proofs::Lists::four, aes_blocks::proofs::Columns::diagonal_by), unfolding(aes::specs::Columns::mixed, fips197::specs::InvCipher::inv_mix_columns, fips197::specs::Cipher::mix_by, fips197::specs::InvCipher::inv_shift_rows, fips197::specs::InvCipher::inv_sub_bytes))]
fn inv_shift_sub_mix(mixed: &[u32; 256], s: Block) -> Block
    ensures { InvMixedTable mixed.now → bytes_of result ≡ inv_mix_columns (inv_sub_bytes (inv_shift_rows (bytes_of s))) }
{
    Block {
        a: table_column(mixed, s.a, s.d, s.c, s.b),
        b: table_column(mixed, s.b, s.a, s.d, s.c),
        c: table_column(mixed, s.c, s.b, s.a, s.d),
        d: table_column(mixed, s.d, s.c, s.b, s.a),
    }
}

/// InvMixColumns of the round keys, for the equivalent inverse cipher; the last one, which it adds as it is, is not among them.
pub(crate) fn inv_mixed_keys(w: &Schedule) -> Schedule
    ensures { InvMixed w.now.words (4 * nr w.now.size) result.words }
{
    let mut words = [0u32; 60];
    // By index: the words are as many as the rounds say, and std says nothing of what `iter_mut().zip` leaves; by `enumerate` one of the two would keep it.
    for i in 0..4 * w.size.rounds() {
        words[i] = inv_mix_column(w.words[i]);
    }
    Schedule {
        words,
        size: w.size,
    }
}

/// A round of InvCipher, its InvMixColumns by the products of a column of the matrix with each byte.
#[derive(Clone, Copy)]
pub(crate) struct ByProducts<'a> {
    pub products: &'a [u32; 256],
    pub inverse: &'a [u8; 256],
}

impl<'a> InvRound for ByProducts<'a> {
    ghost holds = { λ c w n. Products inv_mix_row 256 c.products.now × InvSboxTable c.inverse.now };

    fn round(&self, w: &Schedule, s: Block, i: usize) -> Block {
        inv_mix_by(
            self.products,
            inv_final_round(self.inverse, s, w.round_key(i)),
        )
    }
}

fn inv_mix_by(products: &[u32; 256], s: Block) -> Block
    ensures { Products inv_mix_row 256 products.now → bytes_of result ≡ inv_mix_columns (bytes_of s) }
{
    Block {
        a: table_column(products, s.a, s.a, s.a, s.a),
        b: table_column(products, s.b, s.b, s.b, s.b),
        c: table_column(products, s.c, s.c, s.c, s.c),
        d: table_column(products, s.d, s.d, s.d, s.d),
    }
}
