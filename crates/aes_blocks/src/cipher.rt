// Cipher by lent tables, under a lent key schedule.
ghost use Rattle.std.specs.Prelude.{◌≡◌, ◌≤◌, ⊤};
ghost use Rattle.bits.specs.Words.{le_words};
ghost use Rattle.fips197.specs.Cipher.{shift_rows};
ghost use Rattle.fips197.specs.Sizes.{nr};
ghost use Rattle.aes.specs.Meaning.{bytes_of, schedule};
ghost use Rattle.aes_blocks.specs.TableCipher.{table_columns, table_round, table_cipher, cipher-length};

use crate::blocks::BlockCipher;
use crate::tables::{Tables, table_column};
use aes::cipher::final_round;
use aes::{Block, Schedule};

/// Cipher under a key schedule, by tables, whatever they hold; with the right ones this is Cipher (`cipher_by` in proofs/TableCipher.antt).
#[derive(Clone, Copy)]
pub struct TableCipher<'t, 'w> {
    pub tables: Tables<'t>,
    pub schedule: &'w Schedule,
}

// ShiftRows, then the columns by the table, which has SubBytes and MixColumns in it.
#[tactic(auto, using(bits::proofs::Lists::four), unfolding(crate::specs::TableCipher::table_columns, crate::specs::TableCipher::table_column, aes::specs::Columns::staggered, fips197::specs::Cipher::shift_rows))]
fn sub_shift_mix(mixed: &[u32; 256], s: Block) -> Block
    ensures { bytes_of result ≡ table_columns mixed.now (shift_rows (bytes_of s)) }
{
    Block {
        a: table_column(mixed, s.a, s.b, s.c, s.d),
        b: table_column(mixed, s.b, s.c, s.d, s.a),
        c: table_column(mixed, s.c, s.d, s.a, s.b),
        d: table_column(mixed, s.d, s.a, s.b, s.c),
    }
}

#[tactic(auto, unfolding(crate::specs::TableCipher::table_round))]
fn table_round(mixed: &[u32; 256], s: Block, k: Block) -> Block
    ensures { bytes_of result ≡ table_round mixed.now (bytes_of s) (bytes_of k) }
{
    sub_shift_mix(mixed, s).xor(k)
}

// Not inlined, so that what it reads comes in registers: in `block` each would be fetched from the lent cipher, which is slower.
#[inline(never)]
fn cipher(mixed: &[u32; 256], sbox: &[u8; 256], w: &Schedule, rounds: usize, b: Block) -> Block
    requires { (1 ≤ rounds) × (rounds ≤ 14) }
    ensures { bytes_of result ≡ table_cipher mixed.now sbox.now (le_words 4 w.now.words) rounds (bytes_of b) }
{
    let mut s = b.xor(w.round_key(0));
    // i is the number of the round, and of its key.
    for i in 1..rounds {
        s = table_round(mixed, s, w.round_key(i));
    }
    final_round(sbox, s, w.round_key(rounds))
}

impl<'t, 'w> BlockCipher for TableCipher<'t, 'w> {
    ghost holds = { λ c. ⊤ };

    ghost makes = { λ c. table_cipher c.tables.mixed.now c.tables.sbox.now (schedule c.schedule.now.size c.schedule.now.words) (nr c.schedule.now.size) };

    ghost makes_block = { λ c. cipher-length c.tables.mixed.now c.tables.sbox.now (schedule c.schedule.now.size c.schedule.now.words) (nr c.schedule.now.size) };

    fn block(&self, b: Block) -> Block {
        let rounds = self.schedule.size.rounds();
        cipher(
            self.tables.mixed,
            self.tables.sbox,
            self.schedule,
            rounds,
            b,
        )
    }
}
