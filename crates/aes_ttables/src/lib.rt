// Cipher by four tables of mixed columns, where enough blocks follow to pay for them: no word is turned in a round.
#![tactic(auto)]

ghost use Rattle.std.specs.Prelude.{◌≡◌, List, ℕ};
ghost use Rattle.bits.specs.Blocks.{map_blocks};
ghost use Rattle.fips197.specs.Cipher.{shift_rows};
ghost use Rattle.fips197.specs.Sizes.{nr};
ghost use Rattle.aes.specs.Meaning.{bytes_of, schedule};
ghost use Rattle.aes_blocks.specs.TableCipher.{table_columns, table_round, table_cipher, cipher-length};
ghost use Rattle.aes_ttables.specs.Turned.{Turned};
ghost use Rattle.aes_ttables.specs.Meaning.{cipher_of, MadeOfOne};

pub mod tables;

use crate::tables::column;
use aes::Block;
use aes::cipher::final_round;
use aes::word::{block_at, put_block};
use aes_blocks::blocks::BlockCipher;
use aes_blocks::cipher::TableCipher;

/// The cipher of one table of mixed columns, with four that are made from that one; it does the same in less time. The type has no rule: what `encrypt_block` and
/// `encrypt_eight` promise is of any table.
#[derive(Clone, Copy)]
pub struct FourTables<'t, 'w, 'f> {
    pub one: TableCipher<'t, 'w>,
    pub four: &'f [u32; 1024],
}

// This, the round and the loop of `encrypt_block` beside those of one table: one cipher over what columns are looked up in proved, and was slower (a long counter mode 3 %).
#[tactic(auto, using(bits::proofs::Lists::four), unfolding(aes_blocks::specs::TableCipher::table_columns, aes_blocks::specs::TableCipher::table_column, aes::specs::Columns::staggered, fips197::specs::Cipher::shift_rows))]
fn sub_shift_mix(tables: &[u32; 1024], s: Block) -> Block
    ensures { (t : List ℕ) → Turned t tables.now → bytes_of result ≡ table_columns t (shift_rows (bytes_of s)) }
{
    Block {
        a: column(tables, s.a, s.b, s.c, s.d),
        b: column(tables, s.b, s.c, s.d, s.a),
        c: column(tables, s.c, s.d, s.a, s.b),
        d: column(tables, s.d, s.a, s.b, s.c),
    }
}

#[tactic(auto, unfolding(aes_blocks::specs::TableCipher::table_round))]
fn tables_round(tables: &[u32; 1024], s: Block, k: Block) -> Block
    ensures { (t : List ℕ) → Turned t tables.now → bytes_of result ≡ table_round t (bytes_of s) (bytes_of k) }
{
    sub_shift_mix(tables, s).xor(k)
}

/// One block, by whatever table the four are made from.
pub fn encrypt_block(cipher: &FourTables, b: Block) -> Block
    ensures { (t : List ℕ) → Turned t cipher.now.four.now → bytes_of result ≡ table_cipher t cipher.now.one.tables.sbox.now (schedule cipher.now.one.schedule.now.size cipher.now.one.schedule.now.words) (nr cipher.now.one.schedule.now.size) (bytes_of b) }
{
    let w = cipher.one.schedule;
    let rounds = w.size.rounds();
    let mut s = b.xor(w.round_key(0));
    // i is the number of the round, and of its key.
    for i in 1..rounds {
        s = tables_round(cipher.four, s, w.round_key(i));
    }
    final_round(cipher.one.tables.sbox, s, w.round_key(rounds))
}

impl<'t, 'w, 'f> BlockCipher for FourTables<'t, 'w, 'f> {
    ghost holds = { MadeOfOne };

    ghost makes = { λ c. cipher_of c.one };

    ghost makes_block = { λ c. cipher-length c.one.tables.mixed.now c.one.tables.sbox.now (schedule c.one.schedule.now.size c.one.schedule.now.words) (nr c.one.schedule.now.size) };

    fn block(&self, b: Block) -> Block {
        encrypt_block(self, b)
    }
}

// Two blocks in one loop, beside the cipher of one: the look-ups of one do not wait for those of the other (one by one is slower).
fn cipher_two(cipher: &FourTables, b: Block, c: Block) -> (Block, Block)
    ensures first { (t : List ℕ) → Turned t cipher.now.four.now → bytes_of result.0 ≡ table_cipher t cipher.now.one.tables.sbox.now (schedule cipher.now.one.schedule.now.size cipher.now.one.schedule.now.words) (nr cipher.now.one.schedule.now.size) (bytes_of b) }
    ensures second { (t : List ℕ) → Turned t cipher.now.four.now → bytes_of result.1 ≡ table_cipher t cipher.now.one.tables.sbox.now (schedule cipher.now.one.schedule.now.size cipher.now.one.schedule.now.words) (nr cipher.now.one.schedule.now.size) (bytes_of c) }
{
    let w = cipher.one.schedule;
    let sbox = cipher.one.tables.sbox;
    let rounds = w.size.rounds();
    let key = w.round_key(0);
    let mut s = b.xor(key);
    let mut t = c.xor(key);
    // i is the number of the round, and of its key.
    for i in 1..rounds {
        let k = w.round_key(i);
        s = tables_round(cipher.four, s, k);
        t = tables_round(cipher.four, t, k);
    }
    let last = w.round_key(rounds);
    (final_round(sbox, s, last), final_round(sbox, t, last))
}

/// Eight blocks, as a wide form has them, by whatever table the four are made from. By pairs, which `each_block` does not make (slower); by index, since std says
/// nothing of what `chunks_exact_mut` leaves.
pub fn encrypt_eight(cipher: &FourTables, bytes: &mut [u8; 128])
    ensures { (t : List ℕ) → Turned t cipher.now.four.now → bytes.new ≡ map_blocks (table_cipher t cipher.now.one.tables.sbox.now (schedule cipher.now.one.schedule.now.size cipher.now.one.schedule.now.words) (nr cipher.now.one.schedule.now.size)) 8 bytes.old }
{
    for i in 0..4usize {
        let at = 16 * (2 * i);
        let next = 16 * (2 * i + 1);
        let (first, second) = cipher_two(cipher, block_at(bytes, at), block_at(bytes, next));
        put_block(bytes, at, first);
        put_block(bytes, next, second);
    }
}
