// Words of four bytes and blocks of four words: loads, stores, rotation and the S-box.
ghost use Rattle.std.specs.Prelude.{◌≡◌, reverse, ◌+◌, ◌≤◌, length, get_or, take, drop};
ghost use Rattle.std.proofs.lemmas.List.Edits.{sets};
ghost use Rattle.bits.specs.Words.{le_bytes};
ghost use Rattle.fips197.specs.KeyExpansion.{rot_word};
ghost use Rattle.aes.specs.Columns.{diagonal};
ghost use Rattle.aes.specs.Meaning.{bytes_of};

use crate::Block;
use parts::{part, put_part};

/// RotWord; with byte 0 lowest it turns right.
#[tactic(auto, using(crate::proofs::Words::turned))]
pub fn rot_word(x: u32) -> u32
    ensures { le_bytes 4 result ≡ rot_word (le_bytes 4 x) }
{
    x.rotate_right(8)
}

/// The bytes in reverse.
pub fn swap(x: u32) -> u32
    ensures { le_bytes 4 result ≡ reverse (le_bytes 4 x) }
{
    x.swap_bytes()
}

/// A byte of each of four words, through a table, whatever it holds.
pub fn sub_diagonal(table: &[u8; 256], a: u32, b: u32, c: u32, d: u32) -> u32
    ensures { le_bytes 4 result ≡ diagonal (λ x. get_or table.now x 0) a b c d }
{
    u32::from_le_bytes([
        table[(a % 256) as usize],
        table[((b >> 8) % 256) as usize],
        table[((c >> 16) % 256) as usize],
        table[(d >> 24) as usize],
    ])
}

/// The word that stands at a place of a slice. Slice and place stand one by one, as `parts` has them.
pub fn word_at(s: &[u8], at: usize) -> u32
    requires { at + 4 ≤ length s.now }
    ensures { le_bytes 4 result ≡ take 4 (drop at s.now) }
{
    u32::from_le_bytes(part(s, at))
}

pub fn put_word(s: &mut [u8], at: usize, x: u32)
    requires { at + 4 ≤ length s.old }
    ensures { s.new ≡ sets s.old at (le_bytes 4 x) }
{
    put_part(s, at, &x.to_le_bytes());
}

/// The block that stands at a place of a slice.
#[tactic(auto, using(bits::proofs::Lists::four, bits::proofs::Lists::part_sixteen))]
pub fn block_at(s: &[u8], at: usize) -> Block
    requires { at + 16 ≤ length s.now }
    ensures { bytes_of result ≡ take 16 (drop at s.now) }
{
    Block {
        a: word_at(s, at),
        b: word_at(s, at + 4),
        c: word_at(s, at + 8),
        d: word_at(s, at + 12),
    }
}

pub fn put_block(s: &mut [u8], at: usize, b: Block)
    requires { at + 16 ≤ length s.old }
    ensures { s.new ≡ sets s.old at (bytes_of b) }
{
    put_word(s, at, b.a);
    put_word(s, at + 4, b.b);
    put_word(s, at + 8, b.c);
    put_word(s, at + 12, b.d);
}
