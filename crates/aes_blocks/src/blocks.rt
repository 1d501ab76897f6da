// A cipher of blocks, and the blocks of a slice, whatever the cipher.
ghost use Rattle.std.specs.Prelude.{◌≡◌, ◌/◌, ℕ, List, length};
ghost use Rattle.bits.specs.Blocks.{map_blocks};
ghost use Rattle.aes.specs.Meaning.{bytes_of};

use aes::Block;
use aes::word::{block_at, put_block};

/// A cipher of blocks, forwards or backwards, with the tables and the keys that it needs.
pub trait BlockCipher {
    /// What its tables have to hold.
    ghost holds: { Self → Type 0 };

    /// What it makes of a block then.
    ghost makes: { Self → List ℕ → List ℕ };

    /// Of any list it makes a block.
    ghost makes_block: { (c : Self) (b : List ℕ) → length (makes c b) ≡ 16 };

    fn block(&self, b: Block) -> Block
        ensures { holds self.now → bytes_of result ≡ makes self.now (bytes_of b) };
}

/// Every whole block of the bytes; what is left at the end stays.
pub fn each_block<C: BlockCipher>(cipher: &C, bytes: &mut [u8])
    ensures { C.holds cipher.now → bytes.new ≡ map_blocks (C.makes cipher.now) (length bytes.old / 16) bytes.old }
{
    // By index: std says nothing of what `chunks_exact_mut` leaves.
    for i in 0..bytes.len() / 16 {
        let made = cipher.block(block_at(bytes, 16 * i));
        put_block(bytes, 16 * i, made);
    }
}
