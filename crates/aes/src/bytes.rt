// Blocks and keys out of their bytes, into them, and the sum of two blocks.
ghost use Rattle.std.specs.Prelude.{◌≡◌, ◌++◌};
ghost use Rattle.bits.specs.Bytes.{xor_bytes};
ghost use Rattle.bits.specs.Words.{le_value};
ghost use Rattle.fips197.specs.Cipher.{add_round_key};
ghost use Rattle.aes.specs.Meaning.{bytes_of};

use crate::word::{block_at, put_block};
use crate::{Block, Key};

impl Block {
    pub const ZERO: Block = Block {
        a: 0,
        b: 0,
        c: 0,
        d: 0,
    };

    /// Exclusive or, which is AddRoundKey (FIPS 197 section 5.1.4) too.
    pub fn xor(self, other: Block) -> Block
        ensures bytes { bytes_of result ≡ xor_bytes (bytes_of self) (bytes_of other) }
        ensures round_key { bytes_of result ≡ add_round_key (bytes_of self) (bytes_of other) }
    {
        Block {
            a: self.a ^ other.a,
            b: self.b ^ other.b,
            c: self.c ^ other.c,
            d: self.d ^ other.d,
        }
    }
}

impl From<[u8; 16]> for Block {
    ghost from_gives = { λ bytes block. bytes_of block ≡ bytes };

    fn from(bytes: [u8; 16]) -> Block {
        block_at(&bytes, 0)
    }
}

impl From<Block> for [u8; 16] {
    ghost from_gives = { λ block bytes. bytes ≡ bytes_of block };

    fn from(block: Block) -> [u8; 16] {
        let mut bytes = [0; 16];
        put_block(&mut bytes, 0, block);
        bytes
    }
}

/// Its number, byte 0 lowest.
impl From<Block> for u128 {
    ghost from_gives = { λ block number. number ≡ le_value (bytes_of block) };

    fn from(block: Block) -> u128 {
        u128::from_le_bytes(block.into())
    }
}

impl From<[u8; 32]> for Key {
    ghost from_gives = { λ bytes key. bytes_of key.low ++ bytes_of key.high ≡ bytes };

    fn from(bytes: [u8; 32]) -> Key {
        let low = block_at(&bytes, 0);
        let high = block_at(&bytes, 16);
        Key { low, high }
    }
}

impl From<Key> for [u8; 32] {
    ghost from_gives = { λ key bytes. bytes ≡ bytes_of key.low ++ bytes_of key.high };

    fn from(key: Key) -> [u8; 32] {
        let mut bytes = [0; 32];
        put_block(&mut bytes, 0, key.low);
        put_block(&mut bytes, 16, key.high);
        bytes
    }
}
