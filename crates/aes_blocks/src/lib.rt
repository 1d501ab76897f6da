// Cipher: blocks under one key schedule, by a table of mixed columns; and what any cipher of blocks does with the blocks of a slice.
#![tactic(auto)]

ghost use Rattle.std.specs.Prelude.{◌≡◌, ◌/◌, length};
ghost use Rattle.bits.specs.Blocks.{map_blocks};
ghost use Rattle.fips197.specs.Cipher.{cipher};
ghost use Rattle.fips197.specs.Sizes.{nr};
ghost use Rattle.aes.specs.Meaning.{bytes_of, schedule};

pub mod blocks;
pub mod cipher;
pub mod tables;

use crate::blocks::{BlockCipher, each_block};
use crate::cipher::TableCipher;
pub use crate::tables::{AesTables, Tables};
use aes::{Block, Schedule};

/// One block enciphered.
#[tactic(auto, using(crate::proofs::TableCipher::block_by))]
pub fn encrypt_block(tables: &AesTables, w: &Schedule, b: Block) -> Block
    ensures { bytes_of result ≡ cipher (schedule w.now.size w.now.words) (nr w.now.size) (bytes_of b) }
{
    let cipher = TableCipher {
        tables: tables.plain(),
        schedule: w,
    };
    cipher.block(b)
}

/// Every whole block of the bytes enciphered; what is left at the end stays.
#[tactic(auto, using(crate::proofs::TableCipher::blocks_by))]
pub fn encrypt_blocks(tables: &AesTables, w: &Schedule, bytes: &mut [u8])
    ensures { bytes.new ≡ map_blocks (cipher (schedule w.now.size w.now.words) (nr w.now.size)) (length bytes.old / 16) bytes.old }
{
    let cipher = TableCipher {
        tables: tables.plain(),
        schedule: w,
    };
    each_block(&cipher, bytes);
}
