// AES of FIPS 197, for keys of 128 and 256 bits. A block is four columns of 32 bits, each with its byte 0 lowest.
#![tactic(auto)]

pub mod bytes;
pub mod cipher;
pub mod inv_cipher;
pub mod keys;
pub mod mix;
pub mod word;
pub mod xor;

use fips197::KeySize;

/// A block of 16 bytes, column by column.
#[derive(Clone, Copy)]
pub struct Block {
    pub a: u32,
    pub b: u32,
    pub c: u32,
    pub d: u32,
}

/// The first 16 bytes of a key, and the next 16, which AES-128 does not read. Its size stands beside it: 32 bytes do not tell it, and C gives it by itself.
#[derive(Clone, Copy)]
pub struct Key {
    pub low: Block,
    pub high: Block,
}

/// A key schedule (FIPS 197 section 5.2) with the size of its key. It is large: make it a local once and lend it.
#[derive(Clone, Copy)]
pub struct Schedule {
    pub words: [u32; 60],
    pub size: KeySize,
}
