// Handles of Intel's 343965-001US: AES-GCM-SIV of RFC 8452 without a nonce.
#![tactic(auto)]

mod bytes;
mod hash;
pub mod siv;

use aes::{Block, Key};

/// A handle: for a key of 128 bits the high half of the ciphertext is not read. The key's size stands beside it, as beside a key.
#[derive(Clone, Copy)]
pub struct Handle {
    pub aad: Block,
    pub tag: Block,
    pub ciphertext: Key,
}
