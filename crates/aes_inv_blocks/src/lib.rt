// InvCipher: blocks under one key schedule, by tables built on the stack.
#![tactic(auto)]

ghost use Rattle.std.specs.Prelude.{◌≡◌, ◌/◌, length};
ghost use Rattle.bits.specs.Blocks.{map_blocks};
ghost use Rattle.fips197.specs.Sbox.{SboxTable};
ghost use Rattle.fips197.specs.InvCipher.{inv_cipher};
ghost use Rattle.fips197.specs.Sizes.{nr};
ghost use Rattle.aes.specs.Meaning.{bytes_of, schedule};

mod inverse;
mod rounds;
mod tables;

use crate::inverse::InverseCipher;
use crate::rounds::{ByProducts, ByTable, inv_mixed_keys};
use crate::tables::{inv_mix_table, inv_products};
use aes::{Block, Schedule};
use aes_blocks::blocks::{BlockCipher, each_block};
use sbox::inverse::inverse_table;

/// Every whole block of the bytes deciphered, by a lent table, if it is the S-box; what is left at the end stays. The table of the inverse cipher is made in
/// the lent room, whatever that held.
pub fn decrypt_blocks(sbox: &[u8; 256], room: &mut [u32; 256], w: &Schedule, bytes: &mut [u8])
    ensures { SboxTable sbox.now → bytes.new ≡ map_blocks (inv_cipher (schedule w.now.size w.now.words) (nr w.now.size)) (length bytes.old / 16) bytes.old }
{
    let inverse = inverse_table(sbox);
    inv_mix_table(&inverse, room);
    let keys = inv_mixed_keys(w);
    let cipher = InverseCipher {
        round: ByTable {
            mixed: room,
            keys: &keys,
        },
        inverse: &inverse,
        schedule: w,
    };
    each_block(&cipher, bytes);
}

/// One block deciphered, by a lent table, if it is the S-box: neither the S-box in the table nor mixed round keys would pay. The products with the inverse
/// matrix are made in the lent room, whatever that held; the first is stored here: told of it, `inv_products` would be compiled into constants
/// (docs/DECISIONS.md, 73).
pub fn decrypt_block(sbox: &[u8; 256], room: &mut [u32; 256], w: &Schedule, b: Block) -> Block
    ensures { SboxTable sbox.now → bytes_of result ≡ inv_cipher (schedule w.now.size w.now.words) (nr w.now.size) (bytes_of b) }
{
    room[0] = 0;
    inv_products(room);
    let inverse = inverse_table(sbox);
    let cipher = InverseCipher {
        round: ByProducts {
            products: room,
            inverse: &inverse,
        },
        inverse: &inverse,
        schedule: w,
    };
    cipher.block(b)
}
