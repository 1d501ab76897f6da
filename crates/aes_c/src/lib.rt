// The product's AES with its tables made for each call, and the same for C callers, which bench/ measures: a `size` of 0 is AES-128, any other AES-256.
#![tactic(auto)]

ghost use Rattle.std.specs.Prelude.{◌≡◌, ◌/◌, ◌*◌, length, take};
ghost use Rattle.bits.specs.Blocks.{map_blocks};
ghost use Rattle.bits.specs.Words.{le_words};
ghost use Rattle.fips197.specs.Aes.{encrypt};
ghost use Rattle.fips197.specs.Cipher.{cipher};
ghost use Rattle.fips197.specs.InvCipher.{inv_cipher};
ghost use Rattle.fips197.specs.Sizes.{nk, nr};
ghost use Rattle.aes.specs.Meaning.{bytes_of, key_bytes, schedule, stored_schedule};
ghost use Rattle.sp800_38a.specs.Counter.{ctr};
ghost use Rattle.aes_c.specs.Size.{size_of};

use aes::{Block, Key, Schedule};
use aes_blocks::AesTables;
use aes_key::expand;
use ctr::mask;
use fips197::KeySize;
use sbox::Sbox;

// Not a `From`: KeySize is another crate's, which knows nothing of the sizes of C callers.
pub fn key_size(size: u8) -> KeySize
    ensures { result ≡ size_of size }
{
    if size == 0 {
        KeySize::Aes128
    } else {
        KeySize::Aes256
    }
}

pub fn key_expansion(size: KeySize, key: &Key) -> Schedule
    ensures size { result.size ≡ size }
    ensures words { le_words 4 result.words ≡ stored_schedule size (key_bytes size key.now) }
{
    expand(&Sbox::new(), size, key)
}

pub fn encrypt_block(w: &Schedule, b: Block) -> Block
    ensures { bytes_of result ≡ cipher (schedule w.now.size w.now.words) (nr w.now.size) (bytes_of b) }
{
    let sbox = Sbox::new();
    let mut room = [0; 256];
    aes_blocks::encrypt_block(&AesTables::new(&sbox, &mut room), w, b)
}

/// Every whole block of the bytes; what is left at the end stays.
pub fn encrypt_blocks(w: &Schedule, bytes: &mut [u8])
    ensures { bytes.new ≡ map_blocks (cipher (schedule w.now.size w.now.words) (nr w.now.size)) (length bytes.old / 16) bytes.old }
{
    let sbox = Sbox::new();
    let mut room = [0; 256];
    aes_blocks::encrypt_blocks(&AesTables::new(&sbox, &mut room), w, bytes);
}

pub fn decrypt_block(w: &Schedule, b: Block) -> Block
    ensures { bytes_of result ≡ inv_cipher (schedule w.now.size w.now.words) (nr w.now.size) (bytes_of b) }
{
    let sbox = Sbox::new();
    let mut room = [0; 256];
    aes_inv_blocks::decrypt_block(&sbox.table, &mut room, w, b)
}

pub fn decrypt_blocks(w: &Schedule, bytes: &mut [u8])
    ensures { bytes.new ≡ map_blocks (inv_cipher (schedule w.now.size w.now.words) (nr w.now.size)) (length bytes.old / 16) bytes.old }
{
    let sbox = Sbox::new();
    let mut room = [0; 256];
    aes_inv_blocks::decrypt_blocks(&sbox.table, &mut room, w, bytes);
}

/// Counter mode from the counter block c on.
pub fn ctr_mask(wide: bool, size: KeySize, key: &Key, c: Block, bytes: &mut [u8])
    ensures { bytes.new ≡ ctr (encrypt (nk size) (key_bytes size key.now)) (bytes_of c) bytes.old }
{
    let sbox = Sbox::new();
    let mut room = [0; 256];
    let tables = AesTables::new(&sbox, &mut room);
    let w = expand(&sbox, size, key);
    mask(wide, &tables.plain(), &w, c, bytes);
}

#[unsafe(no_mangle)]
pub extern "C" fn aes_key_expansion(size: u8, key: &[u8; 32], w: &mut [u32; 60])
    ensures { le_words 4 w.new ≡ stored_schedule (size_of size) (take (4 * nk (size_of size)) key.now) }
{
    let schedule = key_expansion(key_size(size), &Key::from(*key));
    // A variable of its own: an array in a field is not stored straight (the borrow checker does not cover it).
    let words = schedule.words;
    *w = words;
}

// The words that a C caller lends, and the size of their key: copied, since C lends no schedule, and the ciphers are lent one.
fn lent_schedule(size: u8, w: &[u32; 60]) -> Schedule
    ensures { result ≡ record { words = w.now; size = size_of size } }
{
    Schedule {
        words: *w,
        size: key_size(size),
    }
}

#[unsafe(no_mangle)]
pub extern "C" fn aes_encrypt_block(size: u8, w: &[u32; 60], block: &mut [u8; 16])
    ensures { block.new ≡ cipher (schedule (size_of size) w.now) (nr (size_of size)) block.old }
{
    *block = encrypt_block(&lent_schedule(size, w), Block::from(*block)).into();
}

#[unsafe(no_mangle)]
pub extern "C" fn aes_decrypt_block(size: u8, w: &[u32; 60], block: &mut [u8; 16])
    ensures { block.new ≡ inv_cipher (schedule (size_of size) w.now) (nr (size_of size)) block.old }
{
    *block = decrypt_block(&lent_schedule(size, w), Block::from(*block)).into();
}

#[unsafe(no_mangle)]
pub extern "C" fn aes_encrypt_blocks(size: u8, w: &[u32; 60], bytes: &mut [u8])
    ensures { bytes.new ≡ map_blocks (cipher (schedule (size_of size) w.now) (nr (size_of size))) (length bytes.old / 16) bytes.old }
{
    encrypt_blocks(&lent_schedule(size, w), bytes);
}

#[unsafe(no_mangle)]
pub extern "C" fn aes_decrypt_blocks(size: u8, w: &[u32; 60], bytes: &mut [u8])
    ensures { bytes.new ≡ map_blocks (inv_cipher (schedule (size_of size) w.now) (nr (size_of size))) (length bytes.old / 16) bytes.old }
{
    decrypt_blocks(&lent_schedule(size, w), bytes);
}
