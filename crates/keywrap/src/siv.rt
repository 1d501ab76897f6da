// Wrapping and unwrapping: tag and keystream by lent tables and the schedule of the encryption key. The two keys of an IWKey come one by one: the
// type that holds them is `model`'s, which this crate does not know.
ghost use Rattle.std.specs.Prelude.{◌≡◌, List, ℕ};
ghost use Rattle.bits.specs.Bytes.{xor_bytes, alike};
ghost use Rattle.fips197.specs.Aes.{encrypt};
ghost use Rattle.fips197.specs.Cipher.{cipher};
ghost use Rattle.fips197.specs.Sizes.{nr};
ghost use Rattle.aes.specs.Meaning.{bytes_of, key_bytes, schedule as schedule_of};
ghost use Rattle.handle.specs.Wrap as handle;
ghost use Rattle.handle.specs.Wrap.{wrap_key, unwrap_key};
ghost use Rattle.keywrap.specs.Meaning.{handle_bytes, whole_key, whole_handle, padded, opened, padded_key};

use crate::Handle;
use crate::hash::hashed;
use aes::{Block, Key, Schedule};
use aes_blocks::{AesTables, encrypt_block};
use aes_key::expand;
use fips197::KeySize;
use sbox::Sbox;

fn clear_top(b: Block) -> Block
    ensures { bytes_of result ≡ handle.clear_top (bytes_of b) }
{
    Block {
        d: b.d % 0x8000_0000,
        ..b
    }
}

// Counter block i: only the first word counts, modulo 2^32.
fn counter_block(tag: Block, i: u32) -> Block
    ensures { bytes_of result ≡ handle.counter_block (bytes_of tag) i }
{
    Block {
        a: tag.a.wrapping_add(i),
        d: tag.d % 0x8000_0000 + 0x8000_0000,
        ..tag
    }
}

// Without an early exit, which would tell by its time where a forged tag first differs.
fn same(a: Block, b: Block) -> bool
    ensures { result ≡ alike (bytes_of a) (bytes_of b) }
{
    (a.a == b.a) & (a.b == b.b) & (a.c == b.c) & (a.d == b.d)
}

// The keys of an IWKey, with what they are used by: tables to encrypt by, and the schedule of the encryption key.
#[derive(Clone, Copy)]
struct Keys<'a> {
    tables: &'a AesTables<'a>,
    integrity: &'a [u8; 16],
    encryption: &'a [u8; 32],
    schedule: &'a Schedule,
    ghost expanded: { (b : List ℕ) → cipher (schedule_of schedule.now.size schedule.now.words) (nr schedule.now.size) b ≡ encrypt 8 encryption.now b },
}

impl Keys<'_> {
    fn encrypt(&self, b: Block) -> Block
        ensures { bytes_of result ≡ encrypt 8 self.now.encryption.now (bytes_of b) }
    {
        encrypt_block(self.tables, self.schedule, b)
    }

    #[tactic(auto, unfolding(handle::specs::Wrap::tag))]
    fn tag(&self, aad: Block, size: KeySize, key: &Key) -> Block
        ensures { bytes_of result ≡ handle.tag self.now.integrity.now self.now.encryption.now (bytes_of aad) (key_bytes size key.now) }
    {
        self.encrypt(clear_top(hashed(self.integrity, aad, size, key)))
    }

    // A block XORed with block i of the keystream.
    fn mask_block(&self, tag: Block, i: u32, b: Block) -> Block
        ensures { bytes_of result ≡ xor_bytes (bytes_of b) (encrypt 8 self.now.encryption.now (handle.counter_block (bytes_of tag) i)) }
    {
        b.xor(self.encrypt(counter_block(tag, i)))
    }

    // A key, or its ciphertext, XORed with the keystream.
    fn mask(&self, tag: Block, size: KeySize, key: &Key) -> Key
        ensures { whole_key result ≡ padded 32 (handle.masked self.now.encryption.now (bytes_of tag) (key_bytes size key.now)) }
    {
        let low = self.mask_block(tag, 0, key.low);
        // A key of 128 bits has no second block, and nothing is enciphered for it.
        match size {
            KeySize::Aes128 => Key {
                low,
                high: Block::ZERO,
            },
            KeySize::Aes256 => Key {
                low,
                high: self.mask_block(tag, 1, key.high),
            },
        }
    }
}

/// WrapKey128 and WrapKey256.
pub fn wrap(
    size: KeySize,
    integrity: &[u8; 16],
    encryption: &[u8; 32],
    aad: Block,
    key: &Key,
) -> Handle
    ensures { whole_handle result ≡ padded 64 (wrap_key integrity.now encryption.now (bytes_of aad) (key_bytes size key.now)) }
{
    let sbox = Sbox::new();
    let mut room = [0; 256];
    let tables = AesTables::new(&sbox, &mut room);
    let schedule = expand(&sbox, KeySize::Aes256, &Key::from(*encryption));
    let keys = Keys {
        tables: &tables,
        integrity,
        encryption,
        schedule: &schedule,
    };
    let tag = keys.tag(aad, size, key);
    let ciphertext = keys.mask(tag, size, key);
    Handle {
        aad,
        tag,
        ciphertext,
    }
}

/// UnwrapKeyAndAuthenticate384 and UnwrapKeyAndAuthenticate512, by lent tables: only an authentic handle hands out a key.
pub fn unwrap(
    tables: &AesTables,
    size: KeySize,
    integrity: &[u8; 16],
    encryption: &[u8; 32],
    handle: &Handle,
) -> Option<Key>
    ensures { opened result ≡ padded_key (unwrap_key integrity.now encryption.now (handle_bytes size handle.now)) }
{
    let schedule = expand(tables.sbox, KeySize::Aes256, &Key::from(*encryption));
    let keys = Keys {
        tables,
        integrity,
        encryption,
        schedule: &schedule,
    };
    let key = keys.mask(handle.tag, size, &handle.ciphertext);
    let tag = keys.tag(handle.aad, size, &key);
    same(tag, handle.tag).then_some(key)
}
