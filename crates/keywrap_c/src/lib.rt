// Unwrapping with its tables made, and POLYVAL, wrapping and unwrapping for C callers, which bench/ measures. A `size` of 0 is AES-128, any other AES-256;
// of a key or handle for AES-128 the last 16 bytes are not read, and written as zeros.
#![tactic(auto)]

ghost use Rattle.std.specs.Prelude.{◌≡◌, ◌/◌, ◌+◌, ◌*◌, length, take};
ghost use Rattle.bits.specs.Blocks.{blocks};
ghost use Rattle.rfc8452.specs.Polyval as rfc;
ghost use Rattle.fips197.specs.Sizes.{nk};
ghost use Rattle.aes_c.specs.Size.{size_of};
ghost use Rattle.handle.specs.Wrap.{wrap_key, unwrap_key};
ghost use Rattle.keywrap.specs.Meaning.{handle_bytes, padded, padded_key, opened};
ghost use Rattle.keywrap_c.specs.Answer as answer;

use aes::{Block, Key};
use aes_blocks::AesTables;
use aes_c::key_size;
use fips197::KeySize;
use keywrap::{Handle, siv};
use polyval::polyval;
use sbox::Sbox;

pub fn unwrap(
    size: KeySize,
    integrity: &[u8; 16],
    encryption: &[u8; 32],
    handle: &Handle,
) -> Option<Key>
    ensures { opened result ≡ padded_key (unwrap_key integrity.now encryption.now (handle_bytes size handle.now)) }
{
    let sbox = Sbox::new();
    let mut room = [0; 256];
    let tables = AesTables::new(&sbox, &mut room);
    siv::unwrap(&tables, size, integrity, encryption, handle)
}

#[unsafe(no_mangle)]
pub extern "C" fn polyval_blocks(h: &[u8; 16], message: &[u8], res: &mut [u8; 16])
    ensures { res.new ≡ rfc.polyval h.now (blocks (length message.now / 16) message.now) }
{
    *res = <[u8; 16]>::from(polyval(Block::from(*h), message));
}

#[unsafe(no_mangle)]
pub extern "C" fn keywrap_wrap(
    size: u8,
    integrity: &[u8; 16],
    encryption: &[u8; 32],
    aad: &[u8; 16],
    key: &[u8; 32],
    handle: &mut [u8; 64],
)
    ensures { handle.new ≡ padded 64 (wrap_key integrity.now encryption.now aad.now (take (4 * nk (size_of size)) key.now)) }
{
    let wrapped = siv::wrap(
        key_size(size),
        integrity,
        encryption,
        Block::from(*aad),
        &Key::from(*key),
    );
    *handle = <[u8; 64]>::from(wrapped);
}

#[unsafe(no_mangle)]
pub extern "C" fn keywrap_unwrap(
    size: u8,
    integrity: &[u8; 16],
    encryption: &[u8; 32],
    handle: &[u8; 64],
    key: &mut [u8; 32],
) -> u8
    ensures code { result ≡ answer.code (padded_key (unwrap_key integrity.now encryption.now (take (32 + 4 * nk (size_of size)) handle.now))) }
    ensures key { key.new ≡ answer.bytes (padded_key (unwrap_key integrity.now encryption.now (take (32 + 4 * nk (size_of size)) handle.now))) }
{
    let opened = unwrap(
        key_size(size),
        integrity,
        encryption,
        &Handle::from(*handle),
    );
    match opened {
        Some(found) => {
            *key = <[u8; 32]>::from(found);
            1
        }
        None => {
            *key = [0; 32];
            0
        }
    }
}
