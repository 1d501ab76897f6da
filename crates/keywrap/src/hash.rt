// POLYVAL over AAD, key and length block.
ghost use Rattle.std.specs.Prelude.{◌≡◌};
ghost use Rattle.aes.specs.Meaning.{bytes_of, key_bytes};
ghost use Rattle.handle.specs.Wrap as handle;

use aes::word::put_block;
use aes::{Block, Key};
use fips197::KeySize;
use polyval::polyval;

// The bit lengths of AAD and key.
#[tactic(auto, using(crate::proofs::Sizes::length_block_lem), unfolding(handle::specs::Wrap::length_block))]
fn length_block(size: KeySize, aad: Block, key: &Key) -> Block
    ensures { bytes_of result ≡ handle.length_block (bytes_of aad) (key_bytes size key.now) }
{
    Block {
        a: 128,
        b: 0,
        c: 32 * size.words() as u32,
        d: 0,
    }
}

// Inlined, it would store the AAD word by word, and POLYVAL would wait for it.
#[inline(never)]
pub(crate) fn hashed(integrity: &[u8; 16], aad: Block, size: KeySize, key: &Key) -> Block
    ensures { bytes_of result ≡ handle.hashed integrity.now (bytes_of aad) (key_bytes size key.now) }
{
    let end = 16 + 4 * size.words();
    let mut bytes = [0u8; 64];
    put_block(&mut bytes, 0, aad);
    put_block(&mut bytes, 16, key.low);
    put_block(&mut bytes, 32, key.high);
    put_block(&mut bytes, end, length_block(size, aad, key));
    polyval(Block::from(*integrity), &bytes[..end + 16])
}
