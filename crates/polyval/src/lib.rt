// POLYVAL of RFC 8452 section 3. An element of its field is two words.
#![tactic(auto)]

ghost use Rattle.std.specs.Prelude.{◌≡◌, ◌/◌, length};
ghost use Rattle.bits.specs.Blocks.{blocks};
ghost use Rattle.aes.specs.Meaning.{bytes_of};
ghost use Rattle.rfc8452.specs.Polyval as rfc;

mod dot;
mod field;
mod table;

use crate::field::Element;
use crate::table::KeyTables;
use aes::Block;

/// POLYVAL(H, X_1, .., X_n): the X are the whole blocks of the bytes.
#[tactic(auto, using(crate::proofs::Folding::chunks_are), unfolding(rfc8452::specs::Polyval::polyval))]
pub fn polyval(h: Block, bytes: &[u8]) -> Block
    ensures { bytes_of result ≡ rfc.polyval (bytes_of h) (blocks (length bytes.now / 16) bytes.now) }
{
    let tables = KeyTables::new(Element::from(h));
    let mut s = Element::ZERO;
    let (blocks, _) = bytes.as_chunks::<16>();
    for x in blocks {
        s = tables.dot(s + Element::from(Block::from(*x)));
    }
    Block::from(s)
}
