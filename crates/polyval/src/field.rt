// Elements of the field of RFC 8452, and the blocks that they are.
ghost use Rattle.std.specs.Prelude.{◌≡◌, ◌++◌};
ghost use Rattle.bits.specs.Words.{le_bytes, le_value};
ghost use Rattle.aes.specs.Meaning.{bytes_of};
ghost use Rattle.rfc8452.specs.Field as rfc;
ghost use Rattle.polyval.specs.Meaning.{num};

use aes::Block;
use std::ops::Add;

// Coefficient i of x is bit i of lo, coefficient 64 + i bit i of hi.
#[derive(Clone, Copy)]
pub(crate) struct Element {
    pub lo: u64,
    pub hi: u64,
}

impl Element {
    pub(crate) const ZERO: Element = Element { lo: 0, hi: 0 };

    // The element times x.
    #[tactic(auto, using(crate::proofs::Packing::times_x_lem))]
    pub(crate) fn times_x(self) -> Element
        ensures { num result ≡ rfc.times_x (num self) }
    {
        let top = self.hi >> 63;
        Element {
            lo: (self.lo << 1) ^ top,
            hi: ((self.hi << 1) + (self.lo >> 63)) ^ (top * 0xC200_0000_0000_0000),
        }
    }

    #[tactic(auto, unfolding(bits::specs::Polynomials::times_power))]
    pub(crate) fn times_x4(self) -> Element
        ensures { num result ≡ rfc.times_x_to 4 (num self) }
    {
        self.times_x().times_x().times_x().times_x()
    }
}

impl Add for Element {
    ghost use Rattle.polyval.specs.Meaning.{num};

    type Output = Element;

    ghost add_gives = { λ a b r. num r ≡ rfc.add (num a) (num b) };

    #[tactic(auto, using(crate::proofs::Halves::xor_halves))]
    fn add(self, other: Element) -> Element {
        Element {
            lo: self.lo ^ other.lo,
            hi: self.hi ^ other.hi,
        }
    }
}

// Two words of 32 bits as one; std joins bytes alone.
fn join(low: u32, high: u32) -> u64
    ensures { le_bytes 8 result ≡ le_bytes 4 low ++ le_bytes 4 high }
{
    low as u64 + ((high as u64) << 32)
}

impl From<Block> for Element {
    ghost from_gives = { λ b e. num e ≡ le_value (bytes_of b) };

    fn from(b: Block) -> Element {
        Element {
            lo: join(b.a, b.b),
            hi: join(b.c, b.d),
        }
    }
}

impl From<Element> for Block {
    ghost from_gives = { λ e b. bytes_of b ≡ le_bytes 16 (num e) };

    #[tactic(auto, using(crate::proofs::Packing::unpacked))]
    fn from(e: Element) -> Block {
        Block {
            a: (e.lo % 0x1_0000_0000) as u32,
            b: (e.lo >> 32) as u32,
            c: (e.hi % 0x1_0000_0000) as u32,
            d: (e.hi >> 32) as u32,
        }
    }
}
