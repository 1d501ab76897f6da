// The dot product with a hash key, from the key's tables: both halves of the other factor by Horner's rule, a byte of each at a time, and two divisions by x^64.
ghost use Rattle.std.specs.Prelude.{◌≡◌, ◌+◌, ◌*◌, ◌/◌, ◌%◌, ◌^◌, ◌<◌};
ghost use Rattle.rfc8452.specs.Field as rfc;
ghost use Rattle.rfc8452.specs.Field.{times_x_to};
ghost use Rattle.polyval.specs.Meaning.{num, value, first};

use crate::field::Element;
use crate::table::KeyTables;

// A product that is not yet reduced: w2 and w3 hold the coefficients from x^128 on.
#[derive(Clone, Copy)]
pub(crate) struct Wide {
    pub w0: u64,
    pub w1: u64,
    pub w2: u64,
    pub w3: u64,
}

impl Wide {
    const ZERO: Wide = Wide {
        w0: 0,
        w1: 0,
        w2: 0,
        w3: 0,
    };

    // The product times x^8, and n * x^64 + m added.
    #[tactic(auto, using(crate::proofs::Reduction::shift_added), unfolding(crate::specs::Meaning::value))]
    fn shift_add(self, n: Element, m: Element) -> Wide
        requires { self.w3 * 256 < 2 ^ 64 }
        ensures { (value result ≡ rfc.add (times_x_to 8 (value self)) (rfc.add (times_x_to 64 (num n)) (num m))) × (result.w3 ≡ self.w3 * 256 + self.w2 / 2 ^ 56) }
    {
        Wide {
            w0: (self.w0 << 8) ^ m.lo,
            w1: ((self.w1 << 8) + (self.w0 >> 56)) ^ n.lo ^ m.hi,
            w2: ((self.w2 << 8) + (self.w1 >> 56)) ^ n.hi,
            w3: (self.w3 << 8) + (self.w2 >> 56),
        }
    }
}

// (w2 * x^128 + e) * x^-64, where x^-64 = x^64 + x^63 + x^62 + x^57.
#[tactic(auto, using(crate::proofs::Reduction::reduced))]
fn reduce(w2: u64, e: Element) -> Element
    ensures { times_x_to 64 (num result) ≡ rfc.add (times_x_to 128 w2) (num e) }
{
    let u = e.lo;
    Element {
        lo: e.hi ^ (u << 63) ^ (u << 62) ^ (u << 57),
        hi: w2 ^ u ^ (u >> 1) ^ (u >> 2) ^ (u >> 7),
    }
}

impl KeyTables {
    // The product of the key and a.
    #[tactic(auto, using(crate::proofs::Windows::down, crate::proofs::Windows::no_bits, crate::proofs::Windows::horner, crate::proofs::Windows::fourth_word, crate::proofs::Windows::fourth_fits), unfolding(crate::specs::Meaning::value))]
    fn product(&self, a: Element) -> Wide
        ensures { value result ≡ rfc.multiply (first self.now.low) (num a) }
    {
        let mut w = Wide::ZERO;
        // i is the number of a byte, the highest first.
        for i in (0..8u32).rev() {
            let n = self.times_byte(a.hi >> (8 * i));
            let m = self.times_byte(a.lo >> (8 * i));
            w = w.shift_add(n, m);
        }
        w
    }

    #[tactic(auto, using(crate::proofs::Halves::halves_lt, crate::proofs::Windows::twice_reduced), unfolding(crate::specs::Meaning::value))]
    pub(crate) fn dot(&self, a: Element) -> Element
        ensures { num result ≡ rfc.dot (num a) (first self.now.low) }
    {
        let w = self.product(a);
        reduce(w.w3, reduce(w.w2, Element { lo: w.w0, hi: w.w1 }))
    }
}
