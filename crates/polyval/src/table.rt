// The tables of a hash key: its multiples by four bits, as a product looks them up.
ghost use Rattle.std.specs.Prelude.{◌≡◌, ◌%◌};
ghost use Rattle.rfc8452.specs.Field as rfc;
ghost use Rattle.polyval.specs.Meaning.{num, first, MultiplesTable, ByteTables};

use crate::field::Element;

// The multiples of h by the sixteen polynomials of degree below 4. By index: an entry is made of one that is written before it.
#[tactic(auto, using(crate::proofs::Windows::first_two, crate::proofs::Windows::whole))]
fn multiples(h: Element) -> [Element; 16]
    ensures { (first result ≡ num h) × MultiplesTable result }
{
    let mut table = [Element::ZERO; 16];
    table[1] = h;
    for i in 1..8usize {
        let even = table[i].times_x();
        table[2 * i] = even;
        table[2 * i + 1] = even + h;
    }
    table
}

// A hash key, for products by it: `low` has its multiples by the low four bits of a byte, `high` those by the high four.
#[derive(Drop)]
pub(crate) struct KeyTables {
    low: [Element; 16],
    high: [Element; 16],
    ghost multiples: { ByteTables low high },
}

impl KeyTables {
    pub(crate) fn new(h: Element) -> KeyTables
        ensures { first result.low ≡ num h }
    {
        KeyTables {
            low: multiples(h),
            high: multiples(h.times_x4()),
        }
    }

    // The product of the key and the low byte of x.
    #[tactic(auto, using(crate::proofs::Windows::by_byte))]
    pub(crate) fn times_byte(&self, x: u64) -> Element
        ensures { num result ≡ rfc.multiply (first self.now.low) (x % 256) }
    {
        self.high[(x >> 4) as usize % 16] + self.low[x as usize % 16]
    }
}
