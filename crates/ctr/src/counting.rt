// Counter blocks as numbers, and the one behind each (NIST SP 800-38A appendix B.1).
ghost use Rattle.std.specs.Prelude.{◌≡◌, ◌/◌, ◌%◌, ◌^◌, ◌++◌};
ghost use Rattle.bits.specs.Words.{le_bytes};
ghost use Rattle.aes.specs.Meaning.{bytes_of};
ghost use Rattle.sp800_38a.specs.Counter.{be_bytes, counter_at};
ghost use Rattle.ctr.specs.Meaning.{counter_bytes};

use aes::Block;
use aes::word::swap;

// The number that a counter block stands for, in two halves: as one of 128 bits it takes 10 ns a block where this takes 1.2.
#[derive(Clone, Copy)]
pub(crate) struct Counter {
    pub high: u64,
    pub low: u64,
}

// Two words as one, with byte 0 highest; std joins bytes alone.
fn joined(a: u32, b: u32) -> u64
    ensures { be_bytes 8 result ≡ le_bytes 4 a ++ le_bytes 4 b }
{
    swap(b) as u64 + ((swap(a) as u64) << 32)
}

// This and the next take a number apart into words; std does it into bytes alone.
fn first_half(x: u64) -> u32
    ensures { result ≡ x / 2 ^ 32 }
{
    (x >> 32) as u32
}

fn last_half(x: u64) -> u32
    ensures { result ≡ x % 2 ^ 32 }
{
    (x % 0x1_0000_0000) as u32
}

impl From<Block> for Counter {
    ghost from_gives = { λ b c. counter_bytes c ≡ bytes_of b };

    fn from(b: Block) -> Counter {
        Counter {
            high: joined(b.a, b.b),
            low: joined(b.c, b.d),
        }
    }
}

impl From<Counter> for Block {
    ghost from_gives = { λ c b. bytes_of b ≡ counter_bytes c };

    fn from(c: Counter) -> Block {
        Block {
            a: swap(first_half(c.high)),
            b: swap(last_half(c.high)),
            c: swap(first_half(c.low)),
            d: swap(last_half(c.low)),
        }
    }
}

impl Counter {
    #[tactic(auto, using(crate::proofs::Halves::low_counts, crate::proofs::Halves::high_counts))]
    pub(crate) fn next(self) -> Counter
        ensures { counter_bytes result ≡ counter_at (counter_bytes self) 1 }
    {
        let low = self.low.wrapping_add(1);
        if low == 0 {
            return Counter {
                high: self.high.wrapping_add(1),
                low,
            };
        }
        Counter {
            high: self.high,
            low,
        }
    }
}
