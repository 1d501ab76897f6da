// The round keys of a schedule.
ghost use Rattle.std.specs.Prelude.{◌≡◌, ◌≤◌};
ghost use Rattle.bits.specs.Words.{le_words};
ghost use Rattle.fips197.specs.KeyExpansion.{round_key};
ghost use Rattle.aes.specs.Meaning.{bytes_of};

use crate::{Block, Schedule};

impl Schedule {
    /// The key that round n adds; round 0 is the sum before all rounds.
    #[tactic(auto, using(bits::proofs::Lists::four, crate::proofs::KeySchedule::word_words), unfolding(fips197::specs::KeyExpansion::round_key))]
    pub fn round_key(&self, n: usize) -> Block
        requires { n ≤ 14 }
        ensures { bytes_of result ≡ round_key (le_words 4 self.now.words) n }
    {
        Block {
            a: self.words[4 * n],
            b: self.words[4 * n + 1],
            c: self.words[4 * n + 2],
            d: self.words[4 * n + 3],
        }
    }
}
