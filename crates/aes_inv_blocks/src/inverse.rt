// InvCipher, whatever a round is computed by.
ghost use Rattle.std.specs.Prelude.{◌≡◌, ◌≤◌, ◌<◌, ◌*◌, ℕ, List};
ghost use Rattle.bits.specs.Words.{le_words};
ghost use Rattle.fips197.specs.Sbox.{InvSboxTable};
ghost use Rattle.fips197.specs.KeyExpansion.{round_key};
ghost use Rattle.fips197.specs.InvCipher.{inv_round, inv_cipher};
ghost use Rattle.fips197.specs.Sizes.{nr};
ghost use Rattle.fips197.proofs.Undo.{inv_cipher-length};
ghost use Rattle.aes.specs.Meaning.{bytes_of, schedule};

use aes::inv_cipher::inv_final_round;
use aes::{Block, Schedule};
use aes_blocks::blocks::BlockCipher;

/// What a round of InvCipher is computed by.
pub(crate) trait InvRound {
    /// What its tables have to hold, for the words of a schedule and a number of rounds.
    ghost holds: { Self → List ℕ → ℕ → Type 0 };

    fn round(&self, w: &Schedule, s: Block, i: usize) -> Block
        requires { (1 ≤ i) × (i < nr w.now.size) }
        ensures { holds self.now w.now.words (nr w.now.size) → bytes_of result ≡ inv_round (bytes_of s) (round_key (le_words 4 w.now.words) i) };
}

/// InvCipher under a key schedule, by the inverse S-box.
#[derive(Clone, Copy)]
pub(crate) struct InverseCipher<'t, 'w, R> {
    pub round: R,
    pub inverse: &'t [u8; 256],
    pub schedule: &'w Schedule,
}

impl<'t, 'w, R: InvRound> BlockCipher for InverseCipher<'t, 'w, R> {
    ghost holds = { λ c. InvSboxTable c.inverse.now × R.holds c.round c.schedule.now.words (nr c.schedule.now.size) };

    ghost makes = { λ c. inv_cipher (schedule c.schedule.now.size c.schedule.now.words) (nr c.schedule.now.size) };

    ghost makes_block = { λ c. inv_cipher-length (schedule c.schedule.now.size c.schedule.now.words) (nr c.schedule.now.size) };

    fn block(&self, b: Block) -> Block {
        let rounds = self.schedule.size.rounds();
        let mut s = b.xor(self.schedule.round_key(rounds));
        // i is the number of the round, and of its key.
        for i in (1..rounds).rev() {
            s = self.round.round(self.schedule, s, i);
        }
        inv_final_round(self.inverse, s, self.schedule.round_key(0))
    }
}
