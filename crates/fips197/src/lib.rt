// FIPS 197 as definitions, in its order and words, and the theorems on them. The code beyond the key sizes is in the crates `sbox`, `aes`, `aes_key`, `aes_blocks` and
// `aes_inv_blocks`.
#![tactic(auto)]

ghost use Rattle.std.specs.Prelude.{◌≡◌};
ghost use Rattle.fips197.specs.Sizes.{nk, nr};

pub mod theorems;

// Section 5, figure 4: the key sizes that Key Locker has.
#[derive(Clone, Copy)]
pub enum KeySize {
    Aes128,
    Aes256,
}

impl KeySize {
    // Nk, the words of a key.
    pub fn words(self) -> usize
        ensures { result ≡ nk self }
    {
        match self {
            KeySize::Aes128 => 4,
            KeySize::Aes256 => 8,
        }
    }

    // Nr, the number of rounds.
    pub fn rounds(self) -> usize
        ensures { result ≡ nr self }
    {
        self.words() + 6
    }
}

// Cipher or InvCipher.
#[derive(Clone, Copy)]
pub enum Direction {
    Encrypt,
    Decrypt,
}
