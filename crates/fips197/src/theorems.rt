// What is proved of FIPS 197 as it is written here. The contract of each function is a theorem; there is nothing to execute.
ghost use Rattle.std.specs.Prelude.{◌≡◌, List, ℕ, length};
ghost use Rattle.bits.specs.Bytes.{Bytes};
ghost use Rattle.fips197.specs.Aes.{decrypt, encrypt};
ghost use Rattle.fips197.specs.Cipher.{cipher};
ghost use Rattle.fips197.specs.InvCipher.{inv_cipher};

/// InvCipher undoes Cipher, for every key schedule, number of rounds and block.
pub fn inv_cipher_undoes_cipher()
    ensures { (w : List ℕ) (nr : ℕ) (b : List ℕ) → Bytes w → Bytes b → length b ≡ 16 → inv_cipher w nr (cipher w nr b) ≡ b }
{}

/// Decryption undoes encryption, for every number of words in the key, key and block.
pub fn decrypt_undoes_encrypt()
    ensures { (nk : ℕ) (key b : List ℕ) → Bytes key → Bytes b → length b ≡ 16 → decrypt nk key (encrypt nk key b) ≡ b }
{}
