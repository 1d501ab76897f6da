// FIPS 197's examples.
use crate::case::{Case, HexBlock};
use aes::{Block, Schedule};
use line::Hex;
use std::io::Write;
use std::{fmt, io};

// Words of a key schedule, each with a blank before the next.
#[derive(Clone, Copy)]
struct Words<'a>(&'a [u32]);

impl fmt::Display for Words<'_> {
    fn fmt<W: fmt::Write>(&self, f: &mut fmt::Formatter<W>) -> fmt::Result {
        for (i, word) in self.0.iter().enumerate() {
            if i > 0 {
                f.write_str(" ")?;
            }
            write!(f, "{}", Hex(&word.to_le_bytes()))?;
        }
        Ok(())
    }
}

impl<W: Write> Case<'_, W> {
    // The schedule's words: those of one round key more than there are rounds.
    pub fn expand(&mut self) -> io::Result<()> {
        let schedule = aes_c::key_expansion(self.example.key_size(), &self.example.key(0));
        let count = 4 * (schedule.size.rounds() + 1);
        self.line("expand", Words(&schedule.words[..count]))
    }

    // One block, in both directions: what was computed is then deciphered.
    fn cipher_one(&mut self, schedule: &Schedule, plaintext: Block) -> io::Result<()> {
        let ciphertext = aes_c::encrypt_block(schedule, plaintext);
        self.line("encrypt", HexBlock(ciphertext))?;
        let deciphered = aes_c::decrypt_block(schedule, ciphertext);
        self.line("decrypt", HexBlock(deciphered))
    }

    // The block eight times.
    fn cipher_eight(&mut self, schedule: &Schedule, plaintext: Block) -> io::Result<()> {
        let block = <[u8; 16]>::from(plaintext);
        let mut bytes = [0u8; 128];
        for part in bytes.chunks_exact_mut(16) {
            part.copy_from_slice(&block);
        }
        aes_c::encrypt_blocks(schedule, &mut bytes);
        self.line("encrypt8", Hex(&bytes))?;
        aes_c::decrypt_blocks(schedule, &mut bytes);
        self.line("decrypt8", Hex(&bytes))
    }

    pub fn cipher(&mut self) -> io::Result<()> {
        let schedule = aes_c::key_expansion(self.example.key_size(), &self.example.key(16));
        let plaintext = self.example.block(0);
        self.cipher_one(&schedule, plaintext)?;
        self.cipher_eight(&schedule, plaintext)
    }
}
