// Handles: each wrapped and what came of it unwrapped, and handles that give no key.
use crate::case::{Case, HexBlock, HexKey};
use fips197::KeySize;
use keywrap::Handle;
use keywrap::siv::wrap;
use std::io::Write;
use std::{fmt, io};

// A handle as hexadecimal digits.
#[derive(Clone, Copy)]
struct HexHandle(KeySize, Handle);

impl fmt::Display for HexHandle {
    fn fmt<W: fmt::Write>(&self, f: &mut fmt::Formatter<W>) -> fmt::Result {
        let HexHandle(size, handle) = *self;
        let Handle {
            aad,
            tag,
            ciphertext,
        } = handle;
        let key = HexKey(size, ciphertext);
        write!(f, "{}{}{key}", HexBlock(aad), HexBlock(tag))
    }
}

impl<W: Write> Case<'_, W> {
    // Under the example's IWKey, its first two fields.
    fn unwrap_handle(&mut self, handle: &Handle) -> io::Result<()> {
        let size = self.example.key_size();
        let integrity = self.example.field(0);
        let encryption = self.example.field(16);
        match keywrap_c::unwrap(size, &integrity, &encryption, handle) {
            Some(key) => self.line("unwrap", HexKey(size, key)),
            None => self.line("unwrap", "none"),
        }
    }

    pub fn handle(&mut self) -> io::Result<()> {
        let example = &self.example;
        let size = example.key_size();
        let handle = wrap(
            size,
            &example.field(0),
            &example.field(16),
            example.block(48),
            &example.key(64),
        );
        self.line("wrap", HexHandle(size, handle))?;
        self.unwrap_handle(&handle)
    }

    pub fn refused(&mut self) -> io::Result<()> {
        let handle = Handle {
            aad: self.example.block(48),
            tag: self.example.block(64),
            ciphertext: self.example.key(80),
        };
        self.unwrap_handle(&handle)
    }
}
