// An example that is answered, line by line. What answers each kind is a method, in a module beside this one.
use crate::example::Example;
use aes::{Block, Key};
use fips197::KeySize;
use line::Hex;
use std::io::Write;
use std::{fmt, io};

/// An example with its name, and where the lines go that answer it.
#[derive(Drop)]
pub struct Case<'a, W> {
    pub example: Example,
    pub name: &'a [u8],
    pub out: &'a mut W,
}

impl<W: Write> Case<'_, W> {
    pub fn line(&mut self, what: &str, value: impl fmt::Display + Drop) -> io::Result<()> {
        write!(self.out, "{what} ")?;
        self.out.write_all(self.name)?;
        writeln!(self.out, " {value}")
    }
}

/// A block as hexadecimal digits.
#[derive(Clone, Copy)]
pub struct HexBlock(pub Block);

impl fmt::Display for HexBlock {
    fn fmt<W: fmt::Write>(&self, f: &mut fmt::Formatter<W>) -> fmt::Result {
        let bytes = <[u8; 16]>::from(self.0);
        write!(f, "{}", Hex(&bytes))
    }
}

/// As much of a key as its size says: of 128 bits there is no high half to show.
#[derive(Clone, Copy)]
pub struct HexKey(pub KeySize, pub Key);

impl fmt::Display for HexKey {
    fn fmt<W: fmt::Write>(&self, f: &mut fmt::Formatter<W>) -> fmt::Result {
        let HexKey(size, Key { low, high }) = *self;
        write!(f, "{}", HexBlock(low))?;
        match size {
            KeySize::Aes128 => Ok(()),
            KeySize::Aes256 => write!(f, "{}", HexBlock(high)),
        }
    }
}
