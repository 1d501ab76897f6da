// An example's bytes: its kind, how many blocks of 16 bytes its last field has (a key one or two, POLYVAL's input up to seven), and its fields.
ghost use Rattle.std.specs.Prelude.{◌+◌, ◌≤◌};

use aes::{Block, Key};
use fips197::KeySize;
use line::SIZE;
use parts::part;

/// The kinds of examples, in the order of their numbers.
#[derive(Clone, Copy)]
pub enum Kind {
    Expand,
    Cipher,
    Sum,
    Dot,
    Polyval,
    Handle,
    Refused,
    CounterMode,
}

impl From<u8> for Kind {
    fn from(number: u8) -> Self {
        match number {
            0 => Kind::Expand,
            1 => Kind::Cipher,
            2 => Kind::Sum,
            3 => Kind::Dot,
            4 => Kind::Polyval,
            5 => Kind::Handle,
            6 => Kind::Refused,
            _ => Kind::CounterMode,
        }
    }
}

/// An example by its bytes.
#[derive(Clone, Copy)]
pub struct Example {
    pub bytes: [u8; SIZE],
}

impl Example {
    pub fn kind(&self) -> Kind {
        Kind::from(self.bytes[0])
    }

    /// How many blocks the last field has.
    pub fn blocks(&self) -> u8 {
        self.bytes[1]
    }

    /// The size of the key that is the last field. No From: the enum is that of `fips197`.
    pub fn key_size(&self) -> KeySize {
        match self.blocks() {
            1 => KeySize::Aes128,
            _ => KeySize::Aes256,
        }
    }

    /// What stands at a place of the fields. A place and no slice, here and below: each caller would cut the fields at the same place.
    pub fn field<const N: usize>(&self, at: usize) -> [u8; N]
        requires { 2 + at + N ≤ 960 }
    {
        part(&self.bytes, 2 + at)
    }

    pub fn block(&self, at: usize) -> Block
        requires { at ≤ 900 }
    {
        Block::from(self.field(at))
    }

    /// A key of 32 bytes, or of 16 and zeros.
    pub fn key(&self, at: usize) -> Key
        requires { at ≤ 900 }
    {
        Key::from(self.field(at))
    }
}
