// Counter mode. An example's fields: the counter block, how many bytes of data there are, 64 bytes that begin with them, and the key.
ghost use Rattle.std.specs.Prelude.{◌≤◌};

use crate::case::Case;
use crate::example::Example;
use line::Hex;
use std::io::Write;
use std::{fmt, io};

const SIZE: usize = 16;

const DATA: usize = 17;

const KEY: usize = 81;

// What becomes of data, and what becomes of that.
#[derive(Clone, Copy)]
struct Both<'a>(&'a [u8], &'a [u8]);

impl fmt::Display for Both<'_> {
    fn fmt<W: fmt::Write>(&self, f: &mut fmt::Formatter<W>) -> fmt::Result {
        let Both(masked, twice) = *self;
        write!(f, "{} {}", Hex(masked), Hex(twice))
    }
}

fn data_size(example: &Example) -> usize
    ensures { result ≤ 64 }
{
    (example.field::<1>(SIZE)[0] % 65) as usize
}

fn mask(wide: bool, example: &Example, bytes: &mut [u8]) {
    aes_c::ctr_mask(
        wide,
        example.key_size(),
        &example.key(KEY),
        example.block(0),
        bytes,
    );
}

impl<W: Write> Case<'_, W> {
    // The data at the start of a buffer of so many bytes.
    fn masked(&mut self, what: &str, wide: bool, size: usize) -> io::Result<()>
        requires { size ≤ 512 }
    {
        let n = data_size(&self.example).min(size);
        let mut once = self.example.field::<512>(DATA);
        mask(wide, &self.example, &mut once[..size]);
        let mut twice = once;
        mask(wide, &self.example, &mut twice[..size]);
        self.line(what, Both(&once[..n], &twice[..n]))
    }

    // The data alone, and in a buffer that is long enough for four tables and for groups of eight blocks.
    pub fn ctr(&mut self) -> io::Result<()> {
        let size = data_size(&self.example);
        self.masked("ctr", false, size)?;
        self.masked("ctr-long", false, 512)?;
        self.masked("ctr-wide", true, 512)
    }
}
