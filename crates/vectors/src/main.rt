// The papers' examples through the proved code: each line of standard input is one, and is answered by lines with the bytes that were computed.
#![tactic(auto)]

mod case;
mod ciphers;
mod counter_mode;
mod example;
mod handles;
mod polyvals;

use case::Case;
use example::{Example, Kind};
use line::{Line, read_full};
use std::io;
use std::io::{BufWriter, Write};

// How many characters are read at most.
const ROOM: usize = 65536;

fn run<W: Write>(case: &mut Case<'_, W>) -> io::Result<()> {
    match case.example.kind() {
        Kind::Expand => case.expand(),
        Kind::Cipher => case.cipher(),
        Kind::Sum => case.sum(),
        Kind::Dot => case.dot(),
        Kind::Polyval => case.polyval(),
        Kind::Handle => case.handle(),
        Kind::Refused => case.refused(),
        Kind::CounterMode => case.ctr(),
    }
}

// All is read before the first answer, into fixed memory: a Vec could run out of memory, and an array cannot.
fn main(rt: HostRuntime) -> io::Result<()> {
    let mut input = [0u8; ROOM];
    let n = read_full(&mut rt.stdin(), &mut input)?;
    let mut out = BufWriter::new(rt.alloc(), io::writer(&rt))?;
    for text in input[..n].split_inclusive(|&c| c == b'\n') {
        let text = text.strip_suffix(b"\n").unwrap_or(text);
        let Line { name, bytes } = Line::from(text);
        let mut case = Case {
            example: Example { bytes },
            name,
            out: &mut out,
        };
        run(&mut case)?;
    }
    out.flush()
}
