// Calls of the emulated machine through the proved code: each line of standard input is a call, and is answered by one line.
#![tactic(auto)]

mod call;
mod run;

use call::Call;
use line::{Line, read_full};
use std::io;
use std::io::{BufWriter, Write};

// How many characters are read at most.
const ROOM: usize = 196_608;

// All is read before the first answer, into fixed memory: a Vec could run out of memory, and an array cannot.
fn main(rt: HostRuntime) -> io::Result<()> {
    let mut input = [0u8; ROOM];
    let n = read_full(&mut rt.stdin(), &mut input)?;
    let mut out = BufWriter::new(rt.alloc(), io::writer(&rt))?;
    let mut machine = machine::power_on(0, 0).machine;
    for text in input[..n].split_inclusive(|&c| c == b'\n') {
        let text = text.strip_suffix(b"\n").unwrap_or(text);
        let Line { name, bytes } = Line::from(text);
        out.write_all(name)?;
        run::run(&mut out, &mut machine, &Call { bytes })?;
    }
    out.flush()
}
