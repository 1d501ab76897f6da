// A disassembler of Key Locker's instructions over the proved decoder: for each line of hexadecimal digits on standard input it prints one line.
#![tactic(auto)]

mod line;
mod text;

use crate::line::Line;
use std::io;
use std::io::{BufWriter, Read, Write};

// A proved loop has to end, and nothing says that the input does: the loop counts to a number that no run reaches. What is answered is written before more
// is read, since the input may be a terminal. A line may be longer than any memory, so what is read goes character by character into a line that has room for
// those that count.
fn main(rt: HostRuntime) -> io::Result<()> {
    let mut input = rt.stdin();
    let mut out = BufWriter::new(rt.alloc(), io::writer(&rt))?;
    let mut line = Line::new();
    let mut buf = [0u8; 4096];
    for _ in 0..u64::MAX {
        let n = input.read(&mut buf)?;
        if n == 0 {
            break;
        }
        for c in &buf[..n] {
            if *c == b'\n' {
                writeln!(out, "{line}")?;
                line = Line::new();
            } else {
                line.push(*c);
            }
        }
        out.flush()?;
    }
    if !line.is_empty() {
        writeln!(out, "{line}")?;
    }
    out.flush()
}
