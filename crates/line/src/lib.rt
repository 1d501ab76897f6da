// Lines of a program's standard input, and bytes as they are printed.
#![tactic(auto)]

ghost use Rattle.std.specs.Prelude.{◌≡◌, ◌+◌, ◌-◌, ◌<◌, ◌≤◌, ◌==◌, length, drop, IfOk, IfSome, Some};
ghost use Rattle.std.specs.List.{position};
ghost use Rattle.std.specs.Option.{unwrap_or};
ghost use Rattle.line.specs.Line.{bytes_of, digit, halves, name_length, name_of, rest_of, shown_bytes};

use std::io::Read;
use std::{fmt, io};

/// How many bytes a line has behind its name.
pub const SIZE: usize = 960;

/// A line of a program's standard input: a name, a blank, and bytes. They are written as hexadecimal digits, two a byte, with '.' for sixteen zeros and ','
/// for eight; other characters say nothing, and zeros follow the last byte.
#[derive(Clone, Copy)]
pub struct Line<'a> {
    pub name: &'a [u8],
    pub bytes: [u8; SIZE],
}

impl<'a> From<&'a [u8]> for Line<'a> {
    ghost from_gives = { λ text line. (line.name.now ≡ name_of text.now) × (line.bytes ≡ bytes_of (rest_of text.now)) };

    fn from(text: &'a [u8]) -> Self {
        let (name, rest) = text.split_at(name_length(text));
        Line {
            name,
            bytes: bytes(rest),
        }
    }
}

/// Reads until buf is full or the input ends, and answers how many bytes of it were read.
pub fn read_full(input: &mut impl Read, buf: &mut [u8]) -> io::Result<usize>
    ensures { IfOk result (λ n. n ≤ length buf.new) }
{
    let mut done = 0;
    // No `for`: a read answers how many bytes came.
    while done < buf.len() {
        let n = input.read(&mut buf[done..])?;
        if n == 0 {
            break;
        }
        done += n;
    }
    Ok(done)
}

fn first(text: &[u8], c: u8) -> Option<usize>
    ensures place { result ≡ position (λ d. d == c) text.now }
    ensures bound { IfSome result (λ i. i < length text.now) }
{
    text.iter().position(|&d| d == c)
}

/// Where text has c first, from a place on; its end where it has none.
pub fn find(text: &[u8], from: usize, c: u8) -> usize
    requires { from ≤ length text.now }
    ensures bound { (from ≤ result) × (result ≤ length text.now) }
    ensures first { result ≡ from + unwrap_or (position (λ d. d == c) (drop from text.now)) (length text.now - from) }
{
    from + first(&text[from..], c).unwrap_or(text.len() - from)
}

// A name ends at the first blank.
fn name_length(text: &[u8]) -> usize
    ensures length { result ≡ name_length text.now }
    ensures bound { result ≤ length text.now }
{
    find(text, 0, b' ')
}

// What a hexadecimal digit stands for. Std's `to_digit` takes capitals, too, which say nothing here.
fn digit(c: u8) -> Option<u8>
    ensures { result ≡ digit c }
{
    match c {
        b'0'..=b'9' => Some(c - b'0'),
        b'a'..=b'f' => Some(c - b'a' + 10),
        _ => None,
    }
}

// How many half bytes a character stands for.
fn halves(c: u8) -> usize
    ensures { result ≡ halves c }
{
    match c {
        b'.' => 32,
        b',' => 16,
        b'0'..=b'9' | b'a'..=b'f' => 1,
        _ => 0,
    }
}

/// The bytes that characters stand for. Digits beyond the last byte are shifted into it.
pub fn bytes(text: &[u8]) -> [u8; SIZE]
    ensures { result ≡ bytes_of text.now }
{
    let mut bytes = [0u8; SIZE];
    let mut half = 0usize;
    for &c in text {
        if let Some(digit) = digit(c) {
            let byte = &mut bytes[(half / 2).min(SIZE - 1)];
            *byte = *byte % 16 * 16 + digit;
        }
        half = (half + halves(c)).min(2 * SIZE);
    }
    bytes
}

/// Bytes as hexadecimal digits.
#[derive(Clone, Copy)]
pub struct Hex<'a>(pub &'a [u8]);

impl fmt::Display for Hex<'_> {
    ghost output = { λ hex. Some (shown_bytes hex.0.now) };

    fn fmt<W: fmt::Write>(&self, f: &mut fmt::Formatter<W>) -> fmt::Result {
        for &byte in self.0 {
            write!(f, "{byte:02x}")?;
        }
        Ok(())
    }
}
