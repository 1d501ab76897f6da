// A line of hexadecimal digits, and the answer to it.
use crate::text::Instruction;
use arrayvec::ArrayVec;
use reader::decode;
use refusal::Refusal;
use std::fmt;

/// The characters of a line that count, the first 32: no instruction has more than 13 bytes, and bytes after an instruction are ignored.
#[derive(Drop)]
pub struct Line {
    characters: ArrayVec<u8, 32>,
}

impl Line {
    pub fn new() -> Line {
        Line {
            characters: ArrayVec::new(),
        }
    }

    pub fn is_empty(&self) -> bool {
        self.characters.is_empty()
    }

    /// One more character, which has no place in a full line.
    pub fn push(&mut self, c: u8) {
        if !self.characters.is_full() {
            self.characters.push(c);
        }
    }
}

/// What the line answers: its instruction, or why it holds none. A line that has another character than 0 to 9, a to f and A to F among those that count, or
/// that ends with half a byte, is answered by "not hexadecimal".
impl fmt::Display for Line {
    fn fmt<W: fmt::Write>(&self, f: &mut fmt::Formatter<W>) -> fmt::Result {
        let mut bytes = [0u8; 16];
        let string = &mut bytes[..self.characters.len() / 2];
        if hex::decode_to_slice(&self.characters[..], string).is_err() {
            return f.write_str("not hexadecimal");
        }
        match decode(string) {
            Ok(Some(found)) => {
                if found.lock {
                    f.write_str("lock ")?;
                }
                write!(f, "{} ; {} bytes", Instruction(found.what), found.bytes)
            }
            Ok(None) => f.write_str("idle ; 0 bytes"),
            Err(why) => write!(f, "refused {}", Refusal::from(why).number()),
        }
    }
}
