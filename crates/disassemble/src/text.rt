// Instructions as text, in Intel's syntax.
use fips197::{Direction, KeySize};
use isa::{AddressSize, Base, Index, MemoryPlace, Operand};
use std::fmt;

// ---- registers

/// The kinds of registers, which differ in the names.
#[derive(Clone, Copy)]
enum Kind {
    Xmm,
    Bits64,
    Bits32,
}

/// A register of a kind, by its number.
#[derive(Clone, Copy)]
struct Register(Kind, u8);

// What the names of the first eight general registers end in.
const ENDINGS: [&str; 8] = ["ax", "cx", "dx", "bx", "sp", "bp", "si", "di"];

impl fmt::Display for Register {
    fn fmt<W: fmt::Write>(&self, f: &mut fmt::Formatter<W>) -> fmt::Result {
        match *self {
            Register(Kind::Xmm, n) => write!(f, "xmm{n}"),
            Register(Kind::Bits64, n @ 0..=7) => write!(f, "r{}", ENDINGS[n as usize]),
            Register(Kind::Bits64, n) => write!(f, "r{n}"),
            Register(Kind::Bits32, n @ 0..=7) => write!(f, "e{}", ENDINGS[n as usize]),
            Register(Kind::Bits32, n) => write!(f, "r{n}d"),
        }
    }
}

// ---- memory places: the parts that are there, with signs between them; 67 is told by 32-bit names

/// A memory place.
#[derive(Clone, Copy)]
struct Place(MemoryPlace);

impl fmt::Display for Place {
    fn fmt<W: fmt::Write>(&self, f: &mut fmt::Formatter<W>) -> fmt::Result {
        let MemoryPlace {
            base,
            index,
            scale,
            address_size,
            displacement,
        } = self.0;
        let (kind, ip) = match address_size {
            AddressSize::Bits64 => (Kind::Bits64, "rip"),
            AddressSize::Bits32 => (Kind::Bits32, "eip"),
        };
        f.write_str("[")?;
        match base {
            Base::None => {}
            Base::Rip => f.write_str(ip)?,
            Base::Register(n) => write!(f, "{}", Register(kind, n))?,
        }
        if let Index::Register(n) = index {
            if !matches!(base, Base::None) {
                f.write_str("+")?;
            }
            write!(f, "{}*{}", Register(kind, n), 1u8 << scale.min(3))?;
        }
        if matches!((base, index), (Base::None, Index::None)) {
            write!(f, "{}", Absolute(displacement, address_size))?;
        } else {
            write!(f, "{}", Displacement(displacement))?;
        }
        f.write_str("]")
    }
}

/// A displacement behind registers. One of 0 is left out.
#[derive(Clone, Copy)]
struct Displacement(u64);

impl fmt::Display for Displacement {
    fn fmt<W: fmt::Write>(&self, f: &mut fmt::Formatter<W>) -> fmt::Result {
        match self.0 {
            0 => Ok(()),
            d @ 0x8000_0000_0000_0000.. => write!(f, "-0x{:x}", d.wrapping_neg()),
            d => write!(f, "+0x{d:x}"),
        }
    }
}

/// A displacement without registers. With 67 it is the address itself; eiz is objdump's name for no register, and without it the place would look like one
/// without 67.
#[derive(Clone, Copy)]
struct Absolute(u64, AddressSize);

impl fmt::Display for Absolute {
    fn fmt<W: fmt::Write>(&self, f: &mut fmt::Formatter<W>) -> fmt::Result {
        match *self {
            Absolute(d, AddressSize::Bits32) => write!(f, "eiz*1+0x{:x}", d % 0x1_0000_0000),
            Absolute(d @ 0x8000_0000_0000_0000.., _) => write!(f, "{}", Displacement(d)),
            Absolute(d, _) => write!(f, "0x{d:x}"),
        }
    }
}

// ---- instructions

/// An operand, whose registers are of a kind.
#[derive(Clone, Copy)]
struct Shown(Kind, Operand);

impl fmt::Display for Shown {
    fn fmt<W: fmt::Write>(&self, f: &mut fmt::Formatter<W>) -> fmt::Result {
        match self.1 {
            Operand::Register(n) => write!(f, "{}", Register(self.0, n)),
            Operand::Memory(place) => write!(f, "{}", Place(place)),
        }
    }
}

// This and the next are no Display: the enums are those of `fips197`, which knows nothing of mnemonics.
fn cipher(direction: Direction) -> &'static str {
    match direction {
        Direction::Encrypt => "aesenc",
        Direction::Decrypt => "aesdec",
    }
}

fn bits(size: KeySize) -> usize {
    32 * size.words()
}

/// An instruction's mnemonic and operands.
#[derive(Clone, Copy)]
pub struct Instruction(pub isa::Instruction);

impl fmt::Display for Instruction {
    fn fmt<W: fmt::Write>(&self, f: &mut fmt::Formatter<W>) -> fmt::Result {
        match self.0 {
            isa::Instruction::Use(u) => {
                let handle = Shown(Kind::Xmm, u.handle);
                write!(
                    f,
                    "{}{}kl {}, {handle}",
                    cipher(u.direction),
                    bits(u.size),
                    Register(Kind::Xmm, u.block)
                )
            }
            isa::Instruction::WideUse(u) => {
                let handle = Shown(Kind::Xmm, u.handle);
                write!(f, "{}wide{}kl {handle}", cipher(u.direction), bits(u.size))
            }
            isa::Instruction::LoadIwKey(l) => {
                write!(
                    f,
                    "loadiwkey {}, {}",
                    Register(Kind::Xmm, l.src1),
                    Shown(Kind::Xmm, l.src2)
                )
            }
            isa::Instruction::EncodeKey(e) => {
                let source = Shown(Kind::Bits32, e.source);
                write!(
                    f,
                    "encodekey{} {}, {source}",
                    bits(e.size),
                    Register(Kind::Bits32, e.destination)
                )
            }
        }
    }
}
