// A reader of instruction strings, and what it reads behind an opcode: ModRM, SIB and displacement.
#![tactic(auto)]

ghost use Rattle.std.specs.Prelude.{◌≡◌, ◌+◌, ℕ, IfErr, IfOk};
ghost use Rattle.isa.specs.Decode as isa;
ghost use Rattle.modrm.specs.Read.{displacement_of, expected, memory_at, operands_of, optional, place_of, skipped, step_of};
ghost use Rattle.modrm.specs.declared.Malformed.TheVariants.{EndOfString};

use isa::{Base, Index, MemoryPlace, Operand, Prefixes};
use refusal::Refusal;

/// Why a string is turned back.
#[derive(Clone, Copy)]
pub enum Malformed {
    /// A byte that no instruction has there.
    BadByte,
    /// The string ends inside an instruction.
    EndOfString,
}

impl From<Malformed> for Refusal {
    ghost use Rattle.modrm.specs.Read.{Becomes};

    ghost from_gives = { Becomes };

    fn from(why: Malformed) -> Refusal {
        match why {
            Malformed::BadByte => Refusal::BadByte,
            Malformed::EndOfString => Refusal::EndOfString,
        }
    }
}

/// An instruction string and the place up to which it was read.
#[derive(Clone, Copy)]
pub struct Reader<'a> {
    pub string: &'a [u8],
    pub at: usize,
}

/// What a ModRM byte names: the register of its reg field, and the operand of its r/m field.
#[derive(Clone, Copy)]
pub struct ModRm {
    pub reg: u8,
    pub rm: Operand,
}

// A register number of three bits, extended by a bit of REX.
fn extended(bit: bool, n: u8) -> u8
    ensures { result ≡ isa.extended bit n }
{
    if bit { n % 8 + 8 } else { n % 8 }
}

#[tactic(auto, unfolding(isa::specs::Decode::index_of))]
fn index_of(prefixes: &Prefixes, sib: u8) -> Index
    ensures { result ≡ isa.index_of prefixes.now sib }
{
    match extended(prefixes.x, sib / 8) {
        4 => Index::None,
        register => Index::Register(register),
    }
}

// Sign-extended to 64 bits. This and the next are two, as isa's definitions are: each type has casts of its own.
fn signed_8(byte: u8) -> u64
    ensures { result ≡ isa.signed8 byte }
{
    i64::from(byte.cast_signed()).cast_unsigned()
}

fn signed_32(word: u32) -> u64
    ensures { result ≡ isa.signed32 word }
{
    i64::from(word.cast_signed()).cast_unsigned()
}

impl Reader<'_> {
    /// The next byte, which is left where it is.
    pub fn peek(&self) -> Result<u8, Malformed>
        ensures error { IfErr result (λ e. e ≡ EndOfString) }
        ensures value { step_of result (self.now.at + 1) ≡ isa.byte_at self.now.string.now self.now.at }
    {
        self.string
            .get(self.at)
            .copied()
            .ok_or(Malformed::EndOfString)
    }

    /// The next byte. At the string's end the place stays.
    pub fn byte(&mut self) -> Result<u8, Malformed>
        ensures string { self.new.string ≡ self.old.string }
        ensures error { IfErr result (λ e. (e ≡ EndOfString) × (self.new.at ≡ self.old.at)) }
        ensures value { step_of result self.new.at ≡ isa.byte_at self.old.string.now self.old.at }
    {
        let b = self.peek()?;
        self.at += 1;
        Ok(b)
    }

    /// A byte that has to be there. Where another is there, or none, the place stays.
    pub fn expect(&mut self, wanted: u8) -> Result<(), Malformed>
        ensures string { self.new.string ≡ self.old.string }
        ensures value { result ≡ expected wanted (isa.byte_at self.old.string.now self.old.at) }
        ensures place { IfOk result (λ _. self.new.at ≡ self.old.at + 1) }
        ensures error { IfErr result (λ _. self.new.at ≡ self.old.at) }
    {
        if !self.skip(wanted)? {
            return Err(Malformed::BadByte);
        }
        Ok(())
    }

    /// Whether the next byte is this one. It is read if so, and else left where it is.
    pub fn skip(&mut self, wanted: u8) -> Result<bool, Malformed>
        ensures string { self.new.string ≡ self.old.string }
        ensures value { result ≡ optional wanted (isa.byte_at self.old.string.now self.old.at) }
        ensures place { self.new.at ≡ skipped result self.old.at }
    {
        let there = self.peek()? == wanted;
        if there {
            self.at += 1;
        }
        Ok(there)
    }

    // One byte, sign-extended. This and the next are two, as isa's definitions are: the one reads a byte, the other takes four at once.
    fn displacement_8(&mut self) -> Result<u64, Malformed>
        ensures string { self.new.string ≡ self.old.string }
        ensures error { IfErr result (λ e. e ≡ EndOfString) }
        ensures value { displacement_of result self.new.at ≡ isa.displacement8 self.old.string.now self.old.at }
    {
        let byte = self.byte()?;
        Ok(signed_8(byte))
    }

    // Four bytes, sign-extended.
    #[tactic(auto, unfolding(isa::specs::Decode::displacement32))]
    fn displacement_32(&mut self) -> Result<u64, Malformed>
        ensures string { self.new.string ≡ self.old.string }
        ensures error { IfErr result (λ e. e ≡ EndOfString) }
        ensures value { displacement_of result self.new.at ≡ isa.displacement32 self.old.string.now self.old.at }
    {
        let rest = self.string.get(self.at..);
        let bytes = rest.and_then(|rest| rest.first_chunk());
        let bytes = bytes.ok_or(Malformed::EndOfString)?;
        self.at += 4;
        Ok(signed_32(u32::from_le_bytes(*bytes)))
    }

    // As mod says: one byte, four, or none.
    #[tactic(auto, unfolding(isa::specs::Decode::displacement_at))]
    fn displacement(&mut self, mode: u8) -> Result<u64, Malformed>
        ensures string { self.new.string ≡ self.old.string }
        ensures error { IfErr result (λ e. e ≡ EndOfString) }
        ensures value { displacement_of result self.new.at ≡ isa.displacement_at self.old.string.now self.old.at mode }
    {
        match mode {
            1 => self.displacement_8(),
            2 => self.displacement_32(),
            _ => Ok(0),
        }
    }

    // The memory place of the SIB byte at its place.
    #[tactic(auto, unfolding(isa::specs::Decode::sib_of))]
    fn sib(&mut self, prefixes: &Prefixes, mode: u8) -> Result<MemoryPlace, Malformed>
        ensures string { self.new.string ≡ self.old.string }
        ensures error { IfErr result (λ e. e ≡ EndOfString) }
        ensures value { (reg : ℕ) → place_of reg result self.new.at ≡ isa.sib_from self.old.string.now prefixes.now mode reg (isa.byte_at self.old.string.now self.old.at) }
    {
        let sib = self.byte()?;
        let (base, displacement) = if mode == 0 && sib % 8 == 5 {
            (Base::None, self.displacement_32()?)
        } else {
            let base = extended(prefixes.b, sib);
            (Base::Register(base), self.displacement(mode)?)
        };
        Ok(MemoryPlace {
            base,
            index: index_of(prefixes, sib),
            scale: sib / 64,
            address_size: prefixes.address_size,
            displacement,
        })
    }

    // The memory place of a ModRM byte whose mod is not 3.
    fn memory(&mut self, prefixes: &Prefixes, modrm: u8) -> Result<MemoryPlace, Malformed>
        ensures string { self.new.string ≡ self.old.string }
        ensures error { IfErr result (λ e. e ≡ EndOfString) }
        ensures value { (reg : ℕ) → place_of reg result self.new.at ≡ memory_at self.old.string.now self.old.at prefixes.now modrm reg }
    {
        let mode = modrm / 64;
        if modrm % 8 == 4 {
            return self.sib(prefixes, mode);
        }
        let (base, displacement) = if mode == 0 && modrm % 8 == 5 {
            (Base::Rip, self.displacement_32()?)
        } else {
            let base = extended(prefixes.b, modrm);
            (Base::Register(base), self.displacement(mode)?)
        };
        Ok(MemoryPlace {
            base,
            index: Index::None,
            scale: 0,
            address_size: prefixes.address_size,
            displacement,
        })
    }

    /// What the ModRM byte before its place names, with the SIB byte and the displacement that it has behind it. Where the string ends among them, the place
    /// stays.
    #[tactic(auto, unfolding(isa::specs::Decode::modrm_of))]
    pub fn operands(&mut self, prefixes: &Prefixes, modrm: u8) -> Result<ModRm, Malformed>
        ensures string { self.new.string ≡ self.old.string }
        ensures error { IfErr result (λ e. (e ≡ EndOfString) × (self.new.at ≡ self.old.at)) }
        ensures value { operands_of result self.new.at ≡ isa.modrm_of self.old.string.now self.old.at prefixes.now modrm }
    {
        let rm = if modrm / 64 == 3 {
            Operand::Register(extended(prefixes.b, modrm))
        } else {
            // Read ahead on a copy, which takes over where nothing is missing.
            let mut ahead = *self;
            let place = ahead.memory(prefixes, modrm)?;
            *self = ahead;
            Operand::Memory(place)
        };
        let reg = extended(prefixes.r, modrm / 8);
        Ok(ModRm { reg, rm })
    }
}
