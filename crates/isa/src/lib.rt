// Key Locker instructions as they stand in a string, and their operands. Definitions and laws; the code is in `modrm`, `decoder`, `reader` and `address`.
#![tactic(auto)]

use fips197::{Direction, KeySize};

// The base of a memory place; a register is a number below 16.
#[derive(Clone, Copy)]
pub enum Base {
    None,
    Rip,
    Register(u8),
}

// The index, a register below 16. No Option<u8>: the definitions of specs/Decode.antt and specs/Address.antt speak of it.
#[derive(Clone, Copy)]
pub enum Index {
    None,
    Register(u8),
}

// The address size of 64-bit mode: 64 bits, or 32 with the address-size prefix 67.
#[derive(Clone, Copy)]
pub enum AddressSize {
    Bits64,
    Bits32,
}

// Base + index * 2^scale + displacement, which is sign-extended to 64 bits; as many bits of it as the address size has.
#[derive(Clone, Copy)]
pub struct MemoryPlace {
    pub base: Base,
    pub index: Index,
    pub scale: u8,
    pub address_size: AddressSize,
    pub displacement: u64,
}

#[derive(Clone, Copy)]
pub enum Operand {
    Register(u8),
    Memory(MemoryPlace),
}

// AESENC128KL, AESDEC128KL, AESENC256KL, AESDEC256KL: the block is an XMM register.
#[derive(Clone, Copy)]
pub struct Use {
    pub direction: Direction,
    pub size: KeySize,
    pub block: u8,
    pub handle: Operand,
}

// The wide forms: the blocks are XMM0 to XMM7.
#[derive(Clone, Copy)]
pub struct WideUse {
    pub direction: Direction,
    pub size: KeySize,
    pub handle: Operand,
}

// LOADIWKEY: both are XMM registers.
#[derive(Clone, Copy)]
pub struct LoadIwKey {
    pub src1: u8,
    pub src2: Operand,
}

// ENCODEKEY128, ENCODEKEY256: both are general registers.
#[derive(Clone, Copy)]
pub struct EncodeKey {
    pub size: KeySize,
    pub destination: u8,
    pub source: Operand,
}

#[derive(Clone, Copy)]
pub enum Instruction {
    Use(Use),
    WideUse(WideUse),
    LoadIwKey(LoadIwKey),
    EncodeKey(EncodeKey),
}

#[derive(Clone, Copy)]
pub enum Segment {
    Data,
    Stack,
}

// Where a handle is loaded from.
#[derive(Clone, Copy)]
pub struct Address {
    pub linear: u64,
    pub segment: Segment,
}

// ---- reading. The definitions of specs/Decode.antt speak of these five, so they stay as they are; code answers with Result and Option.

// What stands at a position, and the position behind it.
#[derive(Clone, Copy)]
pub enum Step {
    Byte { value: u8, next: usize },
    End,
}

// A displacement, sign-extended to 64 bits, and the position behind it.
#[derive(Clone, Copy)]
pub enum Displacement {
    Found { value: u64, next: usize },
    End,
}

// What the prefixes say: LOCK, the address size, and the bits R, X and B of REX.
#[derive(Clone, Copy)]
pub struct Prefixes {
    pub lock: bool,
    pub address_size: AddressSize,
    pub r: bool,
    pub x: bool,
    pub b: bool,
}

// The register of ModRM's reg field, the operand of its r/m field, and the position behind them.
#[derive(Clone, Copy)]
pub enum Operands {
    Found { reg: u8, rm: Operand, next: usize },
    End,
}

// An instruction, LOCK seen or not, and the position behind it; or a byte that no instruction has there; or the string's end inside an instruction; or no byte
// at all.
#[derive(Clone, Copy)]
pub enum Decoded {
    Found {
        what: Instruction,
        lock: bool,
        next: usize,
    },
    BadByte,
    EndOfString,
    Empty,
}
