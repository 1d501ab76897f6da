// The decoder of instruction strings, from the prefixes to ModRM.
#![tactic(auto)]

ghost use Rattle.std.specs.Prelude.{◌≡◌, ◌<◌, length, IfOk};
ghost use Rattle.decoder.specs.Read.{behind, decoded_of, found_of, prefixed};
ghost use Rattle.isa.specs.Decode as isa;

use fips197::{Direction, KeySize};
use isa::{AddressSize, EncodeKey, Instruction, LoadIwKey, Prefixes, Use, WideUse};
use modrm::{Malformed, ModRm, Reader};

/// An instruction, LOCK seen or not, and the place behind it: from the string's start, its number of bytes.
#[derive(Clone, Copy)]
pub struct Found {
    pub what: Instruction,
    pub lock: bool,
    pub bytes: usize,
}

fn is_opcode(b: u8) -> bool
    ensures { result ≡ isa.opcode b }
{
    matches!(b, 0xDC..=0xDF | 0xD8 | 0xFA | 0xFB)
}

// The ModRM bytes that each opcode has.
fn is_allowed(opcode: u8, modrm: u8) -> bool
    ensures { result ≡ isa.allowed opcode modrm }
{
    match opcode {
        0xDC => true,
        0xDD..=0xDF => modrm < 0xC0,
        0xD8 => modrm < 0xC0 && modrm / 8 % 8 < 4,
        0xFA.. => 0xC0 <= modrm,
        _ => false,
    }
}

// This and the next are no From<u8>: the enums are those of `fips197`, which knows nothing of opcodes.
fn direction_of(n: u8) -> Direction
    ensures { result ≡ isa.direction_of n }
{
    match n % 2 {
        0 => Direction::Encrypt,
        _ => Direction::Decrypt,
    }
}

fn size_of(n: u8) -> KeySize
    ensures { result ≡ isa.size_of n }
{
    match n % 2 {
        0 => KeySize::Aes128,
        _ => KeySize::Aes256,
    }
}

#[tactic(auto, unfolding(isa::specs::Decode::instruction_of))]
fn instruction_of(opcode: u8, modrm: u8, operands: ModRm) -> Instruction
    ensures { result ≡ isa.instruction_of opcode modrm operands.reg operands.rm }
{
    let ModRm { reg, rm } = operands;
    match opcode {
        0xD8 => Instruction::WideUse(WideUse {
            direction: direction_of(modrm / 8),
            size: size_of(modrm / 16),
            handle: rm,
        }),
        0xFA.. => Instruction::EncodeKey(EncodeKey {
            size: size_of(opcode),
            destination: reg,
            source: rm,
        }),
        _ if 0xC0 <= modrm => Instruction::LoadIwKey(LoadIwKey {
            src1: reg,
            src2: rm,
        }),
        _ => Instruction::Use(Use {
            direction: direction_of(opcode),
            size: size_of(opcode / 2),
            block: reg,
            handle: rm,
        }),
    }
}

// At most one REX byte, 0100WRXB, beside what was read before it.
fn rex(reader: &mut Reader, lock: bool, address_size: AddressSize) -> Result<Prefixes, Malformed>
    ensures string { reader.new.string ≡ reader.old.string }
    ensures value { prefixed reader.old.string.now result reader.new.at ≡ isa.rex_from reader.old.string.now lock address_size (isa.byte_at reader.old.string.now reader.old.at) }
{
    let b = reader.peek()?;
    let there = b / 16 == 4;
    if there {
        reader.byte()?;
    }
    Ok(Prefixes {
        lock,
        address_size,
        r: there && b / 4 % 2 == 1,
        x: there && b / 2 % 2 == 1,
        b: there && b % 2 == 1,
    })
}

// F0, 67, F3 and REX, in this order; all but F3 may be absent.
fn prefixes(reader: &mut Reader) -> Result<Prefixes, Malformed>
    requires { reader.old.at < length reader.old.string.now }
    ensures string { reader.new.string ≡ reader.old.string }
    ensures value { prefixed reader.old.string.now result reader.new.at ≡ isa.lock_from reader.old.string.now (isa.byte_at reader.old.string.now reader.old.at) }
{
    let lock = reader.skip(0xF0)?;
    let address_size = if reader.skip(0x67)? {
        AddressSize::Bits32
    } else {
        AddressSize::Bits64
    };
    reader.expect(0xF3)?;
    rex(reader, lock, address_size)
}

// What stands behind the prefixes: 0F 38, opcode, ModRM and what that has behind it.
fn instruction(reader: &mut Reader, prefixes: &Prefixes) -> Result<Found, Malformed>
    ensures string { reader.new.string ≡ reader.old.string }
    ensures value { found_of result ≡ isa.escape_from reader.old.string.now prefixes.now (isa.byte_at reader.old.string.now reader.old.at) }
    ensures place { IfOk result (λ found. reader.new.at ≡ found.bytes) }
{
    reader.expect(0x0F)?;
    reader.expect(0x38)?;
    let opcode = reader.byte()?;
    if !is_opcode(opcode) {
        return Err(Malformed::BadByte);
    }
    let modrm = reader.byte()?;
    if !is_allowed(opcode, modrm) {
        return Err(Malformed::BadByte);
    }
    let operands = reader.operands(prefixes, modrm)?;
    Ok(Found {
        what: instruction_of(opcode, modrm, operands),
        lock: prefixes.lock,
        bytes: reader.at,
    })
}

/// The instruction at the reader's place; none at the string's end. The reader then stands behind it; a refused call, and one at the string's end, leave it
/// where it was.
pub fn decode(reader: &mut Reader) -> Result<Option<Found>, Malformed>
    ensures string { reader.new.string ≡ reader.old.string }
    ensures value { decoded_of result ≡ isa.decode_at reader.old.string.now reader.old.at }
    ensures place { reader.new.at ≡ behind (decoded_of result) reader.old.at }
{
    let mut ahead = *reader;
    let found = decode_ahead(&mut ahead)?;
    *reader = ahead;
    Ok(found)
}

// The same by a reader that is let go where the string is turned back: it may then stand anywhere.
#[tactic(auto, unfolding(isa::specs::Decode::decode_at))]
fn decode_ahead(reader: &mut Reader) -> Result<Option<Found>, Malformed>
    ensures string { reader.new.string ≡ reader.old.string }
    ensures value { decoded_of result ≡ isa.decode_at reader.old.string.now reader.old.at }
    ensures place { IfOk result (λ _. reader.new.at ≡ behind (decoded_of result) reader.old.at) }
{
    if reader.at >= reader.string.len() {
        return Ok(None);
    }
    let prefixes = prefixes(reader)?;
    let found = instruction(reader, &prefixes)?;
    Ok(Some(found))
}
