// The CPU record: what stands in its 408 bytes, read and written in place. Its length is in its type: who is lent bytes by C turns those of another length
// back.
#![tactic(auto)]

ghost use Rattle.std.specs.Prelude.{◌≡◌, cond, ◌+◌, ◌%◌, ◌<◌, ◌≤◌};
ghost use Rattle.std.proofs.lemmas.List.Edits.{sets};
ghost use Rattle.bits.specs.Words.{le_bytes, le_value};
ghost use Rattle.aes.specs.Meaning.{bytes_of};
ghost use Rattle.model.specs.Numbers as numbers;
ghost use Rattle.model.specs.Numbers.{clear_bit, part as part_of};
ghost use Rattle.model.specs.Cpu as cpuRecord;
ghost use Rattle.model.specs.Forms.{key_source, no_backup_bit, register_of};

use aes::Block;
use aes::word::{block_at, put_block};
use isa::Operand;
use parts::{part, put_part};

/// The record's bytes. An alias and no struct with methods: C lends the record, which `as_array` and `as_mut_array` show as an array where it lies. A struct
/// would hold a copy of it, or a `&mut` to it, and a read of the array through a `&self` of that is not proved.
pub type Cpu = [u8; 408];

// Where the fields of the record stand.
const REGISTERS: usize = 16 * 16;

const RIP: usize = REGISTERS + 16 * 8;

const RFLAGS: usize = RIP + 8;

const CPL: usize = RFLAGS + 8;

const CONTROL: usize = CPL + 1;

const ZEROS: usize = CONTROL + 1;

// Control bits of the record.
pub const CR4_KL: u8 = 0;

pub const CR4_OSFXSR: u8 = 1;

pub const CR0_EM: u8 = 2;

pub const CR0_TS: u8 = 3;

// A bit of a byte, by its number, which has three bits.
pub fn bit(i: u8, x: u8) -> bool
    ensures { result ≡ numbers.bit (i % 8) x }
{
    (x >> (i % 8)) % 2 == 1
}

// ---- numbers of eight bytes. Record and place stand side by side, as `parts` takes them: a slice from the place on would lose the length that the type says.

fn number_at(cpu: &Cpu, at: usize) -> u64
    requires { at + 8 ≤ 408 }
    ensures { result ≡ le_value (part_of 8 at cpu.now) }
{
    u64::from_le_bytes(part(cpu, at))
}

fn put_number(cpu: &mut Cpu, at: usize, x: u64)
    requires { at + 8 ≤ 408 }
    ensures { cpu.new ≡ sets cpu.old at (le_bytes 8 x) }
{
    put_part(cpu, at, &x.to_le_bytes());
}

// ---- XMM registers

pub fn xmm(cpu: &Cpu, n: u8) -> Block
    ensures { bytes_of result ≡ cpuRecord.xmm n cpu.now }
{
    block_at(cpu, 16 * (n % 16) as usize)
}

pub fn put_xmm(cpu: &mut Cpu, n: u8, b: Block)
    ensures { cpu.new ≡ cpuRecord.with_xmm n (bytes_of b) cpu.old }
{
    put_block(cpu, 16 * (n % 16) as usize, b);
}

// ---- general registers, RIP and RFLAGS

pub fn register(cpu: &Cpu, n: u8) -> u64
    ensures { result ≡ cpuRecord.register n cpu.now }
{
    number_at(cpu, REGISTERS + 8 * (n % 16) as usize)
}

pub fn put_register(cpu: &mut Cpu, n: u8, x: u64)
    ensures { cpu.new ≡ cpuRecord.with_register n x cpu.old }
{
    put_number(cpu, REGISTERS + 8 * (n % 16) as usize, x);
}

/// What LOADIWKEY takes its options from.
pub fn eax(cpu: &Cpu) -> u32
    ensures { result ≡ cpuRecord.eax cpu.now }
{
    (register(cpu, 0) % 0x1_0000_0000) as u32
}

/// EAX bits 4:1.
pub fn key_source(cpu: &Cpu) -> u8
    ensures { result ≡ key_source cpu.now }
{
    (eax(cpu) / 2 % 16) as u8
}

/// EAX bit 0.
pub fn no_backup(cpu: &Cpu) -> u8
    ensures { result ≡ no_backup_bit cpu.now }
{
    (eax(cpu) % 2) as u8
}

/// The register that an operand names.
pub fn register_of(operand: &Operand) -> u8
    ensures { result ≡ register_of operand.now }
{
    match operand {
        Operand::Register(n) => *n,
        Operand::Memory(_) => 0,
    }
}

pub fn rip(cpu: &Cpu) -> u64
    ensures { result ≡ cpuRecord.rip cpu.now }
{
    number_at(cpu, RIP)
}

pub fn put_rip(cpu: &mut Cpu, x: u64)
    ensures { cpu.new ≡ cpuRecord.with_rip x cpu.old }
{
    put_number(cpu, RIP, x);
}

// A bit of a number made 0.
fn clear_bit(i: u32, x: u64) -> u64
    requires { i < 64 }
    ensures { result ≡ clear_bit i x }
{
    x - (x >> i) % 2 * (1 << i)
}

// ZF as told, the other five flags, CF, PF, AF, SF and OF, 0.
fn flags(zf: bool, x: u64) -> u64
    ensures { result ≡ cpuRecord.flags (cond zf 1 0) x }
{
    let cleared = clear_bit(
        0,
        clear_bit(
            2,
            clear_bit(4, clear_bit(6, clear_bit(7, clear_bit(11, x)))),
        ),
    );
    if zf { cleared + 64 } else { cleared }
}

pub fn put_zf(cpu: &mut Cpu, zf: bool)
    ensures { cpu.new ≡ cpuRecord.with_zf (cond zf 1 0) cpu.old }
{
    let x = number_at(cpu, RFLAGS);
    put_number(cpu, RFLAGS, flags(zf, x));
}

// ---- CPL, control bits and the zero fields

pub fn cpl(cpu: &Cpu) -> u8
    ensures { result ≡ cpuRecord.cpl cpu.now }
{
    cpu[CPL]
}

pub fn control(cpu: &Cpu) -> u8
    ensures { result ≡ cpuRecord.control cpu.now }
{
    cpu[CONTROL]
}

fn zero_field_set(cpu: &Cpu) -> bool
    ensures { result ≡ cpuRecord.zero_field_set cpu.now }
{
    cpu[CONTROL] >= 16 || part::<6>(cpu, ZEROS) != [0; 6]
}

// Refusal 5 of a record.
pub fn bad_record(cpu: &Cpu) -> bool
    ensures { result ≡ cpuRecord.bad_record cpu.now }
{
    cpl(cpu) > 3 || zero_field_set(cpu)
}
