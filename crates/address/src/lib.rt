// Addresses of handles: where a memory place is, and whether every byte of a handle there can be loaded.
#![tactic(auto)]

ghost use Rattle.std.specs.Prelude.{◌≡◌, ◌*◌, ◌%◌, ◌^◌, ◌<◌};
ghost use Rattle.isa.specs.Address as isa;
ghost use Rattle.isa.specs.Ranges.{handle_length, some_not_canonical, some_outside};
ghost use Rattle.isa.specs.Ranges as ranges;
ghost use Rattle.model.specs.Cpu as cpu_record;

use cpu::{Cpu, register, rip};
use fips197::KeySize;
use isa::{Address, AddressSize, Base, Index, MemoryPlace, Segment};

fn base_value(cpu: &Cpu, next: u64, base: Base) -> u64
    ensures { result ≡ isa.base_value (λ n. cpu_record.register n cpu.now) next base }
{
    match base {
        Base::None => 0,
        Base::Rip => next,
        Base::Register(n) => register(cpu, n % 16),
    }
}

fn index_value(cpu: &Cpu, index: Index) -> u64
    ensures { result ≡ isa.index_value (λ n. cpu_record.register n cpu.now) index }
{
    match index {
        Index::None => 0,
        Index::Register(n) => register(cpu, n % 16),
    }
}

fn scaled(x: u64, scale: u8) -> u64
    ensures { result ≡ x * 2 ^ (scale % 4) % 2 ^ 64 }
{
    x << (scale % 4)
}

fn segment_of(base: Base) -> Segment
    ensures { result ≡ isa.segment_of base }
{
    match base {
        Base::Register(n) if n % 16 == 4 || n % 16 == 5 => Segment::Stack,
        _ => Segment::Data,
    }
}

// As many bits of an address as the address size has.
fn narrowed(a: u64, size: AddressSize) -> u64
    ensures { result ≡ a % 2 ^ isa.address_bits size }
{
    match size {
        AddressSize::Bits64 => a,
        AddressSize::Bits32 => a % 0x1_0000_0000,
    }
}

/// The address and the segment of a memory place, for an instruction of so many bytes; of the registers only base and index are read.
#[tactic(auto, unfolding(isa::specs::Address::effective_address))]
pub fn effective_address(cpu: &Cpu, bytes: u64, place: &MemoryPlace) -> Address
    ensures value { result ≡ isa.effective_address (λ n. cpu_record.register n cpu.now) (cpu_record.rip cpu.now) bytes place.now }
    ensures linear_bound { result.linear < 2 ^ isa.address_bits place.now.address_size }
{
    let MemoryPlace {
        base,
        index,
        scale,
        address_size,
        displacement,
    } = *place;
    let start = rip(cpu);
    let next = start.wrapping_add(bytes);
    let offset = scaled(index_value(cpu, index), scale);
    let sum = base_value(cpu, next, base).wrapping_add(offset);
    let full = sum.wrapping_add(displacement);
    Address {
        linear: narrowed(full, address_size),
        segment: segment_of(base),
    }
}

// AAD and tag, and the key's words.
fn handle_length(size: KeySize) -> u64
    ensures { result ≡ handle_length size }
{
    32 + 4 * size.words() as u64
}

fn canonical(a: u64) -> bool
    ensures { result ≡ ranges.canonical a }
{
    matches!(a / 0x8000_0000_0000, 0 | 0x1FFFF)
}

/// A byte of the handle at an address is not canonical.
pub fn some_not_canonical(a: u64, size: KeySize) -> bool
    ensures { result ≡ some_not_canonical a (handle_length size) }
{
    let last = a.wrapping_add(handle_length(size) - 1);
    !(canonical(a) && canonical(last))
}

/// A byte of the handle at an address is outside a memory of so many bytes.
#[tactic(auto, using(isa::proofs::Ranges::outside_ends, isa::proofs::Ranges::difference, isa::proofs::Ranges::length_some))]
pub fn some_outside(memory: u64, a: u64, size: KeySize) -> bool
    ensures { result ≡ some_outside memory a (handle_length size) }
{
    memory < a || memory - a < handle_length(size)
}
