// One instruction, over one IWKey, the CPU record, memory and random data.
#![tactic(auto)]

ghost use Rattle.std.specs.Prelude.{◌≡◌, ℕ, ◌+◌, ◌*◌, ◌≤◌, Bool, [], length};
ghost use Rattle.fips197.specs.Sizes.{nk};
ghost use Rattle.aes.specs.Meaning.{key_bytes};
ghost use Rattle.isa.specs.Ranges.{handle_length};
ghost use Rattle.isa.specs.declared.Decoded.TheVariants as decoded;
ghost use Rattle.keywrap.specs.Meaning.{handle_bytes};
ghost use Rattle.model.specs.Numbers.{part};
ghost use Rattle.model.specs.Forms as forms;
ghost use Rattle.model.specs.Instructions as instructions;
ghost use Rattle.loadiwkey.specs.Meaning.{random_data, executed};
ghost use Rattle.instructions.specs.Meaning.{PlacedAt, Within};

use aes::word::block_at;
use aes::{Block, Key};
use aeskl::{use_single, use_wide};
use cpu::{Cpu, put_rip, rip};
use encodekey::encode;
use fips197::KeySize;
use isa::{Instruction, Use, WideUse};
use keywrap::Handle;
use loadiwkey::load;
use model::IwKey;

// The key at a place of bytes; of 128 bits there is no high half to read. Bytes and a place, here and in the next, as the model's `part` has them: of a slice
// from the place on each part would again be at a place.
fn key_at(memory: &[u8], at: usize, size: KeySize) -> Key
    requires { at + 4 * nk size ≤ length memory.now }
    ensures { key_bytes size result ≡ part (4 * nk size) at memory.now }
{
    let low = block_at(memory, at);
    match size {
        KeySize::Aes128 => Key {
            low,
            high: Block::ZERO,
        },
        KeySize::Aes256 => Key {
            low,
            high: block_at(memory, at + 16),
        },
    }
}

/// The handle at a place of bytes, as of memory.
pub fn handle_at(memory: &[u8], at: usize, size: KeySize) -> Handle
    requires { at + handle_length size ≤ length memory.now }
    ensures { handle_bytes size result ≡ part (handle_length size) at memory.now }
{
    Handle {
        aad: block_at(memory, at),
        tag: block_at(memory, at + 16),
        ciphertext: key_at(memory, at + 32, size),
    }
}

// RIP moves past the instruction, modulo 2^64.
fn advance(cpu: &mut Cpu, bytes: u64)
    ensures { cpu.new ≡ instructions.advanced bytes cpu.old }
{
    let next = rip(cpu).wrapping_add(bytes);
    put_rip(cpu, next);
}

// ---- the instructions

// The four forms on one block. Two functions, since the definition of each form is its own: `forms::single`, `forms::wide`. That the handle lies inside is asked
// of each: memory and place are what they are handed on.
fn single(u: &Use, at: u64, memory: &[u8], k: &IwKey, cpu: &mut Cpu)
    requires { at + handle_length u.now.size ≤ length memory.now }
    ensures { (bytes : ℕ) → at ≡ (forms.handle_address cpu.old bytes u.now.handle).linear → cpu.new ≡ instructions.used memory.now bytes (forms.single u.now) k.now cpu.old }
{
    let h = handle_at(memory, at as usize, u.size);
    use_single(u.direction, u.size, u.block, k, &h, cpu);
}

// The four wide forms.
fn wide(u: &WideUse, at: u64, memory: &[u8], k: &IwKey, cpu: &mut Cpu)
    requires { at + handle_length u.now.size ≤ length memory.now }
    ensures { (bytes : ℕ) → at ≡ (forms.handle_address cpu.old bytes u.now.handle).linear → cpu.new ≡ instructions.used memory.now bytes (forms.wide u.now) k.now cpu.old }
{
    let h = handle_at(memory, at as usize, u.size);
    use_wide(u.direction, u.size, k, &h, cpu);
}

// What an instruction does but for RIP, and the IWKey after it.
fn act(
    what: &Instruction,
    at: u64,
    memory: &[u8],
    random: Option<&[u8; 48]>,
    k: &IwKey,
    cpu: &mut Cpu,
) -> IwKey
    requires { Within at (length memory.now) what.now }
    ensures { (bytes : ℕ) → PlacedAt at bytes what.now cpu.old → executed result cpu.new ≡ instructions.execute memory.now (random_data random.entry) what.now bytes k.now cpu.old }
{
    // By `match` and not by a trait over the four: uses are lent memory, a load random data, an encode neither.
    match what {
        Instruction::Use(u) => {
            single(u, at, memory, k, cpu);
            *k
        }
        Instruction::WideUse(u) => {
            wide(u, at, memory, k, cpu);
            *k
        }
        Instruction::LoadIwKey(l) => load(l, random, k, cpu),
        Instruction::EncodeKey(e) => {
            encode(e, k, cpu);
            *k
        }
    }
}

// What a step is lent goes on as C lends it, each part by itself: a struct would be taken apart where it is made.

/// An instruction of so many bytes that no refusal stops, and the IWKey after it: a use's handle lies in memory at `at`, where its operand says.
pub fn execute(
    what: &Instruction,
    bytes: u64,
    at: u64,
    memory: &[u8],
    random: Option<&[u8; 48]>,
    k: &IwKey,
    cpu: &mut Cpu,
) -> IwKey
    requires placed_at { PlacedAt at bytes what.now cpu.old }
    requires within { Within at (length memory.now) what.now }
    ensures { (lock : Bool) → executed result cpu.new ≡ instructions.stepped (record { processor = 0; cpu = cpu.old; memory = memory.now; random = random_data random.entry; string = [] }) k.now (decoded.Found what.now lock bytes) }
{
    let key = act(what, at, memory, random, k, cpu);
    advance(cpu, bytes);
    key
}
