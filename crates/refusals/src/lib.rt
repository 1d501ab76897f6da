// The tests 3 to 7 and 10 to 14, by the numbers of crate `refusal` and in their order, and those that the register calls, CPUID and the counter call share with
// them; 8 and 9 are the decoder's, which answers Malformed. Each function stops at the first of its tests that holds.
#![tactic(auto)]

pub mod theorems;

ghost use Rattle.std.specs.Prelude.{◌≡◌, true, false, ◌||◌, not, [], ◌∷◌, leb, ltb, IfOk};
ghost use Rattle.model.specs.Calls.{read, write};
ghost use Rattle.model.specs.Execution.{view_of};
ghost use Rattle.model.specs.Forms.{handle_address, form_of};
ghost use Rattle.model.specs.Refusals.{test, first, random_length, needs_firmware, needs_wide, invalid_opcode, no_math, load_fault, encode_fault, canonical_fault, outside, no_registers, refusal};
ghost use Rattle.refusal.specs.Numbers.{answer_of};
ghost use Rattle.refusals.specs.Parts.{record_tests, length_tests, lent_tests, operand_tests, instruction_tests, single_tests, loaded_from};

use address::{effective_address, some_not_canonical, some_outside};
use cpu::{
    CR0_EM, CR0_TS, CR4_KL, CR4_OSFXSR, Cpu, bad_record, bit, control, cpl, eax, key_source,
    no_backup, register, register_of,
};
use decoder::Found;
use fips197::KeySize;
use isa::{Address, Instruction, Operand, Segment, Use, WideUse};
use model::{
    BACKUP_REGISTERS, FIRMWARE_ENABLED, KEY_LOCKER, Machine, NO_BACKUP, RANDOM_SOURCE, WIDE_FORMS,
};
use refusal::{Refusal, refuse_if};

const MEMORY_LIMIT: usize = 1048576;

const RANDOM_SIZE: usize = 48;

/// What the tests look at in a machine. The processor's number is the call's and no part of it.
#[derive(Clone, Copy)]
pub struct View {
    pub count: u8,
    pub features: u8,
}

impl From<&Machine> for View {
    ghost from_gives = { λ m view. record { count = view.count; features = view.features } ≡ view_of m.now };

    fn from(m: &Machine) -> View {
        View {
            count: m.count,
            features: m.features,
        }
    }
}

// ---- records

/// 4 and 5: all that CPUID and the counter call ask of a CPU record.
pub fn ask_record(cpu: &[u8]) -> Result<&Cpu, Refusal>
    ensures number { answer_of result ≡ first (record_tests cpu.now) }
    ensures record { IfOk result (λ r. r.now ≡ cpu.now) }
{
    let cpu: &Cpu = cpu.as_array().ok_or(Refusal::CpuLength)?;
    refuse_if(bad_record(cpu), Refusal::CpuRecord)?;
    Ok(cpu)
}

/// 3.
pub fn ask_processor(view: View, processor: u8) -> Result<(), Refusal>
    ensures { answer_of result ≡ first (test 3 (leb view.count processor) ∷ []) }
{
    refuse_if(view.count <= processor, Refusal::Processor)
}

fn random_length(random: usize) -> bool
    ensures { result ≡ random_length random }
{
    matches!(random, 0 | RANDOM_SIZE)
}

// 6 and 7.
fn ask_lengths(memory: usize, random: usize) -> Result<(), Refusal>
    ensures { answer_of result ≡ first (length_tests memory random) }
{
    refuse_if(memory > MEMORY_LIMIT, Refusal::MemoryLength)?;
    refuse_if(!random_length(random), Refusal::RandomLength)
}

/// 3 to 7: what is lent to a step. Guest memory and random data are told by their lengths.
#[tactic(auto, using(crate::proofs::Parts::by_record))]
pub fn ask_records(
    view: View,
    processor: u8,
    cpu: &[u8],
    memory: usize,
    random: usize,
) -> Result<(), Refusal>
    ensures { answer_of result ≡ first (lent_tests view.count processor cpu.now memory random) }
{
    ask_processor(view, processor)?;
    ask_record(cpu)?;
    ask_lengths(memory, random)
}

// ---- 10 to 14. Of a view they look at the features alone, so these alone are passed on.

fn needs_firmware(what: &Instruction) -> bool
    ensures { result ≡ needs_firmware what.now }
{
    !matches!(what, Instruction::LoadIwKey(_))
}

fn needs_wide(what: &Instruction) -> bool
    ensures { result ≡ needs_wide what.now }
{
    matches!(what, Instruction::WideUse(_))
}

/// 10, #UD.
pub fn invalid_opcode(features: u8, control: u8, lock: bool, firmware: bool, wide: bool) -> bool
    ensures { result ≡ invalid_opcode features control lock firmware wide }
{
    lock || !bit(KEY_LOCKER, features)
        || !bit(CR4_KL, control)
        || bit(CR0_EM, control)
        || !bit(CR4_OSFXSR, control)
        || firmware && !bit(FIRMWARE_ENABLED, features)
        || wide && !bit(WIDE_FORMS, features)
}

/// 11, #NM.
pub fn no_math(control: u8) -> bool
    ensures { result ≡ no_math control }
{
    bit(CR0_TS, control)
}

/// 10 and 11 as for AESENC128KL and AESENC256KL, which the counter call asks: the wide feature is not needed.
pub fn ask_single(features: u8, control: u8) -> Result<(), Refusal>
    ensures { answer_of result ≡ first (single_tests features control) }
{
    let invalid = invalid_opcode(features, control, false, true, false);
    refuse_if(invalid, Refusal::InvalidOpcode)?;
    refuse_if(no_math(control), Refusal::NoMath)
}

// What LOADIWKEY has of 12.
fn load_fault(features: u8, cpu: &Cpu) -> bool
    ensures { result ≡ load_fault features cpu.now }
{
    cpl(cpu) > 0
        || key_source(cpu) > 1
        || eax(cpu) / 32 != 0
        || no_backup(cpu) == 1 && !bit(NO_BACKUP, features)
        || key_source(cpu) == 1 && !bit(RANDOM_SOURCE, features)
}

// What ENCODEKEY has of 12: source bits 31:3. Bits 2:0 are restrictions of the handle's use, not of its encoding.
fn encode_fault(source: u64) -> bool
    ensures { result ≡ encode_fault source }
{
    source % 0x1_0000_0000 / 8 != 0
}

// Where a handle is loaded from, for an instruction of so many bytes.
fn handle_address(cpu: &Cpu, bytes: u64, operand: &Operand) -> Address
    ensures { result ≡ handle_address cpu.now bytes operand.now }
{
    match operand {
        Operand::Register(_) => Address {
            linear: 0,
            segment: Segment::Data,
        },
        Operand::Memory(place) => effective_address(cpu, bytes, place),
    }
}

// 12 to 14 for a handle at an address, and where it is: a byte that is not canonical is #SS in the stack segment, else #GP.
fn ask_handle(memory: usize, a: Address, size: KeySize) -> Result<u64, Refusal>
    ensures number { answer_of result ≡ first (test 12 (canonical_fault false a size) ∷ test 13 (canonical_fault true a size) ∷ test 14 (outside memory a size) ∷ []) }
    ensures linear { IfOk result (λ x. x ≡ a.linear) }
{
    if some_not_canonical(a.linear, size) {
        return Err(match a.segment {
            Segment::Data => Refusal::General,
            Segment::Stack => Refusal::Stack,
        });
    }
    refuse_if(some_outside(memory as u64, a.linear, size), Refusal::Page)?;
    Ok(a.linear)
}

// 12 to 14 for an instruction.
fn ask_operand(
    features: u8,
    cpu: &Cpu,
    memory: usize,
    what: &Instruction,
    bytes: u64,
) -> Result<u64, Refusal>
    ensures number { answer_of result ≡ first (operand_tests features cpu.now memory what.now bytes) }
    ensures linear { IfOk result (λ x. x ≡ loaded_from cpu.now bytes (form_of what.now)) }
{
    // By `match`: uses, loads and encodes have tests of their own. Where nothing is loaded the place is 0 (`loaded_from`).
    match what {
        Instruction::Use(Use { handle, size, .. })
        | Instruction::WideUse(WideUse { handle, size, .. }) => {
            ask_handle(memory, handle_address(cpu, bytes, handle), *size)
        }
        Instruction::LoadIwKey(_) => {
            refuse_if(load_fault(features, cpu), Refusal::General)?;
            Ok(0)
        }
        Instruction::EncodeKey(e) => {
            let source = register(cpu, register_of(&e.source));
            refuse_if(encode_fault(source), Refusal::General)?;
            Ok(0)
        }
    }
}

/// 10 to 14 for an instruction as it stands in a string, and where a use loads its handle from.
pub fn ask_instruction(
    features: u8,
    cpu: &Cpu,
    memory: usize,
    found: &Found,
) -> Result<u64, Refusal>
    ensures number { answer_of result ≡ first (instruction_tests features cpu.now memory found.now.what found.now.lock found.now.bytes) }
    ensures linear { IfOk result (λ x. x ≡ loaded_from cpu.now found.now.bytes (form_of found.now.what)) }
{
    let c = control(cpu);
    let what = &found.what;
    let invalid = invalid_opcode(
        features,
        c,
        found.lock,
        needs_firmware(what),
        needs_wide(what),
    );
    refuse_if(invalid, Refusal::InvalidOpcode)?;
    refuse_if(no_math(c), Refusal::NoMath)?;
    ask_operand(features, cpu, memory, what, found.bytes as u64)
}

// ---- backup registers. The operands come one by one, as C passes them: a struct would be taken apart where it is made. Addresses are Intel's numbers, since
// one that is not known has to be refused.

// What reading and writing share of 12.
fn no_registers(features: u8, cpl: u8) -> bool
    ensures { result ≡ no_registers features cpl }
{
    cpl > 0 || !bit(KEY_LOCKER, features) || !bit(BACKUP_REGISTERS, features)
}

// 3, 5 and 12.
fn ask_register(view: View, processor: u8, cpl: u8, fault: bool) -> Result<(), Refusal>
    ensures { answer_of result ≡ first (test 3 (leb view.count processor) ∷ test 5 (ltb 3 cpl) ∷ test 12 fault ∷ []) }
{
    ask_processor(view, processor)?;
    refuse_if(cpl > 3, Refusal::CpuRecord)?;
    refuse_if(fault, Refusal::General)
}

/// 3, 5 and 12 of reading a backup register.
#[tactic(auto, unfolding(model::specs::Refusals::refusal, model::specs::Refusals::tests))]
pub fn ask_read(view: View, processor: u8, cpl: u8, address: u32) -> Result<(), Refusal>
    ensures { answer_of result ≡ refusal (record { count = view.count; features = view.features }) (read (record { processor = processor; cpl = cpl; address = address })) }
{
    let fault = no_registers(view.features, cpl) || !matches!(address, 0x990 | 0x991);
    ask_register(view, processor, cpl, fault)
}

/// 3, 5 and 12 of writing one.
#[tactic(auto, unfolding(model::specs::Refusals::refusal, model::specs::Refusals::tests))]
pub fn ask_write(
    view: View,
    processor: u8,
    cpl: u8,
    address: u32,
    value: u64,
) -> Result<(), Refusal>
    ensures { answer_of result ≡ refusal (record { count = view.count; features = view.features }) (write (record { processor = processor; cpl = cpl; address = address; value = value })) }
{
    let fault = no_registers(view.features, cpl) || !matches!(address, 0xD91 | 0xD92) || value > 1;
    ask_register(view, processor, cpl, fault)
}
