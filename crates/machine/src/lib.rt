// The calls of the machine but for steps and counter calls: power-on, settle, sleep, reset, taken, the backup registers, and CPUID. A call that is refused leaves
// the machine.
#![tactic(auto)]

ghost use Rattle.std.specs.Prelude.{◌≡◌, ◌%◌, cond, set};
ghost use Rattle.model.specs.Records.{with_processors};
ghost use Rattle.model.specs.Calls.{read, write, settle, sleep, reset, taken};
ghost use Rattle.model.specs.Execution as execution;
ghost use Rattle.model.specs.Validity.{valid};
ghost use Rattle.cpuid_model.specs.Leaves.{zero_leaf};
ghost use Rattle.cpuid_model.specs.Calls.{identify};
ghost use Rattle.refusal.specs.Numbers.{answer_of};
ghost use Rattle.machine.specs.Meaning.{given};

use cpu::control;
use cpuid::registers;
use cpuid_model::Leaf;
use model::{Machine, Platform, Processor};
use platform::{ABSENT, ZERO_KEY, note_taken, read_register, wake, write_register};
use refusal::{Refusal, refuse_if};
use refusals::{View, ask_read, ask_record, ask_write};
use validity::is_valid;

/// The machine after a call by value, and the answer beside it: a power-on that is refused gives an all-zero machine, of which a Result would say nothing.
#[derive(Clone, Copy)]
pub struct Outcome {
    pub machine: Machine,
    pub answer: Result<(), Refusal>,
}

const ZERO_PROCESSOR: Processor = Processor {
    key: ZERO_KEY,
    copy_status: 0,
};

const ZERO_PLATFORM: Platform = Platform {
    backup: ABSENT,
    store: ABSENT,
    pending: 0,
    valid: 0,
    error: 0,
    consumed: 0,
};

// Count and features come one by one, as `power_on` has them of C.
fn fresh(count: u8, features: u8) -> Machine
    ensures { result ≡ execution.fresh count features }
{
    Machine {
        count,
        features,
        processors: [ZERO_PROCESSOR; 16],
        platform: ZERO_PLATFORM,
    }
}

/// The entry of a processor, put into its place.
pub fn put_processor(m: &mut Machine, processor: u8, e: &Processor)
    ensures { m.new ≡ with_processors (set m.old.processors (processor % 16) e.now) m.old }
{
    m.processors[usize::from(processor % 16)] = *e;
}

// 1: not a machine record.
fn ask_valid(m: &Machine) -> Result<(), Refusal>
    ensures { answer_of result ≡ cond (valid m.now) 0 1 }
{
    refuse_if(!is_valid(m), Refusal::Machine)
}

/// By value: a power-on that is refused gives an all-zero machine. Count and features come one by one, as C has them.
pub fn power_on(count: u8, features: u8) -> Outcome
    ensures number { answer_of result.answer ≡ (execution.power_on (record { count = count; features = features })).answer.number }
    ensures machine { result.machine ≡ (execution.power_on (record { count = count; features = features })).machine }
{
    if !matches!(count, 1..=16) || features >= 64 {
        return Outcome {
            machine: fresh(0, 0),
            answer: Err(Refusal::Machine),
        };
    }
    Outcome {
        machine: fresh(count, features),
        answer: Ok(()),
    }
}

// The codes of this and the next stay numbers: C gives them, and one that is not known is refused.
#[tactic(auto, unfolding(model::specs::Execution::call, model::specs::Execution::perform, model::specs::Refusals::refusal, model::specs::Refusals::tests))]
pub fn settle(m: &mut Machine, code: u8) -> Result<(), Refusal>
    ensures number { answer_of result ≡ (execution.call m.old (settle (record { code = code }))).answer.number }
    ensures machine { m.new ≡ (execution.call m.old (settle (record { code = code }))).machine }
{
    ask_valid(m)?;
    refuse_if(code >= 2, Refusal::UnknownCode)?;
    platform::settle(&mut m.platform, code);
    Ok(())
}

#[tactic(auto, unfolding(model::specs::Execution::call, model::specs::Execution::perform, model::specs::Refusals::refusal, model::specs::Refusals::tests))]
pub fn sleep(m: &mut Machine, code: u8) -> Result<(), Refusal>
    ensures number { answer_of result ≡ (execution.call m.old (sleep (record { code = code }))).answer.number }
    ensures machine { m.new ≡ (execution.call m.old (sleep (record { code = code }))).machine }
{
    ask_valid(m)?;
    refuse_if(code >= 3, Refusal::UnknownCode)?;
    m.processors = [ZERO_PROCESSOR; 16];
    wake(&mut m.platform, code);
    Ok(())
}

#[tactic(auto, unfolding(model::specs::Execution::call, model::specs::Execution::perform, model::specs::Refusals::refusal, model::specs::Refusals::tests))]
pub fn reset(m: &mut Machine) -> Result<(), Refusal>
    ensures number { answer_of result ≡ (execution.call m.old reset).answer.number }
    ensures machine { m.new ≡ (execution.call m.old reset).machine }
{
    ask_valid(m)?;
    *m = fresh(m.count, m.features);
    Ok(())
}

#[tactic(auto, unfolding(model::specs::Execution::call, model::specs::Execution::perform, model::specs::Refusals::refusal, model::specs::Refusals::tests))]
pub fn taken(m: &mut Machine) -> Result<(), Refusal>
    ensures number { answer_of result ≡ (execution.call m.old taken).answer.number }
    ensures machine { m.new ≡ (execution.call m.old taken).machine }
{
    ask_valid(m)?;
    note_taken(&mut m.platform);
    Ok(())
}

// ---- the backup registers. The operands come one by one, as C passes them: a struct would be taken apart where it is made.

#[tactic(auto, unfolding(model::specs::Execution::call, model::specs::Execution::perform))]
pub fn read(m: &Machine, processor: u8, cpl: u8, address: u32) -> Result<u64, Refusal>
    ensures number { answer_of result ≡ (execution.call m.now (read (record { processor = processor; cpl = cpl; address = address }))).answer.number }
    ensures value { given 0 result ≡ (execution.call m.now (read (record { processor = processor; cpl = cpl; address = address }))).answer.value }
    ensures machine { m.now ≡ (execution.call m.now (read (record { processor = processor; cpl = cpl; address = address }))).machine }
{
    ask_valid(m)?;
    ask_read(View::from(m), processor, cpl, address)?;
    Ok(read_register(&m.processors[usize::from(processor)], &m.platform, address))
}

#[tactic(auto, unfolding(model::specs::Execution::call, model::specs::Execution::perform))]
pub fn write(
    m: &mut Machine,
    processor: u8,
    cpl: u8,
    address: u32,
    value: u64,
) -> Result<(), Refusal>
    ensures number { answer_of result ≡ (execution.call m.old (write (record { processor = processor; cpl = cpl; address = address; value = value }))).answer.number }
    ensures machine { m.new ≡ (execution.call m.old (write (record { processor = processor; cpl = cpl; address = address; value = value }))).machine }
{
    ask_valid(m)?;
    ask_write(View::from(&*m), processor, cpl, address, value)?;
    let e = &mut m.processors[usize::from(processor)];
    write_register(e, &mut m.platform, address, value);
    Ok(())
}

// ---- CPUID

#[tactic(auto, unfolding(cpuid_model::specs::Calls::identify))]
pub fn cpuid(m: &Machine, cpu: &[u8], leaf: u32, subleaf: u32) -> Result<Leaf, Refusal>
    ensures number { answer_of result ≡ (identify m.now (record { cpu = cpu.now; leaf = leaf; subleaf = subleaf })).number }
    ensures registers { given zero_leaf result ≡ (identify m.now (record { cpu = cpu.now; leaf = leaf; subleaf = subleaf })).registers }
{
    ask_valid(m)?;
    let cpu = ask_record(cpu)?;
    Ok(registers(m.features, control(cpu), leaf, subleaf))
}
