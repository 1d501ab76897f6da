// A step of a machine by value: tested, executed, and told by what it changed of the machine. It picks the step's processor, and copies nothing else of the
// machine. By value is the form that is bound: the call on a lent machine, `lent::step_lent`, is thin over it. What is lent comes as C lends it, each part by
// itself: a struct would be taken apart where it is made.
#![tactic(auto)]

ghost use Rattle.std.specs.Prelude.{◌≡◌, ◌%◌};
ghost use Rattle.model.specs.Calls.{step};
ghost use Rattle.model.specs.Execution as execution;
ghost use Rattle.refusal.specs.Numbers.{answer_of};
ghost use Rattle.step.specs.Meaning.{left, left_of, machine_after};

use cpu::Cpu;
use instructions::execute;
use model::{Machine, Processor};
use reader::decode;
use refusal::{Refusal, refuse_if};
use refusals::{View, ask_instruction, ask_records};
use validity::is_valid;

/// The entry of its processor after a step, which is all that a step can change of the machine; the CPU record is lent. The tests come in the order of
/// `model::specs::Refusals::tests`, and a step that is turned back changes nothing. A string without a byte does nothing either.
#[tactic(auto, using(crate::proofs::Steps::not_valid, crate::proofs::Steps::not_lent))]
pub fn step(
    m: Machine,
    processor: u8,
    cpu: &mut [u8],
    memory: &[u8],
    random: &[u8],
    string: &[u8],
) -> Result<Processor, Refusal>
    ensures { left (answer_of result) (machine_after m (processor % 16) result) cpu.new ≡ left_of (execution.call m (step (record { processor = processor; cpu = cpu.old; memory = memory.now; random = random.now; string = string.now }))) }
{
    refuse_if(!is_valid(&m), Refusal::Machine)?;
    ask_records(View::from(&m), processor, cpu, memory.len(), random.len())?;
    // The processor is below the count here; the remainder is for the index alone.
    let mut e = m.processors[(processor % 16) as usize];
    let Some(found) = decode(string)? else {
        return Ok(e);
    };
    // `ask_records` found its length. It cannot hand the record out: it is lent shared there, and written here.
    let cpu: &mut Cpu = cpu.as_mut_array().unwrap();
    let at = ask_instruction(m.features, cpu, memory.len(), &found)?;
    e.key = execute(
        &found.what,
        found.bytes as u64,
        at,
        memory,
        random.as_array(),
        &e.key,
        cpu,
    );
    Ok(e)
}
