// A step on a lent machine, which is found advanced after the call, and as it was where the step is refused; and one by value over it. The step itself is in
// crate `step`, by value.
#![tactic(auto)]

ghost use Rattle.std.specs.Prelude.{◌≡◌};
ghost use Rattle.model.specs.Calls.{step};
ghost use Rattle.model.specs.Execution as execution;
ghost use Rattle.refusal.specs.Numbers.{answer_of};
ghost use Rattle.step.specs.Meaning.{left, left_of};

use machine::{Outcome, put_processor};
use model::Machine;
use refusal::Refusal;
use step::step;

/// Machine and CPU record are lent. What a step is lent comes as C lends it, part by part: a struct of it would be taken apart where it is made.
pub fn step_lent(
    m: &mut Machine,
    processor: u8,
    cpu: &mut [u8],
    memory: &[u8],
    random: &[u8],
    string: &[u8],
) -> Result<(), Refusal>
    ensures { left (answer_of result) m.new cpu.new ≡ left_of (execution.call m.old (step (record { processor = processor; cpu = cpu.old; memory = memory.now; random = random.now; string = string.now }))) }
{
    let e = step(*m, processor, cpu, memory, random, string)?;
    put_processor(m, processor, &e);
    Ok(())
}

/// The machine by value, through `step_lent`, and given back beside the answer, refused or not; the CPU record is lent.
pub fn step_through(
    m: Machine,
    processor: u8,
    cpu: &mut [u8],
    memory: &[u8],
    random: &[u8],
    string: &[u8],
) -> Outcome
    ensures { left (answer_of result.answer) result.machine cpu.new ≡ left_of (execution.call m (step (record { processor = processor; cpu = cpu.old; memory = memory.now; random = random.now; string = string.now }))) }
{
    let mut machine = m;
    let answer = step_lent(&mut machine, processor, cpu, memory, random, string);
    Outcome { machine, answer }
}
