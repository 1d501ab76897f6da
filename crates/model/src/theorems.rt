// What is proved of the emulated machine. The contract of each function is a theorem; there is nothing to execute.
ghost use Rattle.std.specs.Prelude.{◌≡◌, List};
ghost use Rattle.model.specs.Calls.{Call, PowerOn};
ghost use Rattle.model.specs.Demand3.{CounterCalls, Demand3};
ghost use Rattle.model.specs.Execution.{power_on, run};
ghost use Rattle.model.specs.Idle.{IdleUnseen, is_idle};
ghost use Rattle.model.specs.Status.{StatusRegisters};
ghost use Rattle.model.specs.Struck.{struck};
ghost use Rattle.model.specs.Taken.{TakenUnseen, is_taken};

/// For every list of calls from a power-on that is accepted, processors, backup and store hold exactly the keys that the history machine names, and a use of a
/// handle encoded under a key of the same name works exactly when size, privilege and direction allow.
pub fn histories_hold()
    ensures { (p : PowerOn) → (power_on p).answer.number ≡ 0 → (calls : List Call) → Demand3 p calls (run (power_on p).machine calls) }
{}

/// The same of counter calls.
pub fn counter_calls_hold()
    ensures { (p : PowerOn) → (power_on p).answer.number ≡ 0 → (calls : List Call) → CounterCalls p calls (run (power_on p).machine calls) }
{}

/// What the status registers tell.
pub fn status_registers_tell()
    ensures { (p : PowerOn) → (power_on p).answer.number ≡ 0 → (calls : List Call) → StatusRegisters p calls (run (power_on p).machine calls) }
{}

/// A list of calls and the same without `taken` differ in what the status registers tell of it alone.
pub fn taken_is_unseen()
    ensures { (p : PowerOn) → (power_on p).answer.number ≡ 0 → (calls : List Call) → TakenUnseen p calls (run (power_on p).machine calls) (run (power_on p).machine (struck is_taken calls)) }
{}

/// Idle steps, struck out of a list of calls, change nothing of what the others answer and leave.
pub fn idle_steps_are_unseen()
    ensures { (p : PowerOn) → (power_on p).answer.number ≡ 0 → (calls : List Call) → IdleUnseen p calls (run (power_on p).machine calls) (run (power_on p).machine (struck is_idle calls)) }
{}
