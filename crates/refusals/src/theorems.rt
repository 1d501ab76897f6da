// What is proved of the tests as they are written here. The contract of each function is a theorem; there is nothing to execute.
ghost use Rattle.std.specs.Prelude.{◌≡◌, ◌++◌};
ghost use Rattle.model.specs.Refusals.{View, Asked, first, step_refusal};
ghost use Rattle.refusals.specs.Parts.{lent_tests, string_tests};

/// The list of a step's tests is its parts in turn, whatever is lent and whatever the string holds: what `ask_records` asks, and then what the string is asked,
/// which `ask_instruction` does where it holds an instruction.
pub fn step_tests_in_parts()
    ensures { (v : View) (a : Asked) → step_refusal v a ≡ first (lent_tests v.count a.processor a.cpu a.memory a.random ++ string_tests v.features a.cpu a.memory a.decoded) }
{}
