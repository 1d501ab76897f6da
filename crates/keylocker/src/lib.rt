// The calls for C: the machine is lent as 924 bytes. Each answers 0, or the number of the refusal, which leaves every lent byte. Parameters are C's.
#![tactic(auto)]

ghost use Rattle.std.specs.Prelude.{◌≡◌, ◌≢◌, length};
ghost use Rattle.std.specs.Fn.{FnOnceReturnsAtMut};
ghost use Rattle.model.specs.Layout.{machine_size, machine_at};
ghost use Rattle.refusal.specs.Numbers.{number_of, answer_of};
ghost use Rattle.keylocker.specs.Meaning.{called, finished};
ghost use Rattle.keylocker.specs.Promises.{PowerOnPromise, StepPromise, CounterPromise, ReadPromise, WritePromise, SettlePromise, SleepPromise, ResetPromise, TakenPromise, CpuidPromise, KeyringLookupPromise, KeyringAddPromise};

use layout::{Block, read_machine};
use layout_write::{write_entry, write_machine};
use model::Machine;
use refusal::Refusal;

// The number that C sees.
fn refused(why: Refusal) -> u32
    ensures { result ≡ number_of why }
{
    u32::from(why.number())
}

// What C sees of a call that gives no more than its answer.
fn number(answer: Result<(), Refusal>) -> u32
    ensures { result ≡ answer_of answer }
{
    match answer {
        Ok(()) => 0,
        Err(why) => refused(why),
    }
}

// The machine after a call goes back into its bytes, where the call was done.
fn finish(block: &mut Block, m: &Machine, answer: Result<(), Refusal>) -> u32
    ensures { called result block.new ≡ finished block.old m.now answer }
{
    if answer.is_ok() {
        write_machine(block, m);
    }
    number(answer)
}

// What the calls share that may change the whole machine and give no more than their answer.
fn change<F: FnOnce(&mut Machine) -> Result<(), Refusal>>(machine: &mut [u8], call: F) -> u32
    requires { F.IsAlwaysCallable call }
    ensures another_length { length machine.old ≢ machine_size → called result machine.new ≡ called 1 machine.old }
    ensures called { length machine.old ≡ machine_size → (m : Machine) × (answer : _) × FnOnceReturnsAtMut F.FnOnce call (machine_at machine.old) answer m × (called result machine.new ≡ finished machine.old m answer) }
{
    let Some(block) = machine.as_mut_array() else {
        return refused(Refusal::Machine);
    };
    let mut m = read_machine(block);
    let answer = call(&mut m);
    finish(block, &m, answer)
}

#[unsafe(no_mangle)]
#[tactic(auto, using(crate::proofs::Finishing::power_on_short))]
pub extern "C" fn keylocker_power_on(machine: &mut [u8], count: u8, features: u8) -> u32
    ensures { PowerOnPromise machine.old (record { count = count; features = features }) machine.new result }
{
    let Some(block) = machine.as_mut_array() else {
        return refused(Refusal::Machine);
    };
    let started = machine::power_on(count, features);
    finish(block, &started.machine, started.answer)
}

#[unsafe(no_mangle)]
pub extern "C" fn keylocker_settle(machine: &mut [u8], code: u8) -> u32
    ensures { SettlePromise machine.old (record { code = code }) machine.new result }
{
    change(machine, |m| machine::settle(m, code))
}

#[unsafe(no_mangle)]
pub extern "C" fn keylocker_sleep(machine: &mut [u8], code: u8) -> u32
    ensures { SleepPromise machine.old (record { code = code }) machine.new result }
{
    change(machine, |m| machine::sleep(m, code))
}

#[unsafe(no_mangle)]
pub extern "C" fn keylocker_reset(machine: &mut [u8]) -> u32
    ensures { ResetPromise machine.old machine.new result }
{
    change(machine, machine::reset)
}

#[unsafe(no_mangle)]
pub extern "C" fn keylocker_taken(machine: &mut [u8]) -> u32
    ensures { TakenPromise machine.old machine.new result }
{
    change(machine, machine::taken)
}

// ---- the backup registers

// The machine is not written, and the value only where the answer is 0.
#[unsafe(no_mangle)]
pub extern "C" fn keylocker_read(
    machine: &[u8],
    processor: u8,
    cpl: u8,
    address: u32,
    value: &mut u64,
) -> u32
    ensures { ReadPromise machine.now (record { processor = processor; cpl = cpl; address = address }) value.old value.new result }
{
    let Some(block) = machine.as_array() else {
        return refused(Refusal::Machine);
    };
    match machine::read(&read_machine(block), processor, cpl, address) {
        Ok(read) => {
            *value = read;
            0
        }
        Err(unread) => refused(unread),
    }
}

#[unsafe(no_mangle)]
pub extern "C" fn keylocker_write(
    machine: &mut [u8],
    processor: u8,
    cpl: u8,
    address: u32,
    value: u64,
) -> u32
    ensures { WritePromise machine.old (record { processor = processor; cpl = cpl; address = address; value = value }) machine.new result }
{
    change(machine, |m| {
        machine::write(m, processor, cpl, address, value)
    })
}

// ---- step

// The machine is given by value, and of its bytes only the entry of the step's processor is written.
#[unsafe(no_mangle)]
#[tactic(auto, using(crate::proofs::Finishing::step_short))]
pub extern "C" fn keylocker_step(
    machine: &mut [u8],
    processor: u8,
    cpu: &mut [u8],
    memory: &[u8],
    random: &[u8],
    string: &[u8],
) -> u32
    ensures { StepPromise machine.old (record { processor = processor; cpu = cpu.old; memory = memory.now; random = random.now; string = string.now }) machine.new cpu.new result }
{
    let Some(block) = machine.as_mut_array() else {
        return refused(Refusal::Machine);
    };
    let m = read_machine(block);
    match step::step(m, processor, cpu, memory, random, string) {
        Ok(e) => {
            write_entry(block, processor, &e);
            0
        }
        Err(why) => refused(why),
    }
}

// ---- counter mode

// The machine is lent as to a step and not written.
#[unsafe(no_mangle)]
#[tactic(auto, using(crate::proofs::Finishing::counter_short))]
pub extern "C" fn keylocker_ctr(
    machine: &mut [u8],
    processor: u8,
    cpu: &mut [u8],
    handle: &[u8],
    counter: &[u8],
    buffer: &mut [u8],
) -> u32
    ensures { CounterPromise machine.old (record { processor = processor; cpu = cpu.old; handle = handle.now; counter = counter.now; buffer = buffer.old }) machine.new cpu.new buffer.new result }
{
    let Some(block) = machine.as_array() else {
        return refused(Refusal::Machine);
    };
    let m = read_machine(block);
    number(counter::count(&m, processor, cpu, handle, counter, buffer))
}

// ---- CPUID

// Machine and CPU record are not written, and the four registers only where the answer is 0.
#[unsafe(no_mangle)]
#[tactic(auto, using(cpuid_model::proofs::Calls::lent_short))]
pub extern "C" fn keylocker_cpuid(
    machine: &[u8],
    cpu: &[u8],
    leaf: u32,
    subleaf: u32,
    eax: &mut u32,
    ebx: &mut u32,
    ecx: &mut u32,
    edx: &mut u32,
) -> u32
    ensures { CpuidPromise machine.now (record { cpu = cpu.now; leaf = leaf; subleaf = subleaf }) (record { eax = eax.old; ebx = ebx.old; ecx = ecx.old; edx = edx.old }) (record { eax = eax.new; ebx = ebx.new; ecx = ecx.new; edx = edx.new }) result }
{
    let Some(block) = machine.as_array() else {
        return refused(Refusal::Machine);
    };
    match machine::cpuid(&read_machine(block), cpu, leaf, subleaf) {
        Ok(registers) => {
            *eax = registers.eax;
            *ebx = registers.ebx;
            *ecx = registers.ecx;
            *edx = registers.edx;
            0
        }
        Err(unidentified) => refused(unidentified),
    }
}

// ---- keyrings: no machine is lent, and no refusal of a machine's call is theirs

// Kind and handle are written only where the answer is 0.
#[unsafe(no_mangle)]
pub extern "C" fn keylocker_keyring_lookup(
    keyring: &[u8],
    label: &[u8],
    kind: &mut u8,
    handle: &mut [u8; 64],
) -> u32
    ensures { KeyringLookupPromise keyring.now label.now kind.old handle.old kind.new handle.new result }
{
    match keyring::lookup(keyring, label) {
        Ok(found) => {
            // A variable of its own: an array in a field is not stored straight (the borrow checker does not cover it).
            let bytes = found.handle;
            *kind = found.kind;
            *handle = bytes;
            0
        }
        Err(unfound) => refused(unfound),
    }
}

#[unsafe(no_mangle)]
pub extern "C" fn keylocker_keyring_add(keyring: &mut [u8], label: &[u8], handle: &[u8]) -> u32
    ensures { KeyringAddPromise keyring.old label.now handle.now keyring.new result }
{
    number(keyring::add(keyring, label, handle))
}
