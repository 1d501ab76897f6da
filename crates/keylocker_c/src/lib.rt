// The calls of include/keylocker.h, as the crate keylocker has them. Of that library no symbol is exported, and of this one no crate can use anything.
#![tactic(auto)]

ghost use Rattle.keylocker.specs.Promises.{PowerOnPromise, StepPromise, CounterPromise, ReadPromise, WritePromise, SettlePromise, SleepPromise, ResetPromise, TakenPromise, CpuidPromise, KeyringLookupPromise, KeyringAddPromise};

#[unsafe(no_mangle)]
pub extern "C" fn keylocker_power_on(machine: &mut [u8], count: u8, features: u8) -> u32
    ensures { PowerOnPromise machine.old (record { count = count; features = features }) machine.new result }
{
    keylocker::keylocker_power_on(machine, count, features)
}

#[unsafe(no_mangle)]
pub extern "C" fn keylocker_settle(machine: &mut [u8], code: u8) -> u32
    ensures { SettlePromise machine.old (record { code = code }) machine.new result }
{
    keylocker::keylocker_settle(machine, code)
}

#[unsafe(no_mangle)]
pub extern "C" fn keylocker_sleep(machine: &mut [u8], code: u8) -> u32
    ensures { SleepPromise machine.old (record { code = code }) machine.new result }
{
    keylocker::keylocker_sleep(machine, code)
}

#[unsafe(no_mangle)]
pub extern "C" fn keylocker_reset(machine: &mut [u8]) -> u32
    ensures { ResetPromise machine.old machine.new result }
{
    keylocker::keylocker_reset(machine)
}

#[unsafe(no_mangle)]
pub extern "C" fn keylocker_taken(machine: &mut [u8]) -> u32
    ensures { TakenPromise machine.old machine.new result }
{
    keylocker::keylocker_taken(machine)
}

// The machine is not written, and the value only where the answer is 0.
#[unsafe(no_mangle)]
pub extern "C" fn keylocker_read(
    machine: &[u8],
    processor: u8,
    cpl: u8,
    address: u32,
    value: &mut u64,
) -> u32
    ensures { ReadPromise machine.now (record { processor = processor; cpl = cpl; address = address }) value.old value.new result }
{
    keylocker::keylocker_read(machine, processor, cpl, address, value)
}

#[unsafe(no_mangle)]
pub extern "C" fn keylocker_write(
    machine: &mut [u8],
    processor: u8,
    cpl: u8,
    address: u32,
    value: u64,
) -> u32
    ensures { WritePromise machine.old (record { processor = processor; cpl = cpl; address = address; value = value }) machine.new result }
{
    keylocker::keylocker_write(machine, processor, cpl, address, value)
}

#[unsafe(no_mangle)]
pub extern "C" fn keylocker_step(
    machine: &mut [u8],
    processor: u8,
    cpu: &mut [u8],
    memory: &[u8],
    random: &[u8],
    string: &[u8],
) -> u32
    ensures { StepPromise machine.old (record { processor = processor; cpu = cpu.old; memory = memory.now; random = random.now; string = string.now }) machine.new cpu.new result }
{
    keylocker::keylocker_step(machine, processor, cpu, memory, random, string)
}

// The machine is lent as to a step and not written.
#[unsafe(no_mangle)]
pub extern "C" fn keylocker_ctr(
    machine: &mut [u8],
    processor: u8,
    cpu: &mut [u8],
    handle: &[u8],
    counter: &[u8],
    buffer: &mut [u8],
) -> u32
    ensures { CounterPromise machine.old (record { processor = processor; cpu = cpu.old; handle = handle.now; counter = counter.now; buffer = buffer.old }) machine.new cpu.new buffer.new result }
{
    keylocker::keylocker_ctr(machine, processor, cpu, handle, counter, buffer)
}

// Machine and CPU record are not written, and the four registers only where the answer is 0.
#[unsafe(no_mangle)]
pub extern "C" fn keylocker_cpuid(
    machine: &[u8],
    cpu: &[u8],
    leaf: u32,
    subleaf: u32,
    eax: &mut u32,
    ebx: &mut u32,
    ecx: &mut u32,
    edx: &mut u32,
) -> u32
    ensures { CpuidPromise machine.now (record { cpu = cpu.now; leaf = leaf; subleaf = subleaf }) (record { eax = eax.old; ebx = ebx.old; ecx = ecx.old; edx = edx.old }) (record { eax = eax.new; ebx = ebx.new; ecx = ecx.new; edx = edx.new }) result }
{
    keylocker::keylocker_cpuid(machine, cpu, leaf, subleaf, eax, ebx, ecx, edx)
}

// Kind and handle are written only where the answer is 0.
#[unsafe(no_mangle)]
pub extern "C" fn keylocker_keyring_lookup(
    keyring: &[u8],
    label: &[u8],
    kind: &mut u8,
    handle: &mut [u8; 64],
) -> u32
    ensures { KeyringLookupPromise keyring.now label.now kind.old handle.old kind.new handle.new result }
{
    keylocker::keylocker_keyring_lookup(keyring, label, kind, handle)
}

#[unsafe(no_mangle)]
pub extern "C" fn keylocker_keyring_add(keyring: &mut [u8], label: &[u8], handle: &[u8]) -> u32
    ensures { KeyringAddPromise keyring.old label.now handle.now keyring.new result }
{
    keylocker::keylocker_keyring_add(keyring, label, handle)
}
