// Buffers that a call only reads may overlap. Each function lends parts of one region, which may have bytes in common, and the call's promise holds of them.
// A buffer is region[from..to], with the first letter of its name before both. Nothing calls these functions: that they are proved is what they are for.
// Two numbers and no Range: the promises speak of the part between them.
#![tactic(auto)]

ghost use Rattle.std.specs.Prelude.{◌≤◌, ◌-◌, length};
ghost use Rattle.model.specs.Numbers.{part};
ghost use Rattle.keylocker.specs.Promises.{StepPromise, CounterPromise, CpuidPromise, KeyringLookupPromise, KeyringAddPromise};

// A string inside guest memory, and random data in both.
fn step_reads(
    machine: &mut [u8],
    processor: u8,
    cpu: &mut [u8],
    region: &[u8],
    mfrom: usize,
    mto: usize,
    rfrom: usize,
    rto: usize,
    sfrom: usize,
    sto: usize,
) -> u32
    requires mfrom_le_mto { mfrom ≤ mto }
    requires mto_in_bounds { mto ≤ length region.now }
    requires rfrom_le_rto { rfrom ≤ rto }
    requires rto_in_bounds { rto ≤ length region.now }
    requires sfrom_le_sto { sfrom ≤ sto }
    requires sto_in_bounds { sto ≤ length region.now }
    ensures { StepPromise machine.old (record { processor = processor; cpu = cpu.old; memory = part (mto - mfrom) mfrom region.now; random = part (rto - rfrom) rfrom region.now; string = part (sto - sfrom) sfrom region.now }) machine.new cpu.new result }
{
    keylocker::keylocker_step(
        machine,
        processor,
        cpu,
        &region[mfrom..mto],
        &region[rfrom..rto],
        &region[sfrom..sto],
    )
}

// Handle and counter block.
fn ctr_reads(
    machine: &mut [u8],
    processor: u8,
    cpu: &mut [u8],
    region: &[u8],
    hfrom: usize,
    hto: usize,
    cfrom: usize,
    cto: usize,
    buffer: &mut [u8],
) -> u32
    requires hfrom_le_hto { hfrom ≤ hto }
    requires hto_in_bounds { hto ≤ length region.now }
    requires cfrom_le_cto { cfrom ≤ cto }
    requires cto_in_bounds { cto ≤ length region.now }
    ensures { CounterPromise machine.old (record { processor = processor; cpu = cpu.old; handle = part (hto - hfrom) hfrom region.now; counter = part (cto - cfrom) cfrom region.now; buffer = buffer.old }) machine.new cpu.new buffer.new result }
{
    keylocker::keylocker_ctr(
        machine,
        processor,
        cpu,
        &region[hfrom..hto],
        &region[cfrom..cto],
        buffer,
    )
}

// Machine and CPU record.
fn cpuid_reads(
    region: &[u8],
    mfrom: usize,
    mto: usize,
    cfrom: usize,
    cto: usize,
    leaf: u32,
    subleaf: u32,
    eax: &mut u32,
    ebx: &mut u32,
    ecx: &mut u32,
    edx: &mut u32,
) -> u32
    requires mfrom_le_mto { mfrom ≤ mto }
    requires mto_in_bounds { mto ≤ length region.now }
    requires cfrom_le_cto { cfrom ≤ cto }
    requires cto_in_bounds { cto ≤ length region.now }
    ensures { CpuidPromise (part (mto - mfrom) mfrom region.now) (record { cpu = part (cto - cfrom) cfrom region.now; leaf = leaf; subleaf = subleaf }) (record { eax = eax.old; ebx = ebx.old; ecx = ecx.old; edx = edx.old }) (record { eax = eax.new; ebx = ebx.new; ecx = ecx.new; edx = edx.new }) result }
{
    keylocker::keylocker_cpuid(
        &region[mfrom..mto],
        &region[cfrom..cto],
        leaf,
        subleaf,
        eax,
        ebx,
        ecx,
        edx,
    )
}

// Keyring and label.
fn lookup_reads(
    region: &[u8],
    kfrom: usize,
    kto: usize,
    lfrom: usize,
    lto: usize,
    kind: &mut u8,
    handle: &mut [u8; 64],
) -> u32
    requires kfrom_le_kto { kfrom ≤ kto }
    requires kto_in_bounds { kto ≤ length region.now }
    requires lfrom_le_lto { lfrom ≤ lto }
    requires lto_in_bounds { lto ≤ length region.now }
    ensures { KeyringLookupPromise (part (kto - kfrom) kfrom region.now) (part (lto - lfrom) lfrom region.now) kind.old handle.old kind.new handle.new result }
{
    keylocker::keylocker_keyring_lookup(&region[kfrom..kto], &region[lfrom..lto], kind, handle)
}

// Label and handle.
fn add_reads(
    keyring: &mut [u8],
    region: &[u8],
    lfrom: usize,
    lto: usize,
    hfrom: usize,
    hto: usize,
) -> u32
    requires lfrom_le_lto { lfrom ≤ lto }
    requires lto_in_bounds { lto ≤ length region.now }
    requires hfrom_le_hto { hfrom ≤ hto }
    requires hto_in_bounds { hto ≤ length region.now }
    ensures { KeyringAddPromise keyring.old (part (lto - lfrom) lfrom region.now) (part (hto - hfrom) hfrom region.now) keyring.new result }
{
    keylocker::keylocker_keyring_add(keyring, &region[lfrom..lto], &region[hfrom..hto])
}
