// Each call, and what it answers: 0 or the number of the refusal, what was asked for, and all that changed. Where it is written, the machine and the call stay
// three: some functions are lent the machine to read and some to write, and one takes it as it was, too.
use crate::call::{Call, Kind};
use layout::read_machine;
use line::Hex;
use model::Machine;
use refusal::Refusal;
use report::{Changes, MachineChanges, Registers};
use std::io;
use std::io::Write;

// An answer by its number.
fn write_number(out: &mut impl Write, answer: Result<(), Refusal>) -> io::Result<()> {
    match answer {
        Ok(()) => write!(out, " 0"),
        Err(why) => write!(out, " {}", why.number()),
    }
}

// A refused power-on leaves no machine.
fn power_on(out: &mut impl Write, machine: &mut Machine, call: &Call) -> io::Result<()> {
    let started = machine::power_on(call.count(), call.features());
    *machine = started.machine;
    write_number(out, started.answer)
}

fn read(out: &mut impl Write, machine: &Machine, call: &Call) -> io::Result<()> {
    match machine::read(machine, call.processor(), call.cpl(), call.address()) {
        Ok(value) => write!(out, " 0 value {value}"),
        Err(why) => write!(out, " {}", why.number()),
    }
}

fn cpuid(out: &mut impl Write, machine: &Machine, call: &Call) -> io::Result<()> {
    match machine::cpuid(machine, call.cpu(), call.leaf(), call.subleaf()) {
        Ok(leaf) => write!(out, " 0{}", Registers(leaf)),
        Err(why) => write!(out, " {}", why.number()),
    }
}

// Where RFLAGS stands in a CPU record.
const RFLAGS: usize = 392;

// ZF, which is bit 6 of RFLAGS.
fn zf(cpu: &[u8]) -> u8 {
    cpu.get(RFLAGS).map_or(0, |rflags| rflags >> 6 & 1)
}

// ZF, XMM0, and all that changed. The machine is stepped by value; the CPU record is lent from a copy of the call, and then compared with it.
fn step(out: &mut impl Write, machine: &mut Machine, call: &Call) -> io::Result<()> {
    let mut after = *call;
    let stepped = lent::step_through(
        *machine,
        call.processor(),
        after.cpu_mut(),
        call.memory(),
        call.random(),
        call.string(),
    );
    *machine = stepped.machine;
    write_number(out, stepped.answer)?;
    if stepped.answer.is_ok() {
        let old = call.cpu();
        let new = after.cpu();
        let xmm0 = Hex(new.get(..16).unwrap_or(&[]));
        write!(
            out,
            " zf {} xmm0 {xmm0} cpu{}",
            zf(new),
            Changes { old, new }
        )?;
    }
    Ok(())
}

// CPU record and buffer are lent from copies, and then compared with what they were.
fn count(out: &mut impl Write, machine: &Machine, call: &Call) -> io::Result<()> {
    let mut after = *call;
    let old = call.buffer();
    let mut new = old;
    let answer = counter::count(
        machine,
        call.processor(),
        after.cpu_mut(),
        call.handle(),
        call.counter(),
        &mut new[..call.buffer_length()],
    );
    write_number(out, answer)?;
    if answer.is_ok() {
        let cpu = Changes {
            old: call.cpu(),
            new: after.cpu(),
        };
        let buffer = Changes {
            old: &old,
            new: &new,
        };
        write!(out, " zf {} cpu{cpu} buffer{buffer}", zf(after.cpu()))?;
    }
    Ok(())
}

/// Makes the call, and writes what there is to say of it, to the end of the line.
pub fn run(out: &mut impl Write, machine: &mut Machine, call: &Call) -> io::Result<()> {
    let before = *machine;
    let kind = call.kind();
    write!(out, " {kind}")?;
    match kind {
        Kind::PowerOn => power_on(out, machine, call)?,
        Kind::Read => read(out, machine, call)?,
        Kind::Write => {
            let answer = machine::write(
                machine,
                call.processor(),
                call.cpl(),
                call.address(),
                call.value(),
            );
            write_number(out, answer)?;
        }
        Kind::Settle => write_number(out, machine::settle(machine, call.code()))?,
        Kind::Sleep => write_number(out, machine::sleep(machine, call.code()))?,
        Kind::Reset => write_number(out, machine::reset(machine))?,
        Kind::Step => step(out, machine, call)?,
        Kind::Lend => *machine = read_machine(&call.machine()),
        Kind::Cpuid => cpuid(out, machine, call)?,
        Kind::Taken => write_number(out, machine::taken(machine))?,
        Kind::Counter => count(out, machine, call)?,
    }
    let changes = MachineChanges {
        before: &before,
        after: machine,
    };
    writeln!(out, "{changes}")
}
