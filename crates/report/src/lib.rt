// What the answers of the program `scenarios` are written with.
#![tactic(auto)]

use cpuid_model::Leaf;
use layout_write::write_machine;
use line::Hex;
use model::Machine;
use std::fmt;

/// The bytes that changed, in groups of four, each run of groups with the place where it begins.
#[derive(Clone, Copy)]
pub struct Changes<'a> {
    pub old: &'a [u8],
    pub new: &'a [u8],
}

impl fmt::Display for Changes<'_> {
    fn fmt<W: fmt::Write>(&self, f: &mut fmt::Formatter<W>) -> fmt::Result {
        let (old, _) = self.old.as_chunks::<4>();
        let (new, _) = self.new.as_chunks::<4>();
        let mut is_run = false;
        for (i, (old, new)) in old.iter().zip(new).enumerate() {
            let is_change = old != new;
            if is_change && !is_run {
                write!(f, " {}:", 4 * i)?;
            }
            if is_change {
                write!(f, "{}", Hex(new))?;
            }
            is_run = is_change;
        }
        Ok(())
    }
}

/// What a call changed in the machine's record.
#[derive(Clone, Copy)]
pub struct MachineChanges<'a> {
    pub before: &'a Machine,
    pub after: &'a Machine,
}

impl fmt::Display for MachineChanges<'_> {
    fn fmt<W: fmt::Write>(&self, f: &mut fmt::Formatter<W>) -> fmt::Result {
        let mut old = [0u8; 924];
        let mut new = [0u8; 924];
        write_machine(&mut old, self.before);
        write_machine(&mut new, self.after);
        let changes = Changes {
            old: &old,
            new: &new,
        };
        write!(f, " machine{changes}")
    }
}

/// The four registers of a CPUID leaf.
#[derive(Clone, Copy)]
pub struct Registers(pub Leaf);

impl fmt::Display for Registers {
    fn fmt<W: fmt::Write>(&self, f: &mut fmt::Formatter<W>) -> fmt::Result {
        let Leaf { eax, ebx, ecx, edx } = self.0;
        write!(
            f,
            " eax {eax:08x} ebx {ebx:08x} ecx {ecx:08x} edx {edx:08x}"
        )
    }
}
