// The machine into the 924 bytes that C lends, in parts of fixed length as `layout` reads them.
#![tactic(auto)]

ghost use Rattle.std.specs.Prelude.{◌≡◌, ◌+◌, ◌*◌, ◌%◌, ◌≤◌, length};
ghost use Rattle.std.proofs.lemmas.List.Edits.{sets};
ghost use Rattle.model.specs.Records.{processor_limit};
ghost use Rattle.model.specs.Layout as layout;

use layout::{
    Block, CONSUMED, ENTRIES, ENTRY_SIZE, ERROR, INTEGRITY_SIZE, KEY_SIZE, NO_BACKUP, PENDING,
    PLATFORM, SLOT_SIZE, SOURCE, VALID,
};
use model::{IwKey, Machine, Platform, Processor, Slot};
use parts::put_part;

// A function for a part also says how many bytes that has, so that its caller knows where the next part begins. Slice and place go as in `layout`.
#[tactic(auto, using(crate::proofs::Write::key_length, crate::proofs::Write::key_written))]
fn put_key(s: &mut [u8], at: usize, key: &IwKey)
    requires { at + layout.iw_key_size ≤ length s.old }
    ensures bytes { s.new ≡ sets s.old at (layout.key_bytes key.now) }
    ensures size { length (layout.key_bytes key.now) ≡ layout.iw_key_size }
{
    put_part(s, at, &key.integrity);
    put_part(s, at + INTEGRITY_SIZE, &key.encryption);
    s[at + SOURCE] = key.source;
    s[at + NO_BACKUP] = key.no_backup;
}

#[tactic(auto, using(crate::proofs::Write::entry_length, crate::proofs::Write::entry_written))]
fn put_entry(s: &mut [u8], at: usize, e: &Processor)
    requires { at + layout.entry_size ≤ length s.old }
    ensures bytes { s.new ≡ sets s.old at (layout.entry_bytes e.now) }
    ensures size { length (layout.entry_bytes e.now) ≡ layout.entry_size }
{
    put_key(s, at, &e.key);
    s[at + KEY_SIZE] = e.copy_status;
}

#[tactic(auto, using(crate::proofs::Write::entries_length, crate::proofs::Write::entries_written))]
fn put_entries(s: &mut [u8], at: usize, processors: &[Processor; 16])
    requires { at + processor_limit * layout.entry_size ≤ length s.old }
    ensures bytes { s.new ≡ sets s.old at (layout.entries_bytes processors.now) }
    ensures size { length (layout.entries_bytes processors.now) ≡ processor_limit * layout.entry_size }
{
    for (i, e) in processors.iter().enumerate() {
        put_entry(s, at + i * ENTRY_SIZE, e);
    }
}

#[tactic(auto, using(crate::proofs::Write::slot_written))]
fn put_slot(s: &mut [u8], at: usize, slot: &Slot)
    requires { at + layout.slot_size ≤ length s.old }
    ensures bytes { s.new ≡ sets s.old at (layout.slot_bytes slot.now) }
    ensures size { length (layout.slot_bytes slot.now) ≡ layout.slot_size }
{
    s[at] = slot.present;
    put_key(s, at + 1, &slot.key);
}

#[tactic(auto, using(crate::proofs::Write::platform_length, crate::proofs::Write::platform_written))]
fn put_platform(s: &mut [u8], at: usize, f: &Platform)
    requires { at + layout.platform_size ≤ length s.old }
    ensures bytes { s.new ≡ sets s.old at (layout.platform_bytes f.now) }
    ensures size { length (layout.platform_bytes f.now) ≡ layout.platform_size }
{
    put_slot(s, at, &f.backup);
    put_slot(s, at + SLOT_SIZE, &f.store);
    s[at + PENDING] = f.pending;
    s[at + VALID] = f.valid;
    s[at + ERROR] = f.error;
    s[at + CONSUMED] = f.consumed;
}

/// The whole block: what `read_machine` reads of it is the machine again.
pub fn write_machine(block: &mut Block, m: &Machine)
    ensures { block.new ≡ layout.machine_bytes m.now }
{
    block[0] = m.count;
    block[1] = m.features;
    put_entries(block, ENTRIES, &m.processors);
    put_platform(block, PLATFORM, &m.platform);
}

/// A processor's entry alone, where nothing else of the machine has changed.
pub fn write_entry(block: &mut Block, p: u8, e: &Processor)
    ensures { block.new ≡ sets block.old (2 + p % 16 * layout.entry_size) (layout.entry_bytes e.now) }
{
    put_entry(block, ENTRIES + (p % 16) as usize * ENTRY_SIZE, e);
}
