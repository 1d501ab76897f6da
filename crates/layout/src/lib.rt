// The machine out of the 924 bytes that C lends. A call reads them all, so bytes go in parts of fixed length, which are compiled to wide moves.
#![tactic(auto)]

ghost use Rattle.std.specs.Prelude.{◌≡◌, ◌+◌, ◌*◌, ◌%◌, ◌≤◌, ◌<◌, length, drop};
ghost use Rattle.model.specs.Records.{processor_limit};
ghost use Rattle.model.specs.Layout as layout;

use model::{IwKey, Machine, Platform, Processor, Slot};
use parts::part;

// Sizes are sums of their parts, and a place is counted from the start of what holds it. `layout_write` goes by the same. Slice and place are handed on one by
// one: a slice cut to each part would be asked for its length at each cut, and name the place all the same.
pub const INTEGRITY_SIZE: usize = 16;

pub const SOURCE: usize = INTEGRITY_SIZE + 32;

pub const NO_BACKUP: usize = SOURCE + 1;

pub const KEY_SIZE: usize = NO_BACKUP + 1;

pub const ENTRY_SIZE: usize = KEY_SIZE + 1;

pub const SLOT_SIZE: usize = 1 + KEY_SIZE;

pub const PENDING: usize = 2 * SLOT_SIZE;

pub const VALID: usize = PENDING + 1;

pub const ERROR: usize = VALID + 1;

pub const CONSUMED: usize = ERROR + 1;

pub const ENTRIES: usize = 2;

pub const PLATFORM: usize = ENTRIES + 16 * ENTRY_SIZE;

/// The bytes that C keeps a machine in, from one call to the next: count, features, 16 entries, then the platform.
pub type Block = [u8; 924];

#[tactic(auto, using(crate::proofs::Read::behind, crate::proofs::Read::byte_behind))]
fn key_at(s: &[u8], at: usize) -> IwKey
    requires { at + layout.iw_key_size ≤ length s.now }
    ensures { result ≡ layout.key_at (drop at s.now) }
{
    IwKey {
        integrity: part(s, at),
        encryption: part(s, at + INTEGRITY_SIZE),
        source: s[at + SOURCE],
        no_backup: s[at + NO_BACKUP],
    }
}

// Its IWKey, then its copy status.
fn entry_at(s: &[u8], at: usize) -> Processor
    requires { at + layout.entry_size ≤ length s.now }
    ensures { result ≡ layout.entry_at (drop at s.now) }
{
    Processor {
        key: key_at(s, at),
        copy_status: s[at + KEY_SIZE],
    }
}

fn entry_number(block: &Block, i: usize) -> Processor
    requires { i < processor_limit }
    ensures { result ≡ layout.entry_at (drop (2 + i * layout.entry_size) block.now) }
{
    entry_at(block, ENTRIES + i * ENTRY_SIZE)
}

// Written out: as an array that a loop fills it was copied twice, and took twice as long (docs/DECISIONS.md, 51).
fn entries(block: &Block) -> [Processor; 16]
    ensures { result ≡ layout.entries_at processor_limit (drop 2 block.now) }
{
    [
        entry_number(block, 0),
        entry_number(block, 1),
        entry_number(block, 2),
        entry_number(block, 3),
        entry_number(block, 4),
        entry_number(block, 5),
        entry_number(block, 6),
        entry_number(block, 7),
        entry_number(block, 8),
        entry_number(block, 9),
        entry_number(block, 10),
        entry_number(block, 11),
        entry_number(block, 12),
        entry_number(block, 13),
        entry_number(block, 14),
        entry_number(block, 15),
    ]
}

// A presence byte, then an IWKey.
fn slot_at(s: &[u8], at: usize) -> Slot
    requires { at + layout.slot_size ≤ length s.now }
    ensures { result ≡ layout.slot_at (drop at s.now) }
{
    Slot {
        present: s[at],
        key: key_at(s, at + 1),
    }
}

// Backup, store, then the four flags: pending, valid, error, consumed.
#[tactic(auto, using(crate::proofs::Read::behind, crate::proofs::Read::byte_behind))]
fn platform_at(s: &[u8], at: usize) -> Platform
    requires { at + layout.platform_size ≤ length s.now }
    ensures { result ≡ layout.platform_at (drop at s.now) }
{
    Platform {
        backup: slot_at(s, at),
        store: slot_at(s, at + SLOT_SIZE),
        pending: s[at + PENDING],
        valid: s[at + VALID],
        error: s[at + ERROR],
        consumed: s[at + CONSUMED],
    }
}

/// The machine whose bytes they are. No From: the machine is `model`'s, and the bytes are an array.
#[tactic(auto, unfolding(model::specs::Layout::machine_at))]
pub fn read_machine(block: &Block) -> Machine
    ensures { result ≡ layout.machine_at block.now }
{
    Machine {
        count: block[0],
        features: block[1],
        processors: entries(block),
        platform: platform_at(block, PLATFORM),
    }
}
