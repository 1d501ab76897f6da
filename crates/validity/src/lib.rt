// Refusal 1: what is asked of a machine record. It is asked at every call, so nothing here stops early: a loop without an exit is compiled to a
// few wide compares.
#![tactic(auto)]

ghost use Rattle.std.specs.Prelude.{◌≡◌};
ghost use Rattle.model.specs.Numbers.{all_zero};
ghost use Rattle.model.specs.Validity as validity;

use model::{IwKey, Machine, Platform, Processor, Slot};

#[tactic(auto, using(crate::proofs::Loops::zero_more))]
fn is_zero(bytes: &[u8]) -> bool
    ensures { result ≡ all_zero bytes.now }
{
    let mut zero = true;
    for byte in bytes {
        zero &= *byte == 0;
    }
    zero
}

fn is_zero_key(key: &IwKey) -> bool
    ensures { result ≡ validity.is_zero_key key.now }
{
    is_zero(&key.integrity) & is_zero(&key.encryption) & (key.source == 0) & (key.no_backup == 0)
}

fn is_valid_key(key: &IwKey) -> bool
    ensures { result ≡ validity.valid_key key.now }
{
    (key.source < 2) & (key.no_backup < 2)
}

// An entry past the count is all zero.
fn is_valid_processor(below: bool, e: &Processor) -> bool
    ensures { result ≡ validity.valid_processor below e.now }
{
    if below {
        is_valid_key(&e.key) & (e.copy_status < 2)
    } else {
        is_zero_key(&e.key) & (e.copy_status == 0)
    }
}

#[tactic(auto, using(crate::proofs::Loops::valid_more), unfolding(model::specs::Validity::valid_processors))]
fn are_valid_processors(count: usize, processors: &[Processor; 16]) -> bool
    ensures { result ≡ validity.valid_processors count 0 processors.now }
{
    let mut valid = true;
    for (i, e) in processors.iter().enumerate() {
        valid &= is_valid_processor(i < count, e);
    }
    valid
}

// The IWKey of a place that is absent is all zero.
fn is_valid_slot(slot: &Slot) -> bool
    ensures { result ≡ validity.valid_slot slot.now }
{
    let flag = slot.present < 2;
    if slot.present == 1 {
        flag & is_valid_key(&slot.key)
    } else {
        flag & is_zero_key(&slot.key)
    }
}

fn is_valid_platform(f: &Platform) -> bool
    ensures { result ≡ validity.valid_platform f.now }
{
    is_valid_slot(&f.backup)
        & is_valid_slot(&f.store)
        & (f.pending < 2)
        & (f.valid < 2)
        & (f.error < 2)
        & (f.consumed < 2)
}

#[tactic(auto, unfolding(model::specs::Validity::valid))]
pub fn is_valid(m: &Machine) -> bool
    ensures { result ≡ validity.valid m.now }
{
    (1 <= m.count)
        & (m.count <= 16)
        & (m.features < 64)
        & are_valid_processors(m.count as usize, &m.processors)
        & is_valid_platform(&m.platform)
}
