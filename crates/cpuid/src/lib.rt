// CPUID: what leaf 7 and leaf 0x19 tell of Key Locker, from the feature byte and the control bits of a CPU record.
#![tactic(auto)]

ghost use Rattle.std.specs.Prelude.{◌≡◌, true, cond, ◌≤◌};
ghost use Rattle.model.specs.Records.{key_locker};
ghost use Rattle.cpuid_model.specs.Leaves as leaves;

use cpu::{CR4_KL, bit};
use cpuid_model::Leaf;
use model::{BACKUP_REGISTERS, FIRMWARE_ENABLED, KEY_LOCKER, NO_BACKUP, RANDOM_SOURCE, WIDE_FORMS};

// A leaf that tells nothing.
const EMPTY: Leaf = Leaf {
    eax: 0,
    ebx: 0,
    ecx: 0,
    edx: 0,
};

// The value of a bit that is told, or 0: each bit has its own value, so no From<bool>.
fn value_if(told: bool, value: u32) -> u32
    ensures value { result ≡ cond told value 0 }
    ensures at_most { result ≤ value }
{
    if told { value } else { 0 }
}

fn leaf_7(features: u8) -> Leaf
    ensures { result ≡ leaves.leaf7 features }
{
    Leaf {
        ecx: value_if(bit(KEY_LOCKER, features), 0x80_0000),
        ..EMPTY
    }
}

// With Key Locker. AESKLE is left to firmware and operating system.
fn leaf_19(features: u8, control: u8) -> Leaf
    requires { key_locker features ≡ true }
    ensures { result ≡ leaves.leaf19 features control }
{
    let aeskle = value_if(bit(FIRMWARE_ENABLED, features) && bit(CR4_KL, control), 1);
    let wide_kl = value_if(bit(WIDE_FORMS, features), 4);
    let backup = value_if(bit(BACKUP_REGISTERS, features), 16);
    let no_backup = value_if(bit(NO_BACKUP, features), 1);
    let random = value_if(bit(RANDOM_SOURCE, features), 2);
    Leaf {
        eax: 7,
        ebx: aeskle + wide_kl + backup,
        ecx: no_backup + random,
        ..EMPTY
    }
}

/// EAX to EDX as CPUID answers in them.
#[tactic(auto, using(cpuid_model::proofs::Choices::cpuid_7, cpuid_model::proofs::Choices::cpuid_19, cpuid_model::proofs::Choices::cpuid_other))]
pub fn registers(features: u8, control: u8, leaf: u32, subleaf: u32) -> Leaf
    ensures { result ≡ leaves.cpuid features control leaf subleaf }
{
    match (leaf, subleaf) {
        (7, 0) => leaf_7(features),
        (0x19, _) if bit(KEY_LOCKER, features) => leaf_19(features, control),
        _ => EMPTY,
    }
}
