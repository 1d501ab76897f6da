// The emulated machine: its records. The definitions are in specs/, the laws in proofs/; the code is in `step` and `machine`.
#![tactic(auto)]

pub mod theorems;

// Bits of the feature byte.
pub const KEY_LOCKER: u8 = 0;

pub const FIRMWARE_ENABLED: u8 = 1;

pub const WIDE_FORMS: u8 = 2;

pub const BACKUP_REGISTERS: u8 = 3;

pub const NO_BACKUP: u8 = 4;

pub const RANDOM_SOURCE: u8 = 5;

// Flags are bytes, 0 or 1, and a slot has a presence byte. They stay so: a record by value has to hold what refusal 1 turns back.
#[derive(Clone, Copy)]
pub struct IwKey {
    pub integrity: [u8; 16],
    pub encryption: [u8; 32],
    pub source: u8,
    pub no_backup: u8,
}

// A logical processor: its IWKey, and bit 0 of IA32_COPY_STATUS.
#[derive(Clone, Copy)]
pub struct Processor {
    pub key: IwKey,
    pub copy_status: u8,
}

// A place for one IWKey; where it is absent, the IWKey is zero.
#[derive(Clone, Copy)]
pub struct Slot {
    pub present: u8,
    pub key: IwKey,
}

// What the processors share: IWKeyBackup, the persistent storage (the scope's store), whether the storage is still at work, and the bits of
// IA32_IWKEYBACKUP_STATUS.
#[derive(Clone, Copy)]
pub struct Platform {
    pub backup: Slot,
    pub store: Slot,
    pub pending: u8,
    pub valid: u8,
    pub error: u8,
    pub consumed: u8,
}

#[derive(Clone, Copy)]
pub struct Machine {
    pub count: u8,
    pub features: u8,
    pub processors: [Processor; 16],
    pub platform: Platform,
}
