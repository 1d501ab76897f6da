// The backup registers over one processor and the platform (Intel 343965-001US, chapter 4), and what the persistent storage does.
#![tactic(auto)]

ghost use Rattle.std.specs.Prelude.{◌≡◌};
ghost use Rattle.model.specs.Records as records;
ghost use Rattle.model.specs.Backup as backup;
ghost use Rattle.platform.specs.Meaning.{copied};

use model::{IwKey, Platform, Processor, Slot};

/// The IWKey of a processor after power-on, and of a place that has none.
pub const ZERO_KEY: IwKey = IwKey {
    integrity: [0; 16],
    encryption: [0; 32],
    source: 0,
    no_backup: 0,
};

pub const ABSENT: Slot = Slot {
    present: 0,
    key: ZERO_KEY,
};

// Entry and platform are lent each by itself, as parts of a machine; the other entries are nobody's business here.

// Write of 0xD91, bit 0 set: the backup is not replaced while the storage is still at work on it.
#[tactic(auto, unfolding(model::specs::Backup::copy_out))]
fn copy_out(e: &mut Processor, f: &mut Platform)
    ensures { copied e.new f.new ≡ backup.copy_out e.old f.old }
{
    if e.key.no_backup == 1 || f.pending == 1 {
        e.copy_status = 0;
    } else {
        f.backup = Slot {
            present: 1,
            key: e.key,
        };
        f.pending = 1;
        f.valid = 0;
        f.error = 0;
        f.consumed = 0;
        e.copy_status = 1;
    }
}

// Write of 0xD92, bit 0 set: without a backup it fails, and the copy status says so.
#[tactic(auto, unfolding(model::specs::Backup::copy_in))]
fn copy_in(e: &mut Processor, f: &Platform)
    ensures { copied e.new f.now ≡ backup.copy_in e.old f.now }
{
    if f.backup.present == 1 {
        e.key = f.backup.key;
    }
    e.copy_status = u8::from(f.backup.present == 1);
}

/// A write with bit 0 clear does nothing. Addresses stay numbers, here and below: they are Intel's, and the promises are of every one.
pub fn write_register(e: &mut Processor, f: &mut Platform, address: u32, value: u64)
    ensures { copied e.new f.new ≡ backup.written address value e.old f.old }
{
    if value % 2 == 1 {
        if address == 0xD91 {
            copy_out(e, f);
        } else {
            copy_in(e, f);
        }
    }
}

/// 0x990 is IA32_COPY_STATUS, 0x991 IA32_IWKEYBACKUP_STATUS: valid in bit 0, error in bit 2, consumed in bit 3.
pub fn read_register(e: &Processor, f: &Platform, address: u32) -> u64
    ensures { result ≡ backup.register_read address e.now f.now }
{
    if address == 0x990 {
        return u64::from(e.copy_status);
    }
    u64::from(f.valid) + 4 * u64::from(f.error) + 8 * u64::from(f.consumed)
}

/// The storage is done: good is 0, bad is 1 (a number, here and in `wake`: the promise is of every code). It matters only while it is pending.
#[tactic(auto, unfolding(model::specs::Backup::settled))]
pub fn settle(f: &mut Platform, code: u8)
    ensures { f.new ≡ backup.settled code f.old }
{
    if f.pending == 1 {
        let good = code == 0;
        *f = Platform {
            store: if good { f.backup } else { ABSENT },
            pending: 0,
            valid: u8::from(good),
            error: u8::from(!good),
            consumed: 1,
            ..*f
        };
    }
}

/// The platform has taken the backup, and its storage is still at work on it.
#[tactic(auto, unfolding(model::specs::Backup::with_taken))]
pub fn note_taken(f: &mut Platform)
    ensures { f.new ≡ backup.with_taken f.old }
{
    if f.pending != 1 {
        return;
    }
    f.consumed = 1;
}

// What the store holds after a sleep: if pending, what it was, the backup, or junk; if not, only code 2 alters it. Junk is an absent store.
fn store_kept(f: &Platform, code: u8) -> Slot
    ensures { result ≡ backup.store_kept code f.now }
{
    if code == 2 {
        ABSENT
    } else if code == 1 && f.pending == 1 {
        f.backup
    } else {
        f.store
    }
}

/// After a wake the backup is what the store kept.
#[tactic(auto, unfolding(model::specs::Backup::woken))]
pub fn wake(f: &mut Platform, code: u8)
    ensures { f.new ≡ backup.woken code f.old }
{
    let kept = store_kept(f, code);
    *f = Platform {
        backup: kept,
        store: kept,
        pending: 0,
        valid: u8::from(kept.present == 1),
        error: u8::from(code == 2),
        consumed: 0,
    };
}
