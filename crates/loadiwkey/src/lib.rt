// LOADIWKEY (Intel 343965-001US 3.12), over one IWKey and the CPU record.
#![tactic(auto)]

ghost use Rattle.std.specs.Prelude.{◌≡◌, ◌++◌, ◌≤◌};
ghost use Rattle.bits.specs.Bytes.{xor_bytes};
ghost use Rattle.aes.specs.Meaning.{bytes_of};
ghost use Rattle.model.specs.Instructions as instructions;
ghost use Rattle.model.specs.Numbers.{part};
ghost use Rattle.loadiwkey.specs.Meaning.{random_data, executed};

use aes::word::block_at;
use aes::{Block, Key};
use cpu::{Cpu, key_source, no_backup, put_zf, register_of, xmm};
use isa::LoadIwKey;
use model::IwKey;

// The encryption key's low half is SRC2 and its high half SRC1; the integrity key is XMM0.
fn plain_key(l: &LoadIwKey, cpu: &Cpu) -> IwKey
    ensures { result ≡ instructions.plain_key l.now cpu.now }
{
    let encryption = Key {
        low: xmm(cpu, register_of(&l.src2)),
        high: xmm(cpu, l.src1),
    };
    IwKey {
        integrity: xmm(cpu, 0).into(),
        encryption: encryption.into(),
        source: key_source(cpu),
        no_backup: no_backup(cpu),
    }
}

// Random bytes 0 to 31 go into the encryption key, 32 to 47 into the integrity key. By words: single bytes the compiler would keep apart, and a mask in
// read-only data to put them together.
fn mixed(k: &IwKey, random: &[u8; 48]) -> IwKey
    ensures { result ≡ instructions.mixed_with random.now k.now }
{
    let integrity = Block::from(k.integrity);
    let encryption = Key::from(k.encryption);
    let mixed = Key {
        low: encryption.low.xor(block_at(random, 0)),
        high: encryption.high.xor(block_at(random, 16)),
    };
    IwKey {
        integrity: integrity.xor(block_at(random, 32)).into(),
        encryption: mixed.into(),
        ..*k
    }
}

// IWKey and record are lent each by itself, as `instructions::execute` is lent them.

/// The IWKey after it. Not ready, that is without random data, at key source 1: ZF is 1 and the IWKey is kept.
#[tactic(auto, unfolding(model::specs::Instructions::loaded_key))]
pub fn load(l: &LoadIwKey, random: Option<&[u8; 48]>, k: &IwKey, cpu: &mut Cpu) -> IwKey
    ensures { executed result cpu.new ≡ instructions.load l.now (random_data random.entry) k.now cpu.old }
{
    let plain = plain_key(l, cpu);
    // A number and no enum: the byte of the IWKey's record, as C has it.
    if plain.source != 1 {
        put_zf(cpu, false);
        return plain;
    }
    let Some(bytes) = random else {
        put_zf(cpu, true);
        return *k;
    };
    put_zf(cpu, false);
    mixed(&plain, bytes)
}
