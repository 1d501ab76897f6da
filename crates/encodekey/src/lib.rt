// ENCODEKEY128 and ENCODEKEY256 (Intel 343965-001US 3.10 and 3.11), over one IWKey and the CPU record.
#![tactic(auto)]

ghost use Rattle.std.specs.Prelude.{◌≡◌, ◌*◌, take, replicate};
ghost use Rattle.std.proofs.lemmas.List.Edits.{sets};
ghost use Rattle.aes.specs.Meaning.{bytes_of};
ghost use Rattle.handle.specs.Format.{aad};
ghost use Rattle.keywrap.specs.Meaning.{whole_key, handle_bytes};
ghost use Rattle.model.specs.Cpu.{xmm_at};
ghost use Rattle.model.specs.Instructions as instructions;

use aes::{Block, Key};
use cpu::{Cpu, put_register, put_xmm, put_zf, register, register_of, xmm};
use fips197::KeySize;
use isa::EncodeKey;
use keywrap::Handle;
use keywrap::siv::wrap;
use model::IwKey;
use parts::{part, put_part};

// Key type in bits 27:24, restrictions in bits 2:0.
#[tactic(auto, unfolding(handle::specs::Format::aad))]
fn aad_of(size: KeySize, source: u64) -> Block
    ensures { bytes_of result ≡ aad (instructions.type_of size) source }
{
    // The same two arms as in `aeskl::type_of`, where the reason stands.
    let key_type = match size {
        KeySize::Aes128 => 0,
        KeySize::Aes256 => 1,
    };
    let aad: u128 = (key_type << 24) + (source % 8) as u128;
    Block::from(aad.to_le_bytes())
}

// The key to encode stands in XMM0 and, for 256 bits, XMM1.
fn key_in(cpu: &Cpu) -> Key
    ensures { whole_key result ≡ take 32 cpu.now }
{
    Key {
        low: xmm(cpu, 0),
        high: xmm(cpu, 1),
    }
}

// The handle goes to XMM0 to XMM2 or XMM3: an arm for each size, since a part has its length in its type.
fn put_handle(cpu: &mut Cpu, size: KeySize, h: &Handle)
    ensures { cpu.new ≡ sets cpu.old (xmm_at 0) (handle_bytes size h.now) }
{
    let bytes: [u8; 64] = (*h).into();
    match size {
        KeySize::Aes128 => put_part(cpu, 0, &part::<48>(&bytes, 0)),
        KeySize::Aes256 => put_part(cpu, 0, &bytes),
    }
}

// XMM4 to XMM6 become zero. A `for` over three registers is no shorter.
fn clear_xmm(cpu: &mut Cpu)
    ensures { cpu.new ≡ sets cpu.old (xmm_at 4) (replicate (3 * 16) 0) }
{
    put_xmm(cpu, 4, Block::ZERO);
    put_xmm(cpu, 5, Block::ZERO);
    put_xmm(cpu, 6, Block::ZERO);
}

fn handle_of(e: &EncodeKey, k: &IwKey, cpu: &Cpu) -> Handle
    ensures { handle_bytes e.now.size result ≡ instructions.encoded_handle e.now k.now cpu.now }
{
    let source = register(cpu, register_of(&e.source));
    wrap(
        e.size,
        &k.integrity,
        &k.encryption,
        aad_of(e.size, source),
        &key_in(cpu),
    )
}

/// The handle of the key in XMM0 and XMM1, with the IWKey's source and NoBackup in the destination.
// Inlined, its tables would stand in the frame below which a use has its own. IWKey and record are lent each by itself, as `instructions::execute` is lent them.
#[inline(never)]
pub fn encode(e: &EncodeKey, k: &IwKey, cpu: &mut Cpu)
    ensures { cpu.new ≡ instructions.encoded e.now k.now cpu.old }
{
    let h = handle_of(e, k, cpu);
    put_handle(cpu, e.size, &h);
    clear_xmm(cpu);
    put_register(
        cpu,
        e.destination,
        (k.no_backup as u64) + 2 * (k.source as u64),
    );
    put_zf(cpu, false);
}
