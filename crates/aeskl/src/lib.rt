// The eight uses of a handle (Intel 343965-001US 3.2 to 3.9), over one IWKey, the handle and the CPU record.
#![tactic(auto)]

ghost use Rattle.std.specs.Prelude.{◌≡◌, [], ◌∷◌, ◌/◌, length};
ghost use Rattle.bits.specs.Blocks.{map_blocks};
ghost use Rattle.fips197.specs.InvCipher.{inv_cipher};
ghost use Rattle.fips197.specs.Sizes.{nr};
ghost use Rattle.aes.specs.Meaning.{bytes_of, schedule};
ghost use Rattle.keywrap.specs.Meaning.{handle_bytes};
ghost use Rattle.model.specs.Cpu.{cpl};
ghost use Rattle.model.specs.Instructions as instructions;
ghost use Rattle.aeskl.specs.Meaning.{used, used_by};

use aes::{Block, Schedule};
use aes_blocks::{AesTables, encrypt_blocks};
use aes_inv_blocks::{decrypt_block, decrypt_blocks};
use aes_key::expand;
use cpu::{Cpu, put_xmm, put_zf, xmm};
use fips197::{Direction, KeySize};
use keywrap::Handle;
use keywrap::siv::unwrap;
use model::IwKey;
use sbox::Sbox;

// Each direction has a restriction bit of its own, so an arm for each.
fn forbids(direction: Direction, restrictions: u128) -> bool
    ensures { result ≡ instructions.forbids direction restrictions }
{
    match direction {
        Direction::Encrypt => restrictions / 2 % 2 == 1,
        Direction::Decrypt => restrictions / 4 % 2 == 1,
    }
}

// The AAD's key type. `encodekey::aad_of` has the same two arms. Of the crates that both use, `model` has no code, `cpu` knows no handle, and `keywrap` does
// not know the model, whose `type_of` this is; a crate for two arms is no plainer.
fn type_of(size: KeySize) -> u128
    ensures { result ≡ instructions.type_of size }
{
    match size {
        KeySize::Aes128 => 0,
        KeySize::Aes256 => 1,
    }
}

/// A handle that is not unwrapped: a reserved bit of its AAD is set, its key type is another, or the AAD forbids this direction or a CPL above 0.
pub fn illegal(cpl: u8, size: KeySize, direction: Direction, aad: Block) -> bool
    ensures { result ≡ instructions.illegal cpl size direction (bytes_of aad) }
{
    let aad = u128::from(aad);
    let reserved = aad >> 28 != 0 || (aad >> 3) % 0x20_0000 != 0;
    let key_type = (aad >> 24) % 16;
    let restrictions = aad % 8;
    reserved
        || key_type != type_of(size)
        || restrictions % 2 == 1 && cpl > 0
        || forbids(direction, restrictions)
}

// One block by products, whose table is the sooner made; more by the table of inverse columns: for one block that is slower.
fn decipher(sbox: &Sbox, room: &mut [u32; 256], w: &Schedule, blocks: &mut [u8])
    ensures { blocks.new ≡ map_blocks (inv_cipher (schedule w.now.size w.now.words) (nr w.now.size)) (length blocks.old / 16) blocks.old }
{
    if let Some(block) = blocks.as_mut_array::<16>() {
        *block = decrypt_block(&sbox.table, room, w, Block::from(*block)).into();
    } else {
        decrypt_blocks(&sbox.table, room, w, blocks);
    }
}

// A use over its blocks, in place, and ZF: only where unwrapping hands out a key are they touched. An illegal handle is not unwrapped, and no table is made for
// it. Decryption makes its table in the room of the cipher's, which nothing needs after the unwrapping.
fn use_blocks(
    direction: Direction,
    size: KeySize,
    cpl: u8,
    k: &IwKey,
    h: &Handle,
    blocks: &mut [u8],
) -> bool
    ensures { used result blocks.new ≡ used_by (λ key. map_blocks (instructions.aes direction size key) (length blocks.old / 16)) (instructions.opened_for k.now cpl size direction (handle_bytes size h.now)) blocks.old }
{
    if illegal(cpl, size, direction, h.aad) {
        return true;
    }
    let sbox = Sbox::new();
    let mut room = [0; 256];
    let tables = AesTables::new(&sbox, &mut room);
    let Some(key) = unwrap(&tables, size, &k.integrity, &k.encryption, h) else {
        // ZF is set, and the blocks go back as they came.
        return true;
    };
    let w = expand(&sbox, size, &key);
    // An arm for each direction: decryption makes a table of its own, in the room of the cipher's.
    match direction {
        Direction::Encrypt => encrypt_blocks(&tables, &w, blocks),
        Direction::Decrypt => decipher(&sbox, &mut room, &w, blocks),
    }
    false
}

// IWKey, handle and record are lent each by itself, here and in the next, as machine, memory and C have them: a struct would be taken apart where it is made.
// Direction and size come of `Use` and `WideUse`, two types.

/// AESENC128KL, AESDEC128KL, AESENC256KL, AESDEC256KL: on one register.
pub fn use_single(direction: Direction, size: KeySize, n: u8, k: &IwKey, h: &Handle, cpu: &mut Cpu)
    ensures { cpu.new ≡ instructions.ciphered direction size (n ∷ []) (instructions.opened_for k.now (cpl cpu.old) size direction (handle_bytes size h.now)) cpu.old }
{
    let mut block: [u8; 16] = xmm(cpu, n).into();
    let zf = use_blocks(direction, size, cpu::cpl(cpu), k, h, &mut block);
    put_xmm(cpu, n, block.into());
    put_zf(cpu, zf);
}

/// The wide forms, on XMM0 to XMM7: the first 128 bytes of the record.
pub fn use_wide(direction: Direction, size: KeySize, k: &IwKey, h: &Handle, cpu: &mut Cpu)
    ensures { cpu.new ≡ instructions.ciphered direction size (0 ∷ 1 ∷ 2 ∷ 3 ∷ 4 ∷ 5 ∷ 6 ∷ 7 ∷ []) (instructions.opened_for k.now (cpl cpu.old) size direction (handle_bytes size h.now)) cpu.old }
{
    let cpl = cpu::cpl(cpu);
    let zf = use_blocks(direction, size, cpl, k, h, &mut cpu[..128]);
    put_zf(cpu, zf);
}
