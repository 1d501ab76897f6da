// Counter mode over a lent buffer, under a handle: tested, and done by the IWKey of one processor. The machine is only read.
#![tactic(auto)]

ghost use Rattle.std.specs.Prelude.{◌≡◌, false, true, cond, [], length};
ghost use Rattle.fips197.specs.declared.Direction.TheVariants.{Encrypt};
ghost use Rattle.isa.specs.Ranges.{handle_length};
ghost use Rattle.aes.specs.Meaning.{bytes_of};
ghost use Rattle.keywrap.specs.Meaning.{handle_bytes};
ghost use Rattle.sp800_38a.specs.Counter.{ctr};
ghost use Rattle.aeskl.specs.Meaning.{used, used_by};
ghost use Rattle.model.specs.Calls as calls;
ghost use Rattle.model.specs.Counter.{size_of, counted};
ghost use Rattle.model.specs.Execution as execution;
ghost use Rattle.model.specs.Instructions as instructions;
ghost use Rattle.model.specs.Refusals.{first, bad_size};
ghost use Rattle.refusal.specs.Numbers.{answer_of};
ghost use Rattle.counter.specs.Meaning.{counter_tests, left, left_of};

use aes::Block;
use aes::word::block_at;
use aes_blocks::AesTables;
use aes_key::expand;
use aeskl::illegal;
use cpu::{Cpu, bit, control, cpl, put_zf};
use ctr::mask;
use fips197::{Direction, KeySize};
use instructions::handle_at;
use keywrap::Handle;
use keywrap::siv::unwrap;
use model::{IwKey, Machine, WIDE_FORMS};
use refusal::{Refusal, refuse_if};
use refusals::{View, ask_processor, ask_record, ask_single};
use sbox::Sbox;
use validity::is_valid;

const BUFFER_LIMIT: usize = 65536;

const COUNTER_SIZE: usize = 16;

// ---- the refusals

// 18.
fn bad_size(handle: &[u8], counter: &[u8], buffer: &[u8]) -> bool
    ensures { result ≡ bad_size (record { processor = 0; cpu = []; handle = handle.now; counter = counter.now; buffer = buffer.now }) }
{
    buffer.len() > BUFFER_LIMIT || !matches!(handle.len(), 48 | 64) || counter.len() != COUNTER_SIZE
}

// 3, 4, 5, 18, 10 and 11, in this order. What a call is lent comes as C lends it, here and below: a struct of it would be taken apart where it is made.
fn ask(
    view: View,
    processor: u8,
    cpu: &[u8],
    handle: &[u8],
    counter: &[u8],
    buffer: &[u8],
) -> Result<(), Refusal>
    ensures { answer_of result ≡ first (counter_tests (record { count = view.count; features = view.features }) (record { processor = processor; cpu = cpu.now; handle = handle.now; counter = counter.now; buffer = buffer.now })) }
{
    ask_processor(view, processor)?;
    let cpu = ask_record(cpu)?;
    refuse_if(bad_size(handle, counter, buffer), Refusal::BufferSize)?;
    ask_single(view.features, control(cpu))
}

// ---- the buffer, by one IWKey

// ZF after it. It begins as `aeskl::use_blocks`, which lends the room of the table on: one function with a closure would have to lend both at once. An
// illegal handle is not unwrapped, and no table is made for it. Inlined, its tables would stand in the frame of a refused call.
#[inline(never)]
fn used_buffer(
    wide: bool,
    size: KeySize,
    cpl: u8,
    k: &IwKey,
    h: &Handle,
    c: Block,
    buffer: &mut [u8],
) -> bool
    ensures { used result buffer.new ≡ used_by (λ key. ctr (instructions.aes Encrypt size key) (bytes_of c)) (instructions.opened_for k.now cpl size Encrypt (handle_bytes size h.now)) buffer.old }
{
    if illegal(cpl, size, Direction::Encrypt, h.aad) {
        // ZF is set, and the buffer goes back as it came.
        return true;
    }
    let sbox = Sbox::new();
    let mut room = [0; 256];
    let tables = AesTables::new(&sbox, &mut room);
    let Some(key) = unwrap(&tables, size, &k.integrity, &k.encryption, h) else {
        // ZF is set, and the buffer goes back as it came.
        return true;
    };
    let w = expand(&sbox, size, &key);
    mask(wide, &tables.plain(), &w, c, buffer);
    false
}

// No From: the enum is that of `fips197`, which knows nothing of handles.
fn size_of(handle: &[u8]) -> KeySize
    ensures { result ≡ size_of handle.now }
{
    if handle.len() == 48 {
        KeySize::Aes128
    } else {
        KeySize::Aes256
    }
}

// A call that no refusal stops.
fn perform(wide: bool, k: &IwKey, cpu: &mut Cpu, handle: &[u8], counter: &[u8], buffer: &mut [u8])
    requires handle_len { length handle.now ≡ handle_length (size_of handle.now) }
    requires counter_len { length counter.now ≡ 16 }
    ensures { record { cpu = cpu.new; buffer = buffer.new } ≡ counted (record { processor = 0; cpu = cpu.old; handle = handle.now; counter = counter.now; buffer = buffer.old }) k.now }
{
    let size = size_of(handle);
    let h = handle_at(handle, 0, size);
    let c = block_at(counter, 0);
    let zf = used_buffer(wide, size, cpl(cpu), k, &h, c, buffer);
    put_zf(cpu, zf);
}

// ---- the call

/// The buffer masked under the handle, and the record's flags as after a use; neither changes where the call is turned back.
#[tactic(auto, using(crate::proofs::Calls::invalid_left, crate::proofs::Calls::stopped_left, crate::proofs::Calls::done_left))]
pub fn count(
    m: &Machine,
    processor: u8,
    cpu: &mut [u8],
    handle: &[u8],
    counter: &[u8],
    buffer: &mut [u8],
) -> Result<(), Refusal>
    ensures { left (answer_of result) m.now cpu.new buffer.new ≡ left_of (execution.call m.now (calls.counter (record { processor = processor; cpu = cpu.old; handle = handle.now; counter = counter.now; buffer = buffer.old }))) }
{
    refuse_if(!is_valid(m), Refusal::Machine)?;
    ask(View::from(m), processor, cpu, handle, counter, buffer)?;
    // `ask` found its length. It cannot hand the record out: it is lent shared there, and written here.
    let cpu: &mut Cpu = cpu.as_mut_array().unwrap();
    // The processor is below the count here; the remainder is for the index alone.
    let e = &m.processors[usize::from(processor % 16)];
    perform(
        bit(WIDE_FORMS, m.features),
        &e.key,
        cpu,
        handle,
        counter,
        buffer,
    );
    Ok(())
}
