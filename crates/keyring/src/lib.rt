// A keyring: handles kept by label, in 80-byte records on sixteen chains. Both calls have an answer for every block, label and handle.
#![tactic(auto)]

ghost use Rattle.std.specs.Prelude.{◌≡◌, ◌≢◌, true, false, ◌+◌, ◌-◌, ◌*◌, ◌≤◌, ◌<◌, List, ℕ, length, Option, Some, None, IfSome, IfOk, IfErr};
ghost use Rattle.std.proofs.lemmas.List.Edits.{sets};
ghost use Rattle.bits.specs.Words.{le_bytes};
ghost use Rattle.keyring_model.specs.Records as records;
ghost use Rattle.keyring_model.specs.Chains.{chain};
ghost use Rattle.keyring_model.specs.Validity as validity;
ghost use Rattle.keyring_model.specs.Lookup as lookups;
ghost use Rattle.keyring_model.specs.Add as adding;
ghost use Rattle.keyring_validity.specs.Marks.{Unmarked, Checked};
ghost use Rattle.refusal.specs.declared.Refusal.TheVariants as refusals;
ghost use Rattle.refusal.specs.Numbers.{answer_of};
ghost use Rattle.keyring.specs.Meaning.{found_of, looked_of, entry_of, is_handle_size, unmarked};

use keyring_validity::{HEADS, KIND, Marks, RECORD_SIZE, ZERO, fresh_marks, index_at, valid};
use parts::put_part;
use refusal::{Refusal, refuse_if};

const LABEL: usize = 4;

const HANDLE: usize = 16;

const LABEL_SIZE: usize = 12;

const HANDLE_128: usize = 48;

const HANDLE_256: usize = 64;

type Label = [u8; 12];

/// What a label gives: the kind of its handle, and the handle with zeros behind it.
#[derive(Clone, Copy)]
pub struct Entry {
    /// 0 or 1, as the record has it and as C is given it.
    pub kind: u8,
    pub handle: [u8; 64],
}

// ---- refusal 15

fn ask_valid(keyring: &[u8], marks: &mut Marks) -> Result<(), Refusal>
    requires { Unmarked marks.old }
    ensures ok { IfOk result (λ _. Checked keyring.now marks.new true) }
    ensures err { IfErr result (λ e. (e ≡ refusals.Keyring) × (validity.valid keyring.now ≡ false)) }
{
    refuse_if(!valid(keyring, marks), Refusal::Keyring)
}

fn ask_label(label: &[u8]) -> Result<&Label, Refusal>
    ensures ok { IfOk result (λ l. (l.now ≡ label.now) × (length label.now ≡ 12)) }
    ensures err { IfErr result (λ e. (e ≡ refusals.Keyring) × (length label.now ≢ 12)) }
{
    label.as_array().ok_or(Refusal::Keyring)
}

// A handle, and zeros behind it.
#[tactic(auto, using(crate::proofs::Written::zeros_behind))]
fn zero_filled(handle: &[u8]) -> [u8; 64]
    requires { length handle.now ≤ 64 }
    ensures { result ≡ records.zero_filled handle.now }
{
    let mut filled = [0; HANDLE_256];
    // Byte by byte: `copy_from_slice` is a call of memmove, which the library asks of nobody.
    for (i, b) in handle.iter().enumerate() {
        filled[i] = *b;
    }
    filled
}

fn ask_handle(handle: &[u8]) -> Result<Entry, Refusal>
    ensures ok { IfOk result (λ e. (e ≡ entry_of handle.now) × (is_handle_size (length handle.now) ≡ true)) }
    ensures err { IfErr result (λ e. (e ≡ refusals.Keyring) × (is_handle_size (length handle.now) ≡ false)) }
{
    let kind = match handle.len() {
        HANDLE_128 => 0,
        HANDLE_256 => 1,
        _ => return Err(Refusal::Keyring),
    };
    Ok(Entry {
        kind,
        handle: zero_filled(handle),
    })
}

// ---- the search

// For n beside the keyring see `keyring_validity::heads_inside`.
// The first record of a chain that has the label: the first differing byte sends the search to the next record, out of the inner loop by a label, and a full
// match breaks with the record. This form is bound (docs/DECISIONS.md, 81); a `for` over what is left gives no value to break with.
#[tactic(auto, using(keyring_model::proofs::Facts::Fields, keyring_model::proofs::Facts::fields, keyring_model::proofs::Facts::valid_fields, crate::proofs::Turns::ended, crate::proofs::Turns::used_up, crate::proofs::Turns::turned, crate::proofs::Turns::matched))]
fn find(keyring: &[u8], n: usize, head: usize, label: &Label) -> Option<usize>
    requires { (validity.valid keyring.now ≡ true) × (n ≡ records.records keyring.now) × (head < n) }
    ensures found { found_of result ≡ lookups.first_with keyring.now label.now (chain n keyring.now head) }
    ensures inside { IfSome result (λ i. (0 < i) × (i < n)) }
{
    let mut i = head;
    let mut left = n;
    'chain: loop {
        if i == 0 || left == 0 {
            break 'chain None;
        }
        let current = i;
        let at = current * RECORD_SIZE;
        i = index_at(keyring, at);
        left -= 1;
        for j in 0..LABEL_SIZE {
            if keyring[at + LABEL + j] != label[j] {
                continue 'chain;
            }
        }
        break 'chain Some(current);
    }
}

// The low four bits of the label's first byte pick the head.
fn head_place(label: &Label) -> usize
    ensures { result ≡ records.head_for label.now * 2 }
{
    usize::from(label[0]) % HEADS * 2
}

// The index at a head. It is below n, and the test cannot fail; the choice keeps the index of the search in a whole register on the way from load to load,
// where the compiler would else widen it from two bytes at each turn.
fn first_index(keyring: &[u8], n: usize, at: usize) -> usize
    requires { (at + 2 ≤ length keyring.now) × (records.index_at keyring.now at < n) }
    ensures { result ≡ records.index_at keyring.now at }
{
    let i = index_at(keyring, at);
    if i < n { i } else { 0 }
}

#[tactic(auto, using(keyring_model::proofs::Facts::Fields, keyring_model::proofs::Facts::fields, keyring_model::proofs::Facts::valid_fields))]
fn search(keyring: &[u8], label: &Label) -> Option<usize>
    requires { validity.valid keyring.now ≡ true }
    ensures found { found_of result ≡ lookups.first_on_chain keyring.now label.now }
    ensures inside { IfSome result (λ i. (0 < i) × (i < records.records keyring.now)) }
{
    let n = keyring.len() / RECORD_SIZE;
    let head = first_index(keyring, n, head_place(label));
    find(keyring, n, head, label)
}

// ---- lookup

// By the byte of the record, of which a valid keyring has 0 and 1.
fn handle_size(kind: u8) -> usize
    ensures { (result ≡ records.handle_size kind) × (result ≤ 64) }
{
    if kind == 0 { HANDLE_128 } else { HANDLE_256 }
}

// That record i lies inside is a clause here and where one is written: lent by itself a record would be no plainer, since a new one is written with its head,
// which lies outside it.
fn entry_at(keyring: &[u8], i: usize) -> Entry
    requires { i * 80 + 80 ≤ length keyring.now }
    ensures { result ≡ record { kind = records.kind_of keyring.now i; handle = records.handle_of keyring.now i } }
{
    let at = i * RECORD_SIZE;
    let kind = keyring[at + KIND];
    let from = at + HANDLE;
    Entry {
        kind,
        handle: zero_filled(&keyring[from..from + handle_size(kind)]),
    }
}

/// What the label gives. 15 where the block is no keyring or the label has not 12 bytes, 16 where no record has the label.
#[tactic(auto, using(crate::proofs::Calls::lookup_15))]
pub fn lookup(keyring: &[u8], label: &[u8]) -> Result<Entry, Refusal>
    ensures { looked_of result ≡ lookups.lookup keyring.now label.now }
{
    ask_valid(keyring, &mut fresh_marks())?;
    let label = ask_label(label)?;
    let Some(i) = search(keyring, label) else {
        return Err(Refusal::NoLabel);
    };
    Ok(entry_at(keyring, i))
}

// ---- add

// The lowest index from 1 on that is not marked. Tried: `marks[1..n].iter().position(|m| *m == 0).map(|i| i + 1)`, of whose answer the proof did not close.
#[tactic(auto, using(keyring_model::proofs::Walks::lowest_here, keyring_model::proofs::Walks::lowest_later))]
fn lowest_free(marks: &Marks, n: usize) -> Option<usize>
    requires { (1 ≤ n) × (n ≤ 819) }
    ensures found { found_of result ≡ adding.lowest (unmarked marks.now) (n - 1) 1 }
    ensures inside { IfSome result (λ i. (0 < i) × (i < n)) }
{
    for i in 1..n {
        if marks[i] == 0 {
            return Some(i);
        }
    }
    None
}

fn put_index(keyring: &mut [u8], at: usize, i: usize)
    requires { (at + 2 ≤ length keyring.old) × (i < 65536) }
    ensures { keyring.new ≡ sets keyring.old at (le_bytes 2 i) }
{
    put_part(keyring, at, &(i as u16).to_le_bytes());
}

#[tactic(auto, using(crate::proofs::Written::handle_written))]
fn put_handle(keyring: &mut [u8], i: usize, e: &Entry)
    requires { i * 80 + 80 ≤ length keyring.old }
    ensures { (h : List ℕ) → e.now ≡ entry_of h → keyring.new ≡ adding.put_handle keyring.old i h }
{
    let at = i * RECORD_SIZE;
    keyring[at + KIND] = e.kind;
    put_part(keyring, at + HANDLE, &e.handle);
}

#[tactic(auto, using(crate::proofs::Written::record_written))]
fn put_record(keyring: &mut [u8], i: usize, label: &Label, e: &Entry)
    requires { (i * 80 + 80 ≤ length keyring.old) × (i < 65536) }
    ensures { (h : List ℕ) → e.now ≡ entry_of h → keyring.new ≡ adding.put_record keyring.old i label.now h }
{
    // In the order of a record's bytes, so not by `put_handle`.
    let at = i * RECORD_SIZE;
    let place = head_place(label);
    let next = index_at(keyring, place);
    put_index(keyring, at, next);
    keyring[at + KIND] = e.kind;
    keyring[at + ZERO] = 0;
    put_part(keyring, at + LABEL, label);
    put_part(keyring, at + HANDLE, &e.handle);
    put_index(keyring, place, i);
}

/// Replaces what the label gives, or puts the handle into a free record. 15 as for a lookup, or where the handle has another size than the two; 17 where no
/// record is free. A refusal leaves the block.
#[tactic(auto, using(keyring_model::proofs::Facts::Fields, keyring_model::proofs::Facts::fields, keyring_model::proofs::Facts::valid_fields, crate::proofs::Calls::add_15))]
pub fn add(keyring: &mut [u8], label: &[u8], handle: &[u8]) -> Result<(), Refusal>
    ensures { adding.added (answer_of result) keyring.new ≡ adding.add keyring.old label.now handle.now }
{
    let mut marks = fresh_marks();
    ask_valid(keyring, &mut marks)?;
    let label = ask_label(label)?;
    let e = ask_handle(handle)?;
    if let Some(i) = search(keyring, label) {
        put_handle(keyring, i, &e);
        return Ok(());
    }
    let Some(i) = lowest_free(&marks, keyring.len() / RECORD_SIZE) else {
        return Err(Refusal::NoRoom);
    };
    put_record(keyring, i, label, &e);
    Ok(())
}
