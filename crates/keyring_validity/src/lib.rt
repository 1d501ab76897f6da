// Refusal 15 of a keyring: its fields, and then its chains, whose records are marked.
#![tactic(auto)]

ghost use Rattle.std.specs.Prelude.{◌≡◌, true, ◌&&◌, ◌+◌, ◌*◌, ◌≤◌, ◌<◌, length, get_or};
ghost use Rattle.keyring_model.specs.Records as records;
ghost use Rattle.keyring_model.specs.Chains.{chain, reached};
ghost use Rattle.keyring_model.specs.Validity as validity;
ghost use Rattle.keyring_validity.specs.Marks.{Unmarked, Gives, marked, Checked};

use parts::part;

pub const RECORD_SIZE: usize = 80;

pub const HEADS: usize = 16;

const HEADS_SIZE: usize = 32;

const LIMIT: usize = 65520;

// Offsets in a record; its next index is first.
pub const KIND: usize = 2;

pub const ZERO: usize = 3;

/// The most records that a keyring has.
const RECORDS: usize = 819;

/// A byte for each index, which is not 0 where the record was reached. Bytes and no flags: `Unmarked` and `Checked`, by which `valid` promises, are of numbers.
pub type Marks = [u8; 819];

/// The index in two bytes. Block and place stand one by one, as `parts` has them, here and in `keyring`.
pub fn index_at(keyring: &[u8], at: usize) -> usize
    requires { at + 2 ≤ length keyring.now }
    ensures { result ≡ records.index_at keyring.now at }
{
    usize::from(u16::from_le_bytes(part(keyring, at)))
}

// ---- the fields

fn size_valid(keyring: &[u8]) -> bool
    ensures { result ≡ validity.size_valid keyring.now }
{
    let size = keyring.len();
    (RECORD_SIZE..=LIMIT).contains(&size) && size % RECORD_SIZE == 0
}

// The keyring and n, how many records it has, go as two: a struct of both would be made anew in `fields_valid`, `mark_chains` and `keyring::search`, for what
// each of them calls.
// All heads and all bytes behind them are tested, with no way out before the end: so the compiler makes wide tests of them.
#[tactic(auto, using(keyring_model::proofs::Walks::every_more, crate::proofs::Checking::every_start))]
fn heads_inside(keyring: &[u8], n: usize) -> bool
    requires { (80 ≤ length keyring.now) × (n ≡ records.records keyring.now) }
    ensures { result ≡ validity.heads_inside keyring.now }
{
    let mut inside = true;
    for k in 0..HEADS {
        inside &= index_at(keyring, k * 2) < n;
    }
    inside
}

#[tactic(auto, using(keyring_model::proofs::Walks::every_more, crate::proofs::Checking::every_start, crate::proofs::Checking::tail_byte))]
fn tail_zero(keyring: &[u8]) -> bool
    requires { 80 ≤ length keyring.now }
    ensures { result ≡ validity.tail_zero keyring.now }
{
    // As `validity` asks it of a part of a machine, which no keyring knows.
    let mut zero = true;
    for b in &keyring[HEADS_SIZE..RECORD_SIZE] {
        zero &= *b == 0;
    }
    zero
}

// Kind and zero byte are below 2 as one number where the kind is and the zero byte is 0.
#[tactic(auto, using(crate::proofs::Checking::record_told))]
fn record_valid(keyring: &[u8], n: usize, i: usize) -> bool
    requires { (i * 80 + 80 ≤ length keyring.now) × (n ≡ records.records keyring.now) }
    ensures { result ≡ validity.record_valid keyring.now i }
{
    let at = i * RECORD_SIZE;
    (index_at(keyring, at) < n) & (index_at(keyring, at + KIND) < 2)
}

// One pass over all records, which ends at the first that is not valid. Tried: `(1..n).all(..)`, of which the proof did not close, since what `record_valid`
// promises is lost through the closure.
#[tactic(auto, using(crate::proofs::Checking::every_start))]
fn records_valid(keyring: &[u8], n: usize) -> bool
    requires { (length keyring.now ≡ n * 80) × (n ≡ records.records keyring.now) × (1 ≤ n) × (n ≤ 819) }
    ensures { result ≡ validity.records_valid keyring.now }
{
    for i in 1..n {
        if !record_valid(keyring, n, i) {
            return false;
        }
    }
    true
}

fn fields_valid(keyring: &[u8]) -> bool
    ensures { result ≡ validity.fields_valid keyring.now }
{
    if !size_valid(keyring) {
        return false;
    }
    let n = keyring.len() / RECORD_SIZE;
    heads_inside(keyring, n) & tail_zero(keyring) & records_valid(keyring, n)
}

// ---- a record reached twice

/// Marks with none but index 0. That it is marked from the start makes one test end a chain and find a record that is reached twice.
#[tactic(auto, using(crate::proofs::Fresh::fresh))]
pub fn fresh_marks() -> Marks
    ensures { Unmarked result }
{
    let mut marks = [0; RECORDS];
    marks[0] = 1;
    marks
}

// Marks the records of a chain; whether none of them was marked already.
#[tactic(auto, using(keyring_model::proofs::Facts::Fields, keyring_model::proofs::Facts::fields, crate::proofs::Marking::all_marked, crate::proofs::Marking::met, crate::proofs::Marking::one_more, crate::proofs::Marking::not_end, crate::proofs::Marking::gives_some))]
fn mark_chain(keyring: &[u8], n: usize, head: usize, marks: &mut Marks) -> bool
    requires { (validity.fields_valid keyring.now ≡ true) × (n ≡ records.records keyring.now) × (head < n) × (get_or marks.old 0 0 ≡ 1) }
    ensures { Gives result marks.new (marked marks.old (chain n keyring.now head)) × (get_or marks.new 0 0 ≡ 1) }
{
    let mut i = head;
    for _ in 0..n {
        if marks[i] != 0 {
            return i == 0;
        }
        marks[i] = 1;
        i = index_at(keyring, i * RECORD_SIZE);
    }
    true
}

// All chains, up to the first that meets a marked record. A loop, and not `all`: each turn changes the marks, and of what a closure changes there a proof knows
// nothing.
#[tactic(auto, using(keyring_model::proofs::Facts::Fields, keyring_model::proofs::Facts::fields, crate::proofs::Marking::gives_none, crate::proofs::Marking::given_none, crate::proofs::Marking::given_some, crate::proofs::Marking::no_heads, crate::proofs::Marking::next_head, crate::proofs::Marking::twice_of_all))]
fn mark_chains(keyring: &[u8], marks: &mut Marks) -> bool
    requires { (validity.fields_valid keyring.now ≡ true) × (get_or marks.old 0 0 ≡ 1) }
    ensures { Gives result marks.new (marked marks.old (reached keyring.now)) }
{
    let n = keyring.len() / RECORD_SIZE;
    for k in 0..HEADS {
        if !mark_chain(keyring, n, index_at(keyring, k * 2), marks) {
            return false;
        }
    }
    true
}

/// Whether the keyring is valid; if so the records on its chains are marked. The marks are lent: docs/DECISIONS.md, 50,
/// names it so, and as the value of an `Option` they would be copied, 819 bytes.
pub fn valid(keyring: &[u8], marks: &mut Marks) -> bool
    requires { Unmarked marks.old }
    ensures { Checked keyring.now marks.new result }
{
    fields_valid(keyring) && mark_chains(keyring, marks)
}
