// KeyExpansion, of FIPS 197 section 5.2, over the number of words in the key, NK.
#![tactic(auto)]

ghost use Rattle.std.specs.Prelude.{◌≡◌, ◌⊎◌, ◌++◌, take, drop, replicate, ◌+◌, ◌*◌, ◌/◌, ◌%◌, ◌≤◌, ◌<◌};
ghost use Rattle.bits.specs.Words.{le_bytes, le_words};
ghost use Rattle.fips197.specs.Sbox.{SboxTable};
ghost use Rattle.fips197.specs.KeyExpansion.{power, sub_word, next_word, key_expansion};
ghost use Rattle.fips197.specs.KeyExpansion as fips;
ghost use Rattle.fips197.specs.Sizes.{nk};
ghost use Rattle.aes.specs.Meaning.{bytes_of, key_bytes, stored_schedule};
ghost use Rattle.aes_key.specs.Sizes.{IsKeyLength};

use aes::word::{rot_word, sub_diagonal};
use aes::{Key, Schedule};
use fips197::KeySize;
use sbox::Sbox;

// x^j as a byte, by shifts: nothing is stored beside the S-box.
#[tactic(auto, using(crate::proofs::Expansion::power_low, crate::proofs::Expansion::power_high))]
fn power_of_x(j: usize) -> u32
    requires { j < 10 }
    ensures { result ≡ power j }
{
    if j < 8 {
        return 1u32 << j;
    }
    27u32 << (j - 8)
}

#[tactic(auto, using(aes::proofs::Words::through_table), unfolding(fips197::specs::KeyExpansion::sub_word))]
fn sub_word(sbox: &Sbox, x: u32) -> u32
    ensures { le_bytes 4 result ≡ sub_word (le_bytes 4 x) }
{
    sub_diagonal(&sbox.table, x, x, x, x)
}

// What is added to word i - NK to make word i; x is word i - 1. That NK is four or eight is a clause of each: a const parameter has no type with a rule, and
// `KeySize` would be no constant to divide by.
#[tactic(auto, using(crate::proofs::Expansion::with_constant, crate::proofs::Expansion::substituted, crate::proofs::Expansion::copied))]
fn transformed<const NK: usize>(sbox: &Sbox, i: usize, x: u32) -> u32
    requires size { IsKeyLength NK }
    requires bound { (NK ≤ i) × (i < 11 * NK) }
    ensures { le_bytes 4 result ≡ fips.transformed NK i (le_bytes 4 x) }
{
    if i % NK == 0 {
        return sub_word(sbox, rot_word(x)) ^ power_of_x(i / NK - 1);
    }
    if 6 < NK && i % NK == 4 {
        return sub_word(sbox, x);
    }
    x
}

#[tactic(auto, using(crate::proofs::Expansion::next_words))]
fn next_word<const NK: usize>(sbox: &Sbox, w: &[u32; 60], i: usize) -> u32
    requires size { IsKeyLength NK }
    requires bound { (NK ≤ i) × (i < 11 * NK) × (i < 60) }
    ensures { le_bytes 4 result ≡ next_word NK i (le_words 4 w.now) }
{
    w[i - NK] ^ transformed::<NK>(sbox, i, w[i - 1])
}

// The words behind those of the key, which stand at the front.
fn fill<const NK: usize>(sbox: &Sbox, w: &mut [u32; 60])
    requires { IsKeyLength NK }
    ensures filled { le_words 4 (take (4 * (NK + 7)) w.new) ≡ key_expansion NK (le_words 4 (take NK w.old)) }
    ensures rest { drop (4 * (NK + 7)) w.new ≡ drop (4 * (NK + 7)) w.old }
{
    // By index: a word is made of words that are written before it, and of its number.
    for i in NK..4 * (NK + 7) {
        w[i] = next_word::<NK>(sbox, w, i);
    }
}

// The same by a size that is known at run time. An arm for each: so the compiler knows by what it divides.
fn fill_by(sbox: &Sbox, size: KeySize, w: &mut [u32; 60])
    ensures filled { le_words 4 (take (4 * (nk size + 7)) w.new) ≡ key_expansion (nk size) (le_words 4 (take (nk size) w.old)) }
    ensures rest { drop (4 * (nk size + 7)) w.new ≡ drop (4 * (nk size + 7)) w.old }
{
    match size {
        KeySize::Aes128 => fill::<4>(sbox, w),
        KeySize::Aes256 => fill::<8>(sbox, w),
    }
}

// The words of the key, at the front, and zeros.
fn key_front(key: &Key) -> [u32; 60]
    ensures { (le_words 4 (take 8 result) ≡ bytes_of key.now.low ++ bytes_of key.now.high) × (drop 8 result ≡ replicate 52 0) }
{
    // A store for each column, by its name.
    let mut w = [0u32; 60];
    w[0] = key.low.a;
    w[1] = key.low.b;
    w[2] = key.low.c;
    w[3] = key.low.d;
    w[4] = key.high.a;
    w[5] = key.high.b;
    w[6] = key.high.c;
    w[7] = key.high.d;
    w
}

/// The key schedule; the words that AES-128 does not need are zero. By value, though it is copied: filled in the place of a lent one it took longer.
#[tactic(auto, using(crate::proofs::Expansion::stored))]
pub fn expand(sbox: &Sbox, size: KeySize, key: &Key) -> Schedule
    ensures size { result.size ≡ size }
    ensures words { le_words 4 result.words ≡ stored_schedule size (key_bytes size key.now) }
{
    let mut words = key_front(key);
    fill_by(sbox, size, &mut words);
    Schedule { words, size }
}
