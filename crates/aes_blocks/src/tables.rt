// The tables that Cipher is computed by: an S-box, and a table of mixed columns, built on the stack from it. The other rows turn its entries: four tables take
// longer to build.
ghost use Rattle.std.specs.Prelude.{◌≡◌, [], ◌∷◌, ◌++◌, ℕ, ◌+◌, ◌≤◌, ◌<◌, get_or, take, drop};
ghost use Rattle.bits.specs.Words.{le_bytes};
ghost use Rattle.fips197.specs.Sbox.{SboxTable};
ghost use Rattle.fips197.specs.Field as fips;
ghost use Rattle.fips197.specs.Cipher.{mix_row};
ghost use Rattle.aes.specs.Columns.{diagonal};
ghost use Rattle.aes_blocks.specs.Tables.{part, MixTable, MixedTable};
ghost use Rattle.aes_blocks.specs.TableCipher.{table_column};

use aes::mix::stagger;
use sbox::Sbox;

/// Bytes in the S-box's place and words in the mixed columns', whatever they hold.
#[derive(Clone, Copy)]
pub struct Tables<'a> {
    pub sbox: &'a [u8; 256],
    pub mixed: &'a [u32; 256],
}

/// The S-box and the mixed columns made of it. They are large: a caller makes them once, on its stack, and lends them.
#[derive(Clone, Copy)]
pub struct AesTables<'a> {
    pub sbox: &'a Sbox,
    pub mixed: &'a [u32; 256],
    ghost mixed_is: { MixedTable mixed.now },
}

impl<'a> AesTables<'a> {
    /// In the lent room, whatever that holds.
    #[tactic(auto, using(crate::proofs::Columns::boxed))]
    pub fn new(sbox: &'a Sbox, room: &'a mut [u32; 256]) -> Self {
        mix_table(&sbox.table, room);
        AesTables { sbox, mixed: room }
    }

    /// The same, without their rule. No From: that it goes is said where it is let go.
    pub fn plain(&self) -> Tables<'a>
        ensures sbox { result.sbox.now ≡ self.now.sbox.now.table }
        ensures mixed { result.mixed.now ≡ self.now.mixed.now }
    {
        Tables {
            sbox: &self.sbox.table,
            mixed: self.mixed,
        }
    }
}

// ---- a column with a byte in row 0 alone, mixed

// Of a byte; `aes::mix` has it of four at once.
#[tactic(auto, unfolding(fips197::specs::Field::xtime))]
fn xtime(s: u8) -> u8
    ensures { result ≡ fips.xtime s }
{
    (s << 1) ^ ((s >> 7) * 27)
}

fn pair(a: u8, b: u8) -> u16
    ensures { le_bytes 2 result ≡ a ∷ b ∷ [] }
{
    u16::from_le_bytes([a, b])
}

// Std joins bytes alone.
fn joined(low: u16, high: u16) -> u32
    ensures { le_bytes 4 result ≡ le_bytes 2 low ++ le_bytes 2 high }
{
    low as u32 + ((high as u32) << 16)
}

// 64 entries of the S-box from `at` on, times x. By index, as in the tables below: std says nothing of what `iter_mut().zip` leaves, and with
// `iter_mut().enumerate()` all but one of the arrays would go by index all the same; by `array::from_fn` the promise would stand at a closure, too. The place
// and its bound stand beside the table: a quarter of it is an array only behind a test, and `MixTable` speaks of the whole.
fn doubled(sbox: &[u8; 256], at: usize) -> [u8; 64]
    requires { at ≤ 192 }
    ensures { (k : ℕ) → k < 64 → get_or result k 0 ≡ fips.xtime (get_or sbox.now (at + k) 0) }
{
    let mut twice = [0u8; 64];
    for i in 0..64usize {
        twice[i] = xtime(sbox[at + i]);
    }
    twice
}

// The lower and the upper two bytes of 64 entries.
#[tactic(auto, using(bits::proofs::Lists::filled), unfolding(bits::specs::Polynomials::multiply_bits))]
fn halves(sbox: &[u8; 256], at: usize, low: &mut [u16; 64], high: &mut [u16; 64])
    requires { at ≤ 192 }
    ensures low { (k : ℕ) → k < 64 → le_bytes 2 (get_or low.new k 0) ≡ take 2 (part mix_row (get_or sbox.now (at + k) 0) 0) }
    ensures high { (k : ℕ) → k < 64 → le_bytes 2 (get_or high.new k 0) ≡ drop 2 (part mix_row (get_or sbox.now (at + k) 0) 0) }
{
    let twice = doubled(sbox, at);
    for i in 0..64usize {
        let s = sbox[at + i];
        let d = twice[i];
        low[i] = pair(d, s);
        high[i] = pair(s, d ^ s);
    }
}

// 64 entries: doubled as bytes, paired, then joined, so that the compiler takes sixteen, eight and four at a time; 64 are few enough for
// it to write the loops out and keep all in registers.
fn mix_quarter(sbox: &[u8; 256], mixed: &mut [u32; 256], at: usize)
    requires { at ≤ 192 }
    ensures { MixTable mix_row (λ i. get_or sbox.now i 0) at mixed.old → MixTable mix_row (λ i. get_or sbox.now i 0) (at + 64) mixed.new }
{
    let mut low = [0u16; 64];
    let mut high = [0u16; 64];
    halves(sbox, at, &mut low, &mut high);
    for i in 0..64usize {
        mixed[at + i] = joined(low[i], high[i]);
    }
}

/// For any table of bytes. In place, since a returned array is copied. Four calls are no longer than a loop over four places.
pub fn mix_table(sbox: &[u8; 256], mixed: &mut [u32; 256])
    ensures { MixTable mix_row (λ i. get_or sbox.now i 0) 256 mixed.new }
{
    mix_quarter(sbox, mixed, 0);
    mix_quarter(sbox, mixed, 64);
    mix_quarter(sbox, mixed, 128);
    mix_quarter(sbox, mixed, 192);
}

/// A column of a round without its key, whatever the table holds.
#[tactic(auto, using(crate::proofs::Columns::terms, crate::proofs::Columns::entry_at), unfolding(crate::specs::TableCipher::table_column))]
pub fn table_column(table: &[u32; 256], a: u32, b: u32, c: u32, d: u32) -> u32
    ensures { le_bytes 4 result ≡ table_column table.now (diagonal (λ x. x) a b c d) }
{
    stagger(
        table[(a % 256) as usize],
        table[(d >> 24) as usize],
        table[((c >> 16) % 256) as usize],
        table[((b >> 8) % 256) as usize],
    )
}
