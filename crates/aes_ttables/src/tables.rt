// The four tables, on the stack, from one.
ghost use Rattle.std.specs.Prelude.{◌≡◌, List, ℕ, ◌+◌, ◌<◌, get_or};
ghost use Rattle.bits.specs.Words.{le_bytes};
ghost use Rattle.fips197.specs.KeyExpansion.{rot_word};
ghost use Rattle.aes.specs.Columns.{diagonal};
ghost use Rattle.aes_blocks.specs.TableCipher.{table_column};
ghost use Rattle.aes_ttables.specs.Turned.{Turned};

use aes::word::rot_word;

// Each table but the first is the one before it, turned by a byte.
fn turn_tables(tables: &mut [u32; 1024])
    ensures first { (k : ℕ) → k < 256 → get_or tables.new k 0 ≡ get_or tables.old k 0 }
    ensures others { (k : ℕ) → k < 768 → le_bytes 4 (get_or tables.new (256 + k) 0) ≡ rot_word (le_bytes 4 (get_or tables.new k 0)) }
{
    // By index: an entry is made of one that is written before it.
    for i in 256..1024usize {
        tables[i] = rot_word(tables[i - 256]);
    }
}

// Word by word: the array stored as a whole is a call of memmove, which the library asks of nobody.
#[tactic(auto, using(bits::proofs::Lists::filled))]
fn put_table(table: &[u32; 256], tables: &mut [u32; 1024])
    ensures { (k : ℕ) → k < 256 → get_or tables.new k 0 ≡ get_or table.now k 0 }
{
    for (i, word) in table.iter().enumerate() {
        tables[i] = *word;
    }
}

/// In place, since a returned array is copied.
pub fn fill_tables(table: &[u32; 256], tables: &mut [u32; 1024])
    ensures { Turned table.now tables.new }
{
    put_table(table, tables);
    turn_tables(tables);
}

// A column of a round without its key, whatever table the four were made from.
#[tactic(auto, using(crate::proofs::Columns::turned_column))]
pub(crate) fn column(tables: &[u32; 1024], a: u32, b: u32, c: u32, d: u32) -> u32
    ensures { (t : List ℕ) → Turned t tables.now → le_bytes 4 result ≡ table_column t (diagonal (λ x. x) a b c d) }
{
    tables[(a % 256) as usize]
        ^ tables[(256 + (d >> 24)) as usize]
        ^ tables[(512 + (c >> 16) % 256) as usize]
        ^ tables[(768 + (b >> 8) % 256) as usize]
}
