// Counter mode (NIST SP 800-38A section 6.5) over the bytes of a slice, in place, by lent tables. The cipher is that of the table of mixed columns, whatever it
// holds; four tables made from it do the same in less time. Over any cipher, whose tables and keys are lent in a value, a long buffer takes 1 to 3 % longer than
// over each of them by itself; groups and single blocks have one form for it.
#![tactic(auto)]

ghost use Rattle.std.specs.Prelude.{◌≡◌, ℕ, ◌+◌, ◌*◌, ◌/◌, ◌%◌, ◌≤◌, List, length};
ghost use Rattle.fips197.specs.Sizes.{nr};
ghost use Rattle.aes.specs.Meaning.{bytes_of, schedule};
ghost use Rattle.aes_blocks.specs.TableCipher.{table_cipher};
ghost use Rattle.aes_ttables.specs.Meaning.{cipher_of, MadeOfOne};
ghost use Rattle.sp800_38a.specs.Counter.{counter_at, output_blocks, ctr};

mod counting;

use crate::counting::Counter;
use aes::word::{block_at, put_block};
use aes::xor::xor_in;
use aes::{Block, Schedule};
use aes_blocks::Tables;
use aes_blocks::blocks::{BlockCipher, each_block};
use aes_blocks::cipher::TableCipher;
use aes_ttables::tables::fill_tables;
use aes_ttables::{FourTables, encrypt_eight};

// Four tables pay for themselves from so many bytes on.
const TABLES_FROM: usize = 384;

// Cipher, counter block and bytes go one by one: each function is handed the next counter block and other bytes. As a struct it would be made anew at each call.

// ---- counter blocks

// As many as there is room for; the one behind them is given back.
fn put_counters(s: &mut [u8], c: Block) -> Block
    requires { length s.old % 16 ≡ 0 }
    ensures blocks { s.new ≡ output_blocks (λ b. b) (bytes_of c) 0 (length s.old / 16) }
    ensures behind { bytes_of result ≡ counter_at (bytes_of c) (length s.old / 16) }
{
    let mut counter = Counter::from(c);
    // By index, here and below: std says nothing of what `chunks_exact_mut` leaves.
    for i in 0..s.len() / 16 {
        put_block(s, 16 * i, Block::from(counter));
        counter = counter.next();
    }
    Block::from(counter)
}

// ---- whole blocks singly; the counter block behind them is given back

#[tactic(auto, using(aes::proofs::Tables::block_bytes, crate::proofs::Masking::first_counter, crate::proofs::Masking::counted, crate::proofs::Masking::stored_length, crate::proofs::Masking::masked_none, crate::proofs::Masking::masked_stored))]
fn mask_blocks<C: BlockCipher>(cipher: &C, c: Block, bytes: &mut [u8]) -> Block
    requires { length bytes.old % 16 ≡ 0 }
    ensures masked { C.holds cipher.now → bytes.new ≡ ctr (C.makes cipher.now) (bytes_of c) bytes.old }
    ensures behind { bytes_of result ≡ counter_at (bytes_of c) (length bytes.old / 16) }
{
    let mut counter = Counter::from(c);
    for i in 0..bytes.len() / 16 {
        let stream = cipher.block(Block::from(counter));
        let masked = block_at(bytes, 16 * i).xor(stream);
        put_block(bytes, 16 * i, masked);
        counter = counter.next();
    }
    Block::from(counter)
}

// ---- groups of eight

// The counter blocks are enciphered together, as a wide form does it. The length is a clause: a part of a longer slice is an array only behind a test.
#[tactic(auto, using(crate::proofs::Groups::group_masked))]
fn mask_group(cipher: &FourTables, c: Block, bytes: &mut [u8]) -> Block
    requires { length bytes.old ≡ 128 }
    ensures masked { MadeOfOne cipher.now → bytes.new ≡ ctr (cipher_of cipher.now.one) (bytes_of c) bytes.old }
    ensures behind { bytes_of result ≡ counter_at (bytes_of c) 8 }
{
    let mut stream = [0u8; 128];
    let next = put_counters(&mut stream, c);
    encrypt_eight(cipher, &mut stream);
    xor_in(bytes, &stream);
    next
}

// Beside `mask_blocks`: groups go by the pairs of `encrypt_eight`, for speed (`aes_ttables` says of it).
fn mask_groups(cipher: &FourTables, c: Block, bytes: &mut [u8]) -> Block
    requires { length bytes.old % 128 ≡ 0 }
    ensures masked { MadeOfOne cipher.now → bytes.new ≡ ctr (cipher_of cipher.now.one) (bytes_of c) bytes.old }
    ensures behind { bytes_of result ≡ counter_at (bytes_of c) (length bytes.old / 16) }
{
    let mut counter = c;
    for i in 0..bytes.len() / 128 {
        let at = 128 * i;
        let end = at + 128;
        counter = mask_group(cipher, counter, &mut bytes[at..end]);
    }
    counter
}

// ---- few bytes

// With the counter blocks side by side in a lent place. A short end has the first bytes of its block.
fn mask_beside<C: BlockCipher>(cipher: &C, c: Block, stream: &mut [u8], bytes: &mut [u8])
    requires { length stream.old ≡ (length bytes.old + 15) / 16 * 16 }
    ensures { C.holds cipher.now → bytes.new ≡ ctr (C.makes cipher.now) (bytes_of c) bytes.old }
{
    put_counters(stream, c);
    each_block(cipher, stream);
    let n = bytes.len();
    xor_in(bytes, &stream[..n]);
}

fn mask_short<C: BlockCipher>(cipher: &C, c: Block, bytes: &mut [u8])
    requires { length bytes.old ≤ 384 }
    ensures { C.holds cipher.now → bytes.new ≡ ctr (C.makes cipher.now) (bytes_of c) bytes.old }
{
    let m = (bytes.len() + 15) / 16 * 16;
    let mut stream = [0u8; TABLES_FROM];
    mask_beside(cipher, c, &mut stream[..m], bytes);
}

// ---- all

// How many of the bytes go by groups of eight blocks.
fn grouped(wide: bool, bytes: usize) -> usize
    ensures { (result % 128 ≡ 0) × (result ≤ bytes) }
{
    if wide { bytes / 128 * 128 } else { 0 }
}

fn mask_long(wide: bool, cipher: &TableCipher, c: Block, bytes: &mut [u8])
    ensures { bytes.new ≡ ctr (cipher_of cipher.now) (bytes_of c) bytes.old }
{
    let mut room = [0u32; 1024];
    fill_tables(cipher.tables.mixed, &mut room);
    let four = FourTables {
        one: *cipher,
        four: &room,
    };
    let whole = bytes.len() / 16 * 16;
    let groups = grouped(wide, whole);
    let behind = mask_groups(&four, c, &mut bytes[..groups]);
    let next = mask_blocks(&four, behind, &mut bytes[groups..whole]);
    mask_short(cipher, next, &mut bytes[whole..]);
}

/// With the wide feature by groups of eight, without it singly: the result is the same.
pub fn mask(wide: bool, tables: &Tables, w: &Schedule, c: Block, bytes: &mut [u8])
    ensures { bytes.new ≡ ctr (table_cipher tables.now.mixed.now tables.now.sbox.now (schedule w.now.size w.now.words) (nr w.now.size)) (bytes_of c) bytes.old }
{
    let cipher = TableCipher {
        tables: *tables,
        schedule: w,
    };
    if bytes.len() < TABLES_FROM {
        mask_short(&cipher, c, bytes);
    } else {
        mask_long(wide, &cipher, c, bytes);
    }
}
