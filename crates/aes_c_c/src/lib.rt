// The C functions of the crate aes_c, of which as a library no symbol is exported.
#![tactic(auto)]

ghost use Rattle.std.specs.Prelude.{◌≡◌, ◌/◌, ◌*◌, length, take};
ghost use Rattle.bits.specs.Blocks.{map_blocks};
ghost use Rattle.bits.specs.Words.{le_words};
ghost use Rattle.fips197.specs.Cipher.{cipher};
ghost use Rattle.fips197.specs.InvCipher.{inv_cipher};
ghost use Rattle.fips197.specs.Sizes.{nk, nr};
ghost use Rattle.aes.specs.Meaning.{schedule, stored_schedule};
ghost use Rattle.aes_c.specs.Size.{size_of};

#[unsafe(no_mangle)]
pub extern "C" fn aes_key_expansion(size: u8, key: &[u8; 32], w: &mut [u32; 60])
    ensures { le_words 4 w.new ≡ stored_schedule (size_of size) (take (4 * nk (size_of size)) key.now) }
{
    aes_c::aes_key_expansion(size, key, w);
}

#[unsafe(no_mangle)]
pub extern "C" fn aes_encrypt_block(size: u8, w: &[u32; 60], block: &mut [u8; 16])
    ensures { block.new ≡ cipher (schedule (size_of size) w.now) (nr (size_of size)) block.old }
{
    aes_c::aes_encrypt_block(size, w, block);
}

#[unsafe(no_mangle)]
pub extern "C" fn aes_decrypt_block(size: u8, w: &[u32; 60], block: &mut [u8; 16])
    ensures { block.new ≡ inv_cipher (schedule (size_of size) w.now) (nr (size_of size)) block.old }
{
    aes_c::aes_decrypt_block(size, w, block);
}

#[unsafe(no_mangle)]
pub extern "C" fn aes_encrypt_blocks(size: u8, w: &[u32; 60], bytes: &mut [u8])
    ensures { bytes.new ≡ map_blocks (cipher (schedule (size_of size) w.now) (nr (size_of size))) (length bytes.old / 16) bytes.old }
{
    aes_c::aes_encrypt_blocks(size, w, bytes);
}

#[unsafe(no_mangle)]
pub extern "C" fn aes_decrypt_blocks(size: u8, w: &[u32; 60], bytes: &mut [u8])
    ensures { bytes.new ≡ map_blocks (inv_cipher (schedule (size_of size) w.now) (nr (size_of size))) (length bytes.old / 16) bytes.old }
{
    aes_c::aes_decrypt_blocks(size, w, bytes);
}
