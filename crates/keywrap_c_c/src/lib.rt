// The C functions of the crate keywrap_c, of which as a library no symbol is exported.
#![tactic(auto)]

ghost use Rattle.std.specs.Prelude.{◌≡◌, ◌/◌, ◌+◌, ◌*◌, length, take};
ghost use Rattle.bits.specs.Blocks.{blocks};
ghost use Rattle.rfc8452.specs.Polyval as rfc;
ghost use Rattle.fips197.specs.Sizes.{nk};
ghost use Rattle.aes_c.specs.Size.{size_of};
ghost use Rattle.handle.specs.Wrap.{wrap_key, unwrap_key};
ghost use Rattle.keywrap.specs.Meaning.{padded, padded_key};
ghost use Rattle.keywrap_c.specs.Answer as answer;

#[unsafe(no_mangle)]
pub extern "C" fn polyval_blocks(h: &[u8; 16], message: &[u8], res: &mut [u8; 16])
    ensures { res.new ≡ rfc.polyval h.now (blocks (length message.now / 16) message.now) }
{
    keywrap_c::polyval_blocks(h, message, res);
}

#[unsafe(no_mangle)]
pub extern "C" fn keywrap_wrap(
    size: u8,
    integrity: &[u8; 16],
    encryption: &[u8; 32],
    aad: &[u8; 16],
    key: &[u8; 32],
    handle: &mut [u8; 64],
)
    ensures { handle.new ≡ padded 64 (wrap_key integrity.now encryption.now aad.now (take (4 * nk (size_of size)) key.now)) }
{
    keywrap_c::keywrap_wrap(size, integrity, encryption, aad, key, handle);
}

#[unsafe(no_mangle)]
pub extern "C" fn keywrap_unwrap(
    size: u8,
    integrity: &[u8; 16],
    encryption: &[u8; 32],
    handle: &[u8; 64],
    key: &mut [u8; 32],
) -> u8
    ensures code { result ≡ answer.code (padded_key (unwrap_key integrity.now encryption.now (take (32 + 4 * nk (size_of size)) handle.now))) }
    ensures key { key.new ≡ answer.bytes (padded_key (unwrap_key integrity.now encryption.now (take (32 + 4 * nk (size_of size)) handle.now))) }
{
    keywrap_c::keywrap_unwrap(size, integrity, encryption, handle, key)
}
