// The inverse S-box. It is not stored: each byte is put where the S-box sends it.
ghost use Rattle.fips197.specs.Sbox.{inv_sbox, TableOf, SboxTable};

// From a lent table, if it is the S-box.
pub fn inverse_table(sbox: &[u8; 256]) -> [u8; 256]
    ensures { SboxTable sbox.now → TableOf inv_sbox result }
{
    let mut inverse = [0u8; 256];
    // By index, which is itself the byte that is put; `enumerate` would only give it a second name.
    for i in 0..256usize {
        inverse[sbox[i] as usize] = i as u8;
    }
    inverse
}
