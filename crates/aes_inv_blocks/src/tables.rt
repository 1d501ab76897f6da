// The table of InvCipher, and the products of the inverse matrix that it is built from, on the stack.
ghost use Rattle.std.specs.Prelude.{◌≡◌, List, ℕ, ◌*◌, ◌^◌, ◌≤◌, get_or};
ghost use Rattle.bits.specs.Words.{le_bytes};
ghost use Rattle.fips197.specs.InvCipher.{inv_mix_row};
ghost use Rattle.aes_blocks.specs.Tables.{part, MixTable};
ghost use Rattle.aes_inv_blocks.specs.Tables.{Products};

use aes::mix::inv_mix_column;

// The products with k and the bytes that follow up to 2 k: sums of two, as k is a power of two.
// Inlined, its products would be computed ahead and stored.
#[inline(never)]
fn double_products(products: &mut [u32; 256], k: usize, x: u32)
    requires { k ≤ 128 }
    ensures { (q : List ℕ) (e : ℕ) → k ≡ 2 ^ e → le_bytes 4 x ≡ part q k 0 → Products q k products.old → Products q (2 * k) products.new }
{
    // By index: an entry is made of one that is written before it.
    for i in k..2 * k {
        products[i] = products[i - k] ^ x;
    }
}

// Column 0 of the inverse matrix, times each byte. The steps are written out: with numbers known, the compiler makes less of them.
pub(crate) fn inv_products(products: &mut [u32; 256])
    requires { get_or products.old 0 0 ≡ 0 }
    ensures { Products inv_mix_row 256 products.new }
{
    double_products(products, 1, inv_mix_column(1));
    double_products(products, 2, inv_mix_column(2));
    double_products(products, 4, inv_mix_column(4));
    double_products(products, 8, inv_mix_column(8));
    double_products(products, 16, inv_mix_column(16));
    double_products(products, 32, inv_mix_column(32));
    double_products(products, 64, inv_mix_column(64));
    double_products(products, 128, inv_mix_column(128));
}

// For any table of bytes. By products looked up, which takes less time here than making them.
pub(crate) fn inv_mix_table(inverse: &[u8; 256], mixed: &mut [u32; 256])
    ensures { MixTable inv_mix_row (λ i. get_or inverse.now i 0) 256 mixed.new }
{
    let mut products = [0u32; 256];
    inv_products(&mut products);
    // By index: std says nothing of what `iter_mut().zip` leaves, and `iter_mut().enumerate()` would take `inverse` by the same index.
    for i in 0..256usize {
        mixed[i] = products[inverse[i] as usize];
    }
}
