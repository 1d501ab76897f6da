// What is proved of RFC 8452's field as it is written here. The contract of each function is a theorem; there is nothing to execute.
ghost use Rattle.std.specs.Prelude.{◌≡◌, ◌<◌, ◌^◌, ℕ};
ghost use Rattle.rfc8452.specs.Field.{dot, multiply, times_x_to};

/// The dot product, times x^128, is the field's product: dot(a, b) = a * b * x^-128.
pub fn dot_is_product_divided()
    ensures { (a b : ℕ) → a < 2 ^ 128 → times_x_to 128 (dot a b) ≡ multiply a b }
{}
