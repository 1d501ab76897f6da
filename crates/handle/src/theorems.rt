// What is proved of handles as they are written here. The contract of each function is a theorem; there is nothing to execute.
ghost use Rattle.std.specs.Prelude.{◌≡◌, List, ℕ, ◌*◌, length, replicate};
ghost use Rattle.std.proofs.Math.Option.{some};
ghost use Rattle.handle.specs.Format.{aad_of, tag_of};
ghost use Rattle.handle.specs.Wrap.{tag, unwrap_key, wrap_key};

/// A key that was wrapped unwraps to itself, for every IWKey, AAD and length of the key.
pub fn unwrap_undoes_wrap()
    ensures { (integrity encryption aad key : List ℕ) (n : ℕ) → length aad ≡ 16 → length key ≡ 16 * n → unwrap_key integrity encryption (wrap_key integrity encryption aad key) ≡ some key }
{}

/// A handle that hands out a key has the tag of that key.
pub fn unwrapped_key_has_the_tag()
    ensures { (integrity encryption handle key : List ℕ) → unwrap_key integrity encryption handle ≡ some key → tag integrity encryption (aad_of handle) key ≡ tag_of handle }
{}
