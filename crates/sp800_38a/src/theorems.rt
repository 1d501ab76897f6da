// What is proved of counter mode, over any cipher of a block. The contract of each function is a theorem; there is nothing to execute.
ghost use Rattle.std.specs.Prelude.{◌≡◌, List, ℕ, ◌*◌, ◌++◌, length};
ghost use Rattle.sp800_38a.specs.Counter.{counter_at, ctr};

/// The same counter mode twice gives the data back.
pub fn ctr_undoes_itself()
    ensures { (f : List ℕ → List ℕ) → ((b : List ℕ) → length (f b) ≡ 16) → (c s : List ℕ) → ctr f c (ctr f c s) ≡ s }
{}

/// Data that are cut at a block may be done in two parts, the second from the counter block behind the first on.
pub fn ctr_in_two_parts()
    ensures { (f : List ℕ → List ℕ) → ((b : List ℕ) → length (f b) ≡ 16) → (c : List ℕ) (n : ℕ) (s t : List ℕ) → length s ≡ 16 * n → ctr f c (s ++ t) ≡ ctr f c s ++ ctr f (counter_at c n) t }
{}
