// The bytes at a place of a slice, as many as the type says. Slice and place come one by one: a caller that cut the slice would write the place, too.
#![tactic(auto)]

ghost use Rattle.std.specs.Prelude.{◌≡◌, ◌+◌, ◌≤◌, length, take, drop};
ghost use Rattle.std.proofs.lemmas.List.Edits.{sets};

/// The N bytes at a place.
pub fn part<const N: usize>(s: &[u8], at: usize) -> [u8; N]
    requires { at + N ≤ length s.now }
    ensures { result ≡ take N (drop at s.now) }
{
    *s[at..at + N].as_array().unwrap()
}

fn put_whole<const N: usize>(s: &mut [u8], x: &[u8; N])
    requires { length s.old ≡ N }
    ensures { s.new ≡ x.now }
{
    *s.as_mut_array().unwrap() = *x;
}

/// N bytes put at a place; the others stay.
#[tactic(auto, using(crate::proofs::Put::put_mid_sets))]
pub fn put_part<const N: usize>(s: &mut [u8], at: usize, x: &[u8; N])
    requires { at + N ≤ length s.old }
    ensures { s.new ≡ sets s.old at x.now }
{
    put_whole(&mut s[at..at + N], x);
}
