//! Numbers of a list that count up by one.

ghost use Rattle.std.specs.Prelude.{◌≡◌, ℕ, ◌+◌, ◌<◌, ◌≤◌, length, slice_index};

/// How many numbers from place `s` on count up by one.
pub(crate) fn run_from(list: &[u32], s: usize) -> usize
    requires { s < length list.now }
    ensures some { 0 < result }
    ensures within { s + result ≤ length list.now }
    ensures run { (u : ℕ) → u < result → slice_index list.now (s + u) ≡ slice_index list.now s + u }
{
    let first = u64::from(list[s]);
    for u in 1..list.len() - s {
        if u64::from(list[s + u]) != first + u as u64 {
            return u;
        }
    }
    list.len() - s
}

/// How many of the first numbers are those of their places.
pub(crate) fn in_place(list: &[u32]) -> usize
    ensures within { result ≤ length list.now }
    ensures places { (s : ℕ) → s < result → slice_index list.now s ≡ s }
{
    for (s, x) in list.iter().enumerate() {
        if *x as usize != s {
            return s;
        }
    }
    list.len()
}
