//! Whether rising numbers are the first ones.

ghost use Rattle.std.specs.Prelude.{◌≡◌, ℕ, ◌<◌, IsTrue, length, slice_index};
ghost use Rattle.m4_model.specs.Rank.{IsRising};

/// Whether these rising numbers, `n` of them, are the numbers below `n`.
pub(crate) fn are_first(rising: &[u32], n: u32) -> bool
    requires rising { IsRising rising.now }
    requires long { length rising.now ≡ n }
    ensures { IsTrue result → (s : ℕ) → s < n → slice_index rising.now s ≡ s }
{
    are_below(rising, n)
}

/// Whether all of these rising numbers are below `n`.
fn are_below(rising: &[u32], n: u32) -> bool
    requires { IsRising rising.now }
    ensures { IsTrue result → (s : ℕ) → s < length rising.now → slice_index rising.now s < n }
{
    match rising.last() {
        Some(last) => *last < n,
        None => true,
    }
}
