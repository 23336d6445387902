//! Numbers that are counted from further back.

ghost use Rattle.std.specs.Prelude.{◌≡◌, ℕ, ◌+◌, ◌^◌, ◌<◌, ◌≤◌, ◌++◌, length, map, take, drop, slice_index};

/// Adds `by` to the first `count` numbers.
pub(crate) fn raise(list: &mut [u32], count: u32, by: u32)
    requires within { count ≤ length list.old }
    requires small { (i : ℕ) → i < count → slice_index list.old i + by < 2 ^ 32 }
    ensures { list.new ≡ map (λ j. j + by) (take count list.old) ++ drop count list.old }
{
    for i in 0..count as usize {
        list[i] += by;
    }
}
