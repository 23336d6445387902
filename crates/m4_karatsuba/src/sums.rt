//! Sums of slices.

ghost use Rattle.std.specs.Prelude.{◌≡◌, ◌+◌, ◌≤◌};
ghost use Rattle.m4_mzd.specs.Window.{content, showing};
ghost use Rattle.m4_mzd.specs.Seen.{shown};
ghost use Rattle.m4_karatsuba.specs.Polynomials.{added_from};

use m4_mzd::{Win, WinMut};

/// Adds the rows of `src`, a window of as many columns, to those of `dst` from row `first` on.
pub(crate) fn add_rows_from(dst: &mut WinMut, first: u32, src: &Win)
    requires in_rows { first + (shown src.now).rows ≤ dst.old.rows }
    requires same_cols { (shown src.now).cols ≡ dst.old.cols }
    ensures { dst.new ≡ showing dst.old (added_from first (content dst.old) (shown src.now)) }
{
    let _dst_rows = dst.rows();
    for r in 0..src.rows() {
        dst.add_tail(first + r, src, r, 0);
    }
}

/// Makes of `sum` the rows of `low`, a window of its shape, with those of `high` added to the first of them.
pub(crate) fn set_sum(sum: &mut WinMut, low: &Win, high: &Win)
    requires low_rows { (shown low.now).rows ≡ sum.old.rows }
    requires low_cols { (shown low.now).cols ≡ sum.old.cols }
    requires high_rows { (shown high.now).rows ≤ sum.old.rows }
    requires high_cols { (shown high.now).cols ≡ sum.old.cols }
    ensures { sum.new ≡ showing sum.old (added_from 0 (shown low.now) (shown high.now)) }
{
    sum.copy_rows(low);
    add_rows_from(sum, 0, high);
}
