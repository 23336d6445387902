//! Sums of windows, in one pass over their words.

ghost use Rattle.std.specs.Prelude.{◌≡◌};
ghost use Rattle.m4_model.specs.Matrix.{added};
ghost use Rattle.m4_mzd.specs.Window.{content, showing};
ghost use Rattle.m4_mzd.specs.Seen.{shown};

use m4_mzd::{Win, WinMut};

/// Makes of a window the sum of two others of its shape.
pub(crate) fn set_sum(dst: &mut WinMut, a: &Win, b: &Win)
    requires rows { (shown a.now).rows ≡ dst.old.rows }
    requires cols { (shown a.now).cols ≡ dst.old.cols }
    requires other_rows { (shown b.now).rows ≡ dst.old.rows }
    requires other_cols { (shown b.now).cols ≡ dst.old.cols }
    ensures { dst.new ≡ showing dst.old (added (shown a.now) (shown b.now)) }
{
    let _rows = a.rows();
    let _rows_of_b = b.rows();
    for r in 0..dst.rows() {
        dst.set_sum(r, a, r, b, r);
    }
}

/// Adds two windows of its shape to a window.
pub(crate) fn add_both(dst: &mut WinMut, a: &Win, b: &Win)
    requires rows { (shown a.now).rows ≡ dst.old.rows }
    requires cols { (shown a.now).cols ≡ dst.old.cols }
    requires other_rows { (shown b.now).rows ≡ dst.old.rows }
    requires other_cols { (shown b.now).cols ≡ dst.old.cols }
    ensures { dst.new ≡ showing dst.old (added (added (content dst.old) (shown a.now)) (shown b.now)) }
{
    let _rows = a.rows();
    let _rows_of_b = b.rows();
    for r in 0..dst.rows() {
        dst.add_both(r, a, r, b, r);
    }
}
