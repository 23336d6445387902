//! A matrix added to a window.

ghost use Rattle.std.specs.Prelude.{◌≡◌};
ghost use Rattle.m4_model.specs.Matrix.{added};
ghost use Rattle.m4_mzd.specs.Window.{content, showing};
ghost use Rattle.m4_mzd.specs.Seen.{shown};

use m4_mzd::{Win, WinMut};

/// Adds `src` to a window of the same shape.
pub fn add_into(dst: &mut WinMut, src: &Win)
    requires same_rows { (shown src.now).rows ≡ dst.old.rows }
    requires same_cols { (shown src.now).cols ≡ dst.old.cols }
    ensures { dst.new ≡ showing dst.old (added (content dst.old) (shown src.now)) }
{
    let _rows = src.rows();
    for r in 0..dst.rows() {
        dst.add_tail(r, src, r, 0);
    }
}
