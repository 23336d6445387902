//! Sums of windows.

ghost use Rattle.std.specs.Prelude.{◌≡◌};
ghost use Rattle.m4_model.specs.Matrix.{added};
ghost use Rattle.m4_mzed.specs.EWindow.{content, showing};
ghost use Rattle.m4_mzed.specs.ESeen.{e_shown};

use m4_mzed::{EWin, EWinMut};
use m4_shape::add_into;

/// Adds `src` to a window over the same field and of the same shape.
pub fn eadd_into(dst: &mut EWinMut, src: &EWin)
    requires same_field { (e_shown src.now).field ≡ dst.old.field }
    requires same_rows { (e_shown src.now).rows ≡ dst.old.rows }
    requires same_cols { (e_shown src.now).cols ≡ dst.old.cols }
    ensures { dst.new ≡ showing dst.old (added (content dst.old) (e_shown src.now)) }
{
    let field = dst.field();
    let cols = dst.cols();
    let mut bits = dst.take().into_packed();
    let _rows = bits.rows();
    let source = src.packed();
    let _source_rows = source.rows();
    add_into(&mut bits, &source);
    let _new_rows = bits.rows();
    dst.put_back(EWinMut::of_packed(field, cols, bits));
}
