//! Two matrices as one.

ghost use Rattle.std.specs.Prelude.{◌≡◌, ◌+◌, ◌*◌, ◌≤◌, IfOk};
ghost use Rattle.m4_model.specs.Field.{width};
ghost use Rattle.m4_model.specs.Shapes.{above, beside};
ghost use Rattle.m4_mzed.specs.ESeen.{e_shown};

use m4_model::NoMemory;
use m4_mzd::MOST_SIDE;
use m4_mzed::{EWin, Mzed};
use m4_shape::{augment, stack};
use std::alloc::Global;

/// `a` over `b`, a matrix over the same field of as many columns.
pub fn estack(alloc: Global, a: &EWin, b: &EWin) -> Result<Mzed, NoMemory>
    requires same_field { (e_shown b.now).field ≡ (e_shown a.now).field }
    requires same_cols { (e_shown b.now).cols ≡ (e_shown a.now).cols }
    requires few_rows { (e_shown a.now).rows + (e_shown b.now).rows ≤ MOST_SIDE }
    ensures { IfOk result (λ m. m ≡ above (e_shown a.now) (e_shown b.now)) }
{
    let top = a.packed();
    let bottom = b.packed();
    let _top_rows = top.rows();
    let _bottom_rows = bottom.rows();
    let bits = stack(alloc, &top, &bottom)?;
    let _bits = bits.rows();
    Ok(Mzed::of_packed(a.field(), a.cols(), bits))
}

/// `a` left of `b`, a matrix over the same field of as many rows.
pub fn eaugment(alloc: Global, a: &EWin, b: &EWin) -> Result<Mzed, NoMemory>
    requires same_field { (e_shown b.now).field ≡ (e_shown a.now).field }
    requires same_rows { (e_shown b.now).rows ≡ (e_shown a.now).rows }
    requires few_bits { ((e_shown a.now).cols + (e_shown b.now).cols) * width (e_shown a.now).field ≤ MOST_SIDE }
    ensures { IfOk result (λ m. m ≡ beside (e_shown a.now) (e_shown b.now)) }
{
    let left = a.packed();
    let right = b.packed();
    let _left_rows = left.rows();
    let _right_rows = right.rows();
    let bits = augment(alloc, &left, &right)?;
    let _bits = bits.rows();
    Ok(Mzed::of_packed(a.field(), a.cols() + b.cols(), bits))
}
