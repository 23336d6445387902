//! Two matrices made one.

ghost use Rattle.std.specs.Prelude.{◌≡◌, ◌+◌, ◌^◌, ◌≤◌, IfOk};
ghost use Rattle.m4_model.specs.Shapes.{above, beside};
ghost use Rattle.m4_mzd.specs.Seen.{shown};

use crate::part::copy_columns;
use m4_model::NoMemory;
use m4_mzd::{MOST_SIDE, Mzd, Win};
use std::alloc::Global;

/// `a` over `b`, a matrix of as many columns.
pub fn stack(alloc: Global, a: &Win, b: &Win) -> Result<Mzd, NoMemory>
    requires same_cols { (shown b.now).cols ≡ (shown a.now).cols }
    requires few_rows { (shown a.now).rows + (shown b.now).rows ≤ MOST_SIDE }
    ensures { IfOk result (λ m. m ≡ above (shown a.now) (shown b.now)) }
{
    let rows = a.rows();
    let mut m = Mzd::zeros(alloc, rows + b.rows(), a.cols())?;
    let (whole, home) = m.all_mut();
    let (mut top, mut bottom) = whole.split_rows(rows);
    top.copy_rows(a);
    bottom.copy_rows(b);
    m.put_all(top.join_rows(bottom), home);
    Ok(m)
}

/// `a` left of `b`, a matrix of as many rows.
pub fn augment(alloc: Global, a: &Win, b: &Win) -> Result<Mzd, NoMemory>
    requires same_rows { (shown b.now).rows ≡ (shown a.now).rows }
    requires few_cols { (shown a.now).cols + (shown b.now).cols ≤ MOST_SIDE }
    ensures { IfOk result (λ m. m ≡ beside (shown a.now) (shown b.now)) }
{
    let cols = a.cols();
    let mut m = Mzd::zeros(alloc, a.rows(), cols + b.cols())?;
    let (mut whole, home) = m.all_mut();
    copy_columns(&mut whole, 0, a, 0, 0, cols);
    copy_columns(&mut whole, cols, b, 0, 0, b.cols());
    m.put_all(whole, home);
    Ok(m)
}
