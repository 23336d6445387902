//! Products, row by row. No engine of the program has a part in them.

ghost use Rattle.std.specs.Prelude.{◌≡◌, ◌<◌, IfOk};
ghost use Rattle.m4_model.specs.Matrix.{added, product, row, row_sum, with_row};
ghost use Rattle.m4_mzed.specs.EWindow.{content, showing};
ghost use Rattle.m4_mzed.specs.ESeen.{e_shown};

use m4_model::NoMemory;
use m4_mzed::{EWin, EWinMut, Mzed};
use std::alloc::Global;

/// The product of two matrices over one field.
pub(crate) fn product(alloc: Global, a: &Mzed, b: &Mzed) -> Result<Mzed, NoMemory>
    requires same_field { b.now.field ≡ a.now.field }
    requires inner { a.now.cols ≡ b.now.rows }
    ensures { IfOk result (λ c. c ≡ product a.now b.now) }
{
    let mut c = Mzed::zeros(alloc, a.field(), a.rows(), b.cols())?;
    let (mut all, home) = c.all_mut();
    add_product(&mut all, &a.all(), &b.all());
    c.put_all(all, home);
    Ok(c)
}

/// Adds the product of `a` and `b` to `c`.
fn add_product(c: &mut EWinMut, a: &EWin, b: &EWin)
    requires a_field { (e_shown a.now).field ≡ c.old.field }
    requires b_field { (e_shown b.now).field ≡ c.old.field }
    requires rows { (e_shown a.now).rows ≡ c.old.rows }
    requires inner { (e_shown a.now).cols ≡ (e_shown b.now).rows }
    requires cols { (e_shown b.now).cols ≡ c.old.cols }
    ensures sum { c.new ≡ showing c.old (added (content c.old) (product (e_shown a.now) (e_shown b.now))) }
{
    for i in 0..c.rows() {
        add_row_of_product(c, i, a, b);
    }
}

/// Adds row `i` of the product of `a` and `b` to row `i` of `c`: each row of `b`, times the entry of `a` that it belongs to.
fn add_row_of_product(c: &mut EWinMut, i: u32, a: &EWin, b: &EWin)
    requires in_rows { i < c.old.rows }
    requires a_field { (e_shown a.now).field ≡ c.old.field }
    requires b_field { (e_shown b.now).field ≡ c.old.field }
    requires rows { (e_shown a.now).rows ≡ c.old.rows }
    requires inner { (e_shown a.now).cols ≡ (e_shown b.now).rows }
    requires cols { (e_shown b.now).cols ≡ c.old.cols }
    ensures { c.new ≡ showing c.old (with_row (content c.old) i (row_sum (row (content c.old) i) (row (product (e_shown a.now) (e_shown b.now)) i))) }
{
    let _width = c.cols();
    for t in 0..b.rows() {
        c.add_multiple(i, b, t, a.get(i, t));
    }
}
