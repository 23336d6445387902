//! The plain engine over any field: a product is added row by row.

ghost use Rattle.std.specs.Prelude.{◌≡◌, ◌<◌};
ghost use Rattle.m4_model.specs.Matrix.{added, product, row, row_sum, with_row};
ghost use Rattle.m4_mzed.specs.EWindow.{content, showing};
ghost use Rattle.m4_mzed.specs.ESeen.{e_shown};

use crate::add_mul::EAddMul;
use m4_mzd::{MOST_SIDE, Shape};
use m4_mzed::{EWin, EWinMut};

/// The engine that adds, to each row of the window, the multiples of the rows of the second factor that the first tells. It
/// takes every product that a matrix can be, over every field.
#[derive(Clone, Copy)]
pub struct EPlain;

impl EAddMul for EPlain {
    ghost use Rattle.m4_mzd.specs.declared.TheConstants.{MOST_SIDE};

    ghost limits = { λ _. record { m = MOST_SIDE; l = MOST_SIDE; n = MOST_SIDE } };

    ghost IsFor = { λ _ _. Unit };

    fn reach(&self) -> Shape {
        Shape {
            m: MOST_SIDE,
            l: MOST_SIDE,
            n: MOST_SIDE,
        }
    }

    fn addmul(&mut self, c: &mut EWinMut, a: &EWin, b: &EWin) {
        for i in 0..c.rows() {
            add_row_of_product(c, i, a, b);
        }
    }
}

/// Adds row `i` of the product of `a` and `b` to row `i` of `c`: each row of `b`, times the entry of `a` that it belongs to.
fn add_row_of_product(c: &mut EWinMut, i: u32, a: &EWin, b: &EWin)
    requires in_rows { i < c.old.rows }
    requires a_field { (e_shown a.now).field ≡ c.old.field }
    requires b_field { (e_shown b.now).field ≡ c.old.field }
    requires rows { (e_shown a.now).rows ≡ c.old.rows }
    requires inner { (e_shown a.now).cols ≡ (e_shown b.now).rows }
    requires cols { (e_shown b.now).cols ≡ c.old.cols }
    ensures { c.new ≡ showing c.old (with_row (content c.old) i (row_sum (row (content c.old) i) (row (product (e_shown a.now) (e_shown b.now)) i))) }
{
    let _width = c.cols();
    for t in 0..b.rows() {
        c.add_multiple(i, b, t, a.get(i, t));
    }
}
