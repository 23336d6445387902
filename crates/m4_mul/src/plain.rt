//! The plain engine: a product is added row by row, in whole words.

ghost use Rattle.std.specs.Prelude.{◌≡◌, ◌^◌, ◌<◌};
ghost use Rattle.m4_model.specs.Matrix.{added, product, row, row_sum, with_row};
ghost use Rattle.m4_mzd.specs.Window.{content, showing};
ghost use Rattle.m4_mzd.specs.Seen.{shown};

use m4_mzd::{AddMul, MOST_SIDE, Shape, Steps, Win, WinMut};
use std::marker::Brand;
use std::sync::ledger::{Blank, Ledger};

/// The engine that adds, to each row of the window, the rows of the second factor where the first has a one. It takes
/// every product that a matrix can be.
#[derive(Clone, Copy)]
pub struct Plain;

impl AddMul for Plain {
    ghost use Rattle.m4_mzd.specs.declared.TheConstants.{MOST_SIDE};

    ghost limits = { λ _. record { m = MOST_SIDE; l = MOST_SIDE; n = MOST_SIDE } };

    fn reach(&self) -> Shape {
        Shape {
            m: MOST_SIDE,
            l: MOST_SIDE,
            n: MOST_SIDE,
        }
    }

    fn addmul(&mut self, c: &mut WinMut, a: &Win, b: &Win) {
        add_product::<Brand>(c, a, b, Blank::new(1));
    }
}

/// Adds the product of `a` and `b` to `c`, row by row, with a count of steps that no one reads.
fn add_product<L: Ledger>(c: &mut WinMut, a: &Win, b: &Win, blank: Blank)
    requires name { blank.name ≡ L.name }
    requires parts { blank.parts ≡ L.parts }
    requires one { blank.parts ≡ 1 }
    requires rows { (shown a.now).rows ≡ c.old.rows }
    requires inner { (shown a.now).cols ≡ (shown b.now).rows }
    requires cols { (shown b.now).cols ≡ c.old.cols }
    ensures { c.new ≡ showing c.old (added (content c.old) (product (shown a.now) (shown b.now))) }
{
    let mut steps = Steps::<L>::new(blank);
    for i in 0..c.rows() {
        add_row_of_product(c, i, a, b, &mut steps);
    }
}

/// Adds row `i` of the product of `a` and `b` to row `i` of `c`: each row of `b` where row `i` of `a` has a one.
fn add_row_of_product<L: Ledger>(c: &mut WinMut, i: u32, a: &Win, b: &Win, steps: &mut Steps<L>)
    requires in_rows { i < c.old.rows }
    requires rows { (shown a.now).rows ≡ c.old.rows }
    requires inner { (shown a.now).cols ≡ (shown b.now).rows }
    requires cols { (shown b.now).cols ≡ c.old.cols }
    ensures { c.new ≡ showing c.old (with_row (content c.old) i (row_sum (row (content c.old) i) (row (product (shown a.now) (shown b.now)) i))) }
{
    let _rows = c.rows();
    for t in 0..b.rows() {
        if a.get(i, t) {
            c.add_row(i, b, t, steps);
        }
    }
}
