//! The multiples of rows by the powers of x.

ghost use Rattle.std.specs.Prelude.{◌≡◌, ℕ, ◌+◌, ◌*◌, ◌^◌, ◌<◌, ◌≤◌};
ghost use Rattle.m4_model.specs.Field.{width};
ghost use Rattle.m4_model.specs.Matrix.{row, with_row};
ghost use Rattle.m4_mzed.specs.EWindow.{content, showing};
ghost use Rattle.m4_mzed.specs.ESeen.{e_shown};
ghost use Rattle.m4_mzed.specs.Rows.{multiples};
ghost use Rattle.m4_newton.specs.Multiples.{HasMultiples};

use m4_mzd::Steps;
use m4_mzed::{EWin, EWinMut};
use std::sync::ledger::Ledger;

/// Makes the rows of `m` from `first` on, as many as the degree, the multiples of row `t` of `b` by 1, x, x^2 and so on. All
/// else stays.
pub(crate) fn put_multiples(m: &mut EWinMut, first: u32, b: &EWin, t: u32)
    requires in_rows { first + m.old.field.degree ≤ m.old.rows }
    requires in_b { t < (e_shown b.now).rows }
    requires same_cols { (e_shown b.now).cols ≡ m.old.cols }
    requires same_field { (e_shown b.now).field ≡ m.old.field }
    ensures kept { m.new ≡ showing m.old (content m.new) }
    ensures powers { (u : ℕ) → u < m.old.field.degree → row (content m.new) (first + u) ≡ multiples m.old.field (2 ^ u) (row (e_shown b.now) t) }
    ensures before { (i : ℕ) → i < first → row (content m.new) i ≡ row (content m.old) i }
    ensures after { (i : ℕ) → first + m.old.field.degree ≤ i → row (content m.new) i ≡ row (content m.old) i }
{
    let degree = m.field().e();
    for u in 0..degree {
        let _rows = m.rows();
        put_multiple(m, first + u, b, t, 1 << u);
    }
}

/// Makes row `r` of `m` `x` times row `t` of `b`. All else stays.
pub(crate) fn put_multiple(m: &mut EWinMut, r: u32, b: &EWin, t: u32, x: u32)
    requires in_rows { r < m.old.rows }
    requires in_b { t < (e_shown b.now).rows }
    requires same_cols { (e_shown b.now).cols ≡ m.old.cols }
    requires same_field { (e_shown b.now).field ≡ m.old.field }
    requires element { x < 2 ^ m.old.field.degree }
    ensures { m.new ≡ showing m.old (with_row (content m.old) r (multiples m.old.field x (row (e_shown b.now) t))) }
{
    let _rows = m.rows();
    let _rows_of_b = b.rows();
    m.clear_row(r);
    m.add_multiple(r, b, t, x);
}

/// Makes the rows of `m` the multiples of all rows of `b`, as many rows for each as an element has bits. Takes a step for
/// each row of `b`.
pub(crate) fn put_all_multiples<L: Ledger>(m: &mut EWinMut, b: &EWin, steps: &mut Steps<L>)
    requires rows { m.old.rows ≡ (e_shown b.now).rows * width m.old.field }
    requires same_cols { (e_shown b.now).cols ≡ m.old.cols }
    requires same_field { (e_shown b.now).field ≡ m.old.field }
    ensures kept { m.new ≡ showing m.old (content m.new) }
    ensures multiples { HasMultiples (content m.new) (e_shown b.now) (e_shown b.now).rows }
    ensures ticks { steps.new ≡ steps.old + (e_shown b.now).rows }
{
    let width = m.field().width();
    for t in 0..b.rows() {
        let _rows = m.rows();
        put_multiples(m, t * width, b, t);
        steps.tick();
    }
}
