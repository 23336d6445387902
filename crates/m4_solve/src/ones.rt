//! Rows that are scaled so that ones stand at their pivots, and the right sides with them.

ghost use Rattle.std.specs.Prelude.{◌≡◌, ◌≢◌, ℕ, ◌<◌, ◌≤◌, length, slice_index};
ghost use Rattle.m4_model.specs.Matrix.{HasShape, at};
ghost use Rattle.m4_mzed.specs.EWindow.{content, showing};
ghost use Rattle.m4_solve.specs.Equations.{IsScaledEquation};

use m4_mzed::{EWinMut, Mzed};

/// Scales the first rows, one for each pivot, by the inverse of what stands there, and the same rows of right sides with
/// them: a one then stands at each pivot, and the equations are the same.
pub(crate) fn make_ones(a: &mut Mzed, y: &mut Mzed, pivots: &[u32])
    requires rows { length pivots.now ≤ a.old.rows }
    requires right_sides { length pivots.now ≤ y.old.rows }
    requires field { a.old.field ≡ y.old.field }
    requires in_cols { (s : ℕ) → s < length pivots.now → slice_index pivots.now s < a.old.cols }
    requires some { (s : ℕ) → s < length pivots.now → at a.old s (slice_index pivots.now s) ≢ 0 }
    ensures scaled { (s : ℕ) → s < length pivots.now → IsScaledEquation (slice_index pivots.now s) s a.old y.old a.new y.new }
    ensures shape { HasShape a.old.field a.old.rows a.old.cols a.new }
    ensures right_shape { HasShape y.old.field y.old.rows y.old.cols y.new }
{
    let (mut all, home) = a.all_mut();
    let (mut right, right_home) = y.all_mut();
    make_ones_in(&mut all, &mut right, pivots);
    y.put_all(right, right_home);
    a.put_all(all, home);
    let (_rows, _rows_of_y) = (a.rows(), y.rows());
}

/// The same in windows.
fn make_ones_in(a: &mut EWinMut, y: &mut EWinMut, pivots: &[u32])
    requires rows { length pivots.now ≤ a.old.rows }
    requires right_sides { length pivots.now ≤ y.old.rows }
    requires field { a.old.field ≡ y.old.field }
    requires in_cols { (s : ℕ) → s < length pivots.now → slice_index pivots.now s < a.old.cols }
    requires some { (s : ℕ) → s < length pivots.now → at (content a.old) s (slice_index pivots.now s) ≢ 0 }
    ensures kept { a.new ≡ showing a.old (content a.new) }
    ensures right_kept { y.new ≡ showing y.old (content y.new) }
    ensures scaled { (s : ℕ) → s < length pivots.now → IsScaledEquation (slice_index pivots.now s) s (content a.old) (content y.old) (content a.new) (content y.new) }
{
    let _rows = a.rows();
    for s in 0..pivots.len() {
        make_one(a, y, s as u32, pivots[s]);
    }
}

/// Scales row `s` of both windows so that its entry in column `c` of the first one becomes 1, which over GF(2) it is.
fn make_one(a: &mut EWinMut, y: &mut EWinMut, s: u32, c: u32)
    requires in_rows { s < a.old.rows }
    requires in_right_sides { s < y.old.rows }
    requires in_cols { c < a.old.cols }
    requires field { a.old.field ≡ y.old.field }
    requires some { at (content a.old) s c ≢ 0 }
    ensures kept { a.new ≡ showing a.old (content a.new) }
    ensures right_kept { y.new ≡ showing y.old (content y.new) }
    ensures scaled { IsScaledEquation c s (content a.old) (content y.old) (content a.new) (content y.new) }
    ensures others { (i j : ℕ) → i ≢ s → at (content a.new) i j ≡ at (content a.old) i j }
    ensures right_others { (i j : ℕ) → i ≢ s → at (content y.new) i j ≡ at (content y.old) i j }
{
    let (_rows, _rows_of_y) = (a.rows(), y.rows());
    let pivot = a.get(s, c);
    if pivot == 1 {
        return;
    }
    let factor = a.field().inv(pivot);
    a.scale_row(s, factor);
    y.scale_row(s, factor);
}
