//! An echelon form whose pivots are ones is cleared above them by one triangular solve.

ghost use Rattle.std.specs.Prelude.{◌≡◌, ℕ, ◌%◌, ◌<◌, ◌≤◌, length, slice_index};
ghost use Rattle.m4_model.specs.Matrix.{at};
ghost use Rattle.m4_model.specs.Forms.{Echelon, Reduced};
ghost use Rattle.m4_model.proofs.EquivalenceLemmas.{RowEquivalent};
ghost use Rattle.m4_model.proofs.ProductLemmas.{times, unit_at};
ghost use Rattle.m4_mzd.specs.Reach.{IsReached};
ghost use Rattle.m4_mzed.specs.EWindow.{content, showing};
ghost use Rattle.m4_mzed.specs.ESeen.{e_shown};
ghost use Rattle.m4_trsm.specs.Triangles.{unit_upper};

use crate::factored::solve_in_window;
use crate::gather::gather_columns;
use crate::runs::in_place;
use m4_eple::BY_ROWS;
use m4_mzd::MOST_SIDE;
use m4_mzed::{EWin, EWinMut};
use m4_newton::EAddMul;

/// Clears the entries above each pivot of an echelon form whose pivots are ones.
///
/// Its pivot columns are a triangle, and this times the form that it makes is the echelon form. So the triangle is copied to
/// `corner`, which has room for it, and is solved over the echelon form: over the columns behind the pivots that stand in
/// their own places, since these are to be columns of the identity.
pub(crate) fn clear_above<M: EAddMul>(
    a: &mut EWinMut,
    pivots: &[u32],
    corner: &mut EWinMut,
    engine: &mut M,
    cutoff: u32,
)
    requires echelon { Echelon (content a.old) pivots.now }
    requires ones { (i : ℕ) → i < length pivots.now → at (content a.old) i (slice_index pivots.now i) ≡ 1 }
    requires few_cols { length pivots.now ≤ a.old.cols }
    requires corner_rows { corner.old.rows ≤ a.old.rows }
    requires room_rows { length pivots.now ≤ corner.old.rows }
    requires room_cols { length pivots.now ≤ corner.old.cols }
    requires field { corner.old.field ≡ a.old.field }
    requires for_field { M.IsFor engine.old a.old.field }
    requires reached { IsReached (M.limits engine.old) (length pivots.now) (length pivots.now) a.old.cols }
    requires cutoff { 64 ≤ cutoff }
    ensures kept { a.new ≡ showing a.old (content a.new) }
    ensures corner { corner.new ≡ showing corner.old (content corner.new) }
    ensures reduced { Reduced (content a.new) pivots.now }
    ensures same { RowEquivalent a.old.field a.old.rows (content a.new) (content a.old) }
    ensures reach { M.limits engine.new ≡ M.limits engine.old }
    ensures still_for { M.IsFor engine.new a.old.field }
{
    let _rows = a.rows();
    let _cols = corner.cols();
    gather_columns(corner, &a.see(), pivots);
    let _corner = corner.cols();
    let rank = pivots.len() as u32;
    let (triangle, _) = corner.see().split_rows(rank);
    let done = settled(pivots);
    solve_behind(a, done, &triangle.narrow(rank), engine, cutoff);
    let _shape = a.rows();
}

/// How many of the first pivots stand in their own places, in whole words of 64.
fn settled(pivots: &[u32]) -> u32
    requires { length pivots.now ≤ MOST_SIDE }
    ensures within { result ≤ length pivots.now }
    ensures whole_words { result % 64 ≡ 0 }
    ensures places { (s : ℕ) → s < result → slice_index pivots.now s ≡ s }
{
    in_place(pivots) as u32 / 64 * 64
}

/// The first `done` columns become those of the identity, and the first rows of the others, as many as `t` has, the X with
/// U X those rows, where U is the upper triangle of `t` with ones on its diagonal.
fn solve_behind<M: EAddMul>(a: &mut EWinMut, done: u32, t: &EWin, engine: &mut M, cutoff: u32)
    requires square { (e_shown t.now).rows ≡ (e_shown t.now).cols }
    requires within { (e_shown t.now).rows ≤ a.old.rows }
    requires in_rows { done ≤ a.old.rows }
    requires in_cols { done ≤ a.old.cols }
    requires whole_words { done % 64 ≡ 0 }
    requires field { (e_shown t.now).field ≡ a.old.field }
    requires for_field { M.IsFor engine.old a.old.field }
    requires reached { IsReached (M.limits engine.old) (e_shown t.now).rows (e_shown t.now).rows a.old.cols }
    requires cutoff { 64 ≤ cutoff }
    ensures kept { a.new ≡ showing a.old (content a.new) }
    ensures units { (i j : ℕ) → i < a.old.rows → j < done → at (content a.new) i j ≡ unit_at i j }
    ensures solved { (i j : ℕ) → i < (e_shown t.now).rows → done ≤ j → j < a.old.cols
        → at (content a.old) i j ≡ times a.old.field (e_shown t.now).rows (at (unit_upper (e_shown t.now))) (at (content a.new)) i j }
    ensures rest { (i j : ℕ) → (e_shown t.now).rows ≤ i → i < a.old.rows → done ≤ j → j < a.old.cols → at (content a.new) i j ≡ at (content a.old) i j }
    ensures reach { M.limits engine.new ≡ M.limits engine.old }
    ensures still_for { M.IsFor engine.new a.old.field }
{
    let _rows = a.rows();
    let _rows_of_t = t.rows();
    let (mut left, mut right) = a.take().split_cols(done);
    let (_left, _right) = (left.cols(), right.cols());
    set_units(&mut left);
    solve_in_window(t, &mut right, engine, cutoff.min(BY_ROWS));
    let (_left_set, _right_solved) = (left.cols(), right.cols());
    a.put_back(left.join_cols(right));
}

/// Makes the columns of a window those of the identity.
pub(crate) fn set_units(a: &mut EWinMut)
    requires { a.old.cols ≤ a.old.rows }
    ensures kept { a.new ≡ showing a.old (content a.new) }
    ensures units { (i j : ℕ) → i < a.old.rows → j < a.old.cols → at (content a.new) i j ≡ unit_at i j }
{
    a.clear();
    let _rows = a.rows();
    for i in 0..a.cols() {
        a.put(i, i, 1);
    }
}
