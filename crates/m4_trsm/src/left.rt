//! Triangles on the left.

ghost use Rattle.std.specs.Prelude.{◌≡◌, ◌≤◌};
ghost use Rattle.m4_model.specs.Matrix.{product};
ghost use Rattle.m4_mzed.specs.EWindow.{content, showing};
ghost use Rattle.m4_mzed.specs.ESeen.{e_shown};
ghost use Rattle.m4_mzd.specs.Reach.{IsReached};
ghost use Rattle.m4_trsm.specs.Triangles.{unit_lower, unit_upper};

use crate::by_rows::solve_left;
use crate::parts::{half_over, most_by_rows, quarters};
use crate::side::Side;
use m4_mzed::{EWin, EWinMut};
use m4_newton::EAddMul;

/// `b` becomes the X with L X = b, where L is the lower triangle of `t` with ones on its diagonal.
///
/// `t` is square and has as many rows as `b`. Only what lies below its diagonal is read. The cutoff is at least 64: over
/// GF(2) a triangle of up to so many rows is solved row by row, and over other fields one of up to 16, or the elements of a word.
pub fn solve_lower_left<M: EAddMul>(t: &EWin, b: &mut EWinMut, e: &mut M, cutoff: u32)
    requires square { (e_shown t.now).rows ≡ (e_shown t.now).cols }
    requires fits { (e_shown t.now).rows ≡ b.old.rows }
    requires field { (e_shown t.now).field ≡ b.old.field }
    requires for_field { M.IsFor e.old b.old.field }
    requires cutoff { 64 ≤ cutoff }
    requires reached { IsReached (M.limits e.old) b.old.rows b.old.rows b.old.cols }
    ensures solved { product (unit_lower (e_shown t.now)) (content b.new) ≡ content b.old }
    ensures stays { b.new ≡ showing b.old (content b.new) }
    ensures reach { M.limits e.new ≡ M.limits e.old }
    ensures still_for { M.IsFor e.new b.old.field }
{
    let rows = t.rows();
    let field = t.field();
    if rows <= most_by_rows(field, cutoff) {
        solve_left(Side::Lower, t, b);
        return;
    }
    let _rows = b.rows();
    let cut = half_over(field, rows);
    let (first, _, corner, last) = quarters(*t, cut);
    let (mut top, mut bottom) = b.take().split_rows(cut);
    let (_above, _below) = (top.rows(), bottom.rows());
    solve_lower_left(&first, &mut top, e, cutoff);
    e.addmul(&mut bottom, &corner, &top.see());
    solve_lower_left(&last, &mut bottom, e, cutoff);
    let (_above, _below) = (top.rows(), bottom.rows());
    b.put_back(top.join_rows(bottom));
}

/// `b` becomes the X with U X = b, where U is the upper triangle of `t` with ones on its diagonal.
///
/// `t` is square and has as many rows as `b`. Only what lies above its diagonal is read. The cutoff is at least 64: over
/// GF(2) a triangle of up to so many rows is solved row by row, and over other fields one of up to 16, or the elements of a word.
pub fn solve_upper_left<M: EAddMul>(t: &EWin, b: &mut EWinMut, e: &mut M, cutoff: u32)
    requires square { (e_shown t.now).rows ≡ (e_shown t.now).cols }
    requires fits { (e_shown t.now).rows ≡ b.old.rows }
    requires field { (e_shown t.now).field ≡ b.old.field }
    requires for_field { M.IsFor e.old b.old.field }
    requires cutoff { 64 ≤ cutoff }
    requires reached { IsReached (M.limits e.old) b.old.rows b.old.rows b.old.cols }
    ensures solved { product (unit_upper (e_shown t.now)) (content b.new) ≡ content b.old }
    ensures stays { b.new ≡ showing b.old (content b.new) }
    ensures reach { M.limits e.new ≡ M.limits e.old }
    ensures still_for { M.IsFor e.new b.old.field }
{
    let rows = t.rows();
    let field = t.field();
    if rows <= most_by_rows(field, cutoff) {
        solve_left(Side::Upper, t, b);
        return;
    }
    let _rows = b.rows();
    let cut = half_over(field, rows);
    let (first, corner, _, last) = quarters(*t, cut);
    let (mut top, mut bottom) = b.take().split_rows(cut);
    let (_above, _below) = (top.rows(), bottom.rows());
    solve_upper_left(&last, &mut bottom, e, cutoff);
    e.addmul(&mut top, &corner, &bottom.see());
    solve_upper_left(&first, &mut top, e, cutoff);
    let (_above, _below) = (top.rows(), bottom.rows());
    b.put_back(top.join_rows(bottom));
}
