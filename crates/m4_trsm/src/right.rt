//! Triangles on the right.

ghost use Rattle.std.specs.Prelude.{◌≡◌, ◌≤◌};
ghost use Rattle.m4_model.specs.Matrix.{product};
ghost use Rattle.m4_mzed.specs.EWindow.{content, showing};
ghost use Rattle.m4_mzed.specs.ESeen.{e_shown};
ghost use Rattle.m4_mzd.specs.Reach.{IsReached};
ghost use Rattle.m4_trsm.specs.Triangles.{unit_lower, unit_upper};

use crate::by_rows::solve_right;
use crate::parts::{half, quarters};
use crate::side::Side;
use m4_mzed::{EWin, EWinMut};
use m4_newton::EAddMul;

/// `b` becomes the X with X L = b, where L is the lower triangle of `t` with ones on its diagonal.
///
/// `t` is square and has as many columns as `b`. Only what lies below its diagonal is read. The cutoff is at least 64.
pub fn solve_lower_right<M: EAddMul>(t: &EWin, b: &mut EWinMut, e: &mut M, cutoff: u32)
    requires square { (e_shown t.now).rows ≡ (e_shown t.now).cols }
    requires fits { (e_shown t.now).cols ≡ b.old.cols }
    requires field { (e_shown t.now).field ≡ b.old.field }
    requires for_field { M.IsFor e.old b.old.field }
    requires cutoff { 64 ≤ cutoff }
    requires reached { IsReached (M.limits e.old) b.old.rows b.old.cols b.old.cols }
    ensures solved { product (content b.new) (unit_lower (e_shown t.now)) ≡ content b.old }
    ensures stays { b.new ≡ showing b.old (content b.new) }
    ensures reach { M.limits e.new ≡ M.limits e.old }
    ensures still_for { M.IsFor e.new b.old.field }
{
    let cols = t.cols();
    if cols <= cutoff {
        solve_right(Side::Lower, t, b);
        return;
    }
    let _rows = b.rows();
    let cut = half(cols);
    let (first, _, corner, last) = quarters(*t, cut);
    let (mut left, mut right) = b.take().split_cols(cut);
    let (_before, _behind) = (left.cols(), right.cols());
    solve_lower_right(&last, &mut right, e, cutoff);
    e.addmul(&mut left, &right.see(), &corner);
    solve_lower_right(&first, &mut left, e, cutoff);
    let (_before, _behind) = (left.cols(), right.cols());
    b.put_back(left.join_cols(right));
}

/// `b` becomes the X with X U = b, where U is the upper triangle of `t` with ones on its diagonal.
///
/// `t` is square and has as many columns as `b`. Only what lies above its diagonal is read. The cutoff is at least 64.
pub fn solve_upper_right<M: EAddMul>(t: &EWin, b: &mut EWinMut, e: &mut M, cutoff: u32)
    requires square { (e_shown t.now).rows ≡ (e_shown t.now).cols }
    requires fits { (e_shown t.now).cols ≡ b.old.cols }
    requires field { (e_shown t.now).field ≡ b.old.field }
    requires for_field { M.IsFor e.old b.old.field }
    requires cutoff { 64 ≤ cutoff }
    requires reached { IsReached (M.limits e.old) b.old.rows b.old.cols b.old.cols }
    ensures solved { product (content b.new) (unit_upper (e_shown t.now)) ≡ content b.old }
    ensures stays { b.new ≡ showing b.old (content b.new) }
    ensures reach { M.limits e.new ≡ M.limits e.old }
    ensures still_for { M.IsFor e.new b.old.field }
{
    let cols = t.cols();
    if cols <= cutoff {
        solve_right(Side::Upper, t, b);
        return;
    }
    let _rows = b.rows();
    let cut = half(cols);
    let (first, corner, _, last) = quarters(*t, cut);
    let (mut left, mut right) = b.take().split_cols(cut);
    let (_before, _behind) = (left.cols(), right.cols());
    solve_upper_right(&first, &mut left, e, cutoff);
    e.addmul(&mut right, &left.see(), &corner);
    solve_upper_right(&last, &mut right, e, cutoff);
    let (_before, _behind) = (left.cols(), right.cols());
    b.put_back(left.join_cols(right));
}
