//! The right columns, once the left ones are factored.

ghost use Rattle.std.specs.Prelude.{◌≡◌, ◌≤◌};
ghost use Rattle.m4_model.specs.Shapes.{swaps};
ghost use Rattle.m4_model.specs.Step.{reordered};
ghost use Rattle.m4_mzd.specs.Reach.{IsReached};
ghost use Rattle.m4_mzed.specs.EWindow.{content, showing};
ghost use Rattle.m4_mzed.specs.ESeen.{e_shown};
ghost use Rattle.m4_perm.specs.Perm.{AreSwaps};
ghost use Rattle.m4_eple.specs.Halves.{IsBroughtUp};

use crate::exchanges::swap_rows_by;
use m4_mzed::{EWin, EWinMut};
use m4_newton::EAddMul;
use m4_trsm::solve_lower_left;

/// The most rows of a triangle that is solved row by row: a larger one is halved, so that most of the work is products.
pub const BY_ROWS: u32 = 64;

/// Brings the right columns up to the left ones, whose first `r` columns hold L: their rows are exchanged as `p` tells, the
/// first `r` of them become the solution with L's triangle, and L's lower rows times this is added to the others.
pub fn bring_up<M: EAddMul>(
    left: &EWin,
    right: &mut EWinMut,
    p: &[u32],
    r: u32,
    engine: &mut M,
    cutoff: u32,
)
    requires exchanges { AreSwaps right.old.rows p.now }
    requires rows { (e_shown left.now).rows ≡ right.old.rows }
    requires field { (e_shown left.now).field ≡ right.old.field }
    requires rank_rows { r ≤ right.old.rows }
    requires rank_cols { r ≤ (e_shown left.now).cols }
    requires for_field { M.IsFor engine.old right.old.field }
    requires reached { IsReached (M.limits engine.old) right.old.rows r right.old.cols }
    requires cutoff { 64 ≤ cutoff }
    ensures kept { right.new ≡ showing right.old (content right.new) }
    ensures up { IsBroughtUp r (e_shown left.now) (reordered (swaps right.old.rows p.now) (content right.old)) (content right.new) }
    ensures reach { M.limits engine.new ≡ M.limits engine.old }
    ensures still_for { M.IsFor engine.new right.old.field }
{
    let _rows_of_left = left.rows();
    let _rows = right.rows();
    swap_rows_by(right, p);
    let _rows_swapped = right.rows();
    let (above, below) = left.split_rows(r);
    let (mut x, mut rest) = right.take().split_rows(r);
    let (_rows_of_x, _rows_of_rest) = (x.rows(), rest.rows());
    solve_lower_left(&above.narrow(r), &mut x, engine, cutoff.min(BY_ROWS));
    engine.addmul(&mut rest, &below.narrow(r), &x.see());
    let (_rows_solved, _rows_added) = (x.rows(), rest.rows());
    right.put_back(x.join_rows(rest));
}
