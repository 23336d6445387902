//! The reduced row echelon form, in place: a PLE, whose pivots are made ones, and then the entries above them are cleared.

ghost use Rattle.std.specs.Prelude.{◌≡◌, ◌⊎◌, ◌≤◌, min, length, take};
ghost use Rattle.m4_mzed.specs.EWindow.{content, showing};
ghost use Rattle.m4_solve.specs.Context.{Serves};
ghost use Rattle.m4_solve.specs.Reduction.{IsReducedAt};

use crate::clear::clear_above;
use crate::scale::scale_pivots;
use m4_eple::{Base, Halving, ple_by_halves};
use m4_mzed::EWinMut;
use m4_newton::EAddMul;
use m4_ple::keep_echelon;

/// Makes of the window its reduced row echelon form, and answers its rank, with the pivot columns in the front of `q`.
///
/// `p` and `q` are room for the exchanges and the pivots of a PLE, `spare` is a row of as many columns, and `corner` is square,
/// with the lesser of rows and columns for its side: room for the pivot columns. All are over one field.
pub(crate) fn reduce_window<M: EAddMul, B: Base>(
    a: &mut EWinMut,
    p: &mut [u32],
    q: &mut [u32],
    spare: &mut EWinMut,
    corner: &mut EWinMut,
    with: &mut Halving<M, B>,
) -> u32
    requires exchanges { length p.old ≡ a.old.rows }
    requires pivots { (length q.old ≡ a.old.rows) ⊎ (a.old.cols ≤ length q.old) }
    requires one_row { spare.old.rows ≡ 1 }
    requires same_cols { spare.old.cols ≡ a.old.cols }
    requires same_field { spare.old.field ≡ a.old.field }
    requires corner_rows { corner.old.rows ≡ min a.old.rows a.old.cols }
    requires corner_cols { corner.old.cols ≡ min a.old.rows a.old.cols }
    requires corner_field { corner.old.field ≡ a.old.field }
    requires for_field { M.IsFor with.old.engine a.old.field }
    requires base_for_field { B.IsFor with.old.base a.old.field }
    requires serves { Serves (M.limits with.old.engine) with.old.cutoff a.old.rows a.old.cols }
    ensures kept { a.new ≡ showing a.old (content a.new) }
    ensures spare { spare.new ≡ showing spare.old (content spare.new) }
    ensures corner { corner.new ≡ showing corner.old (content corner.new) }
    ensures exchanges { length p.new ≡ length p.old }
    ensures room { length q.new ≡ length q.old }
    ensures rank { result ≤ length q.new }
    ensures reduced { IsReducedAt (content a.new) (content a.old) (take result q.new) }
    ensures engine { M.limits with.new.engine ≡ M.limits with.old.engine }
    ensures still_for { M.IsFor with.new.engine a.old.field }
    ensures base_still_for { B.IsFor with.new.base a.old.field }
    ensures cutoff { with.new.cutoff ≡ with.old.cutoff }
{
    let _rows = a.rows();
    let rank = ple_by_halves(a, p, q, spare, with);
    let _cols = a.cols();
    let pivots = &q[..rank as usize];
    keep_echelon(a, pivots, spare);
    let _kept = a.rows();
    scale_pivots(a, pivots);
    let _scaled = a.rows();
    clear_above(a, pivots, corner, &mut with.engine, with.cutoff);
    let _shape = a.rows();
    rank
}
