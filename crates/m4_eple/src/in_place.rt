//! PLUQ in place, by halves.

ghost use Rattle.std.specs.Prelude.{◌≡◌, ◌⊎◌, ℕ, min, ◌<◌, ◌≤◌, length, take, slice_index};
ghost use Rattle.m4_model.specs.Rank.{ArePivots};
ghost use Rattle.m4_model.specs.Shapes.{swaps};
ghost use Rattle.m4_mzd.specs.Reach.{IsReached};
ghost use Rattle.m4_mzed.specs.EWindow.{content, showing};
ghost use Rattle.m4_perm.specs.Perm.{AreSwaps};
ghost use Rattle.m4_ple.specs.Held.{HoldsPluq};

use crate::base::Base;
use crate::halves::{Halving, ple_by_halves};
use m4_mzed::EWinMut;
use m4_newton::EAddMul;
use m4_ple::exchange_columns;

/// Factors the window, over any field, as P L U Q in its own place, and answers its rank r.
///
/// It is a PLE, after which the entries in columns k and `q[k]` of the rows 0 to k are exchanged, for k = 0, 1, 2 and so on
/// in turn. So the pivots come first, in rising order: `q` tells Q by exchanges, as `p` tells P. L's first r columns stand
/// below the diagonal, and U stands in the first r rows from the diagonal on: Albrecht, Bard and Pernet, "Efficient dense
/// Gaussian elimination over the field with two elements" (2011), section 4, and over any field Jeannerod, Pernet and
/// Storjohann, "Rank-profile revealing Gaussian elimination and the CUP matrix decomposition" (2013). What it takes is as
/// for `ple_by_halves`. It takes no memory and refuses nothing.
pub fn pluq<M: EAddMul, B: Base>(
    a: &mut EWinMut,
    p: &mut [u32],
    q: &mut [u32],
    spare: &mut EWinMut,
    with: &mut Halving<M, B>,
) -> u32
    requires exchanges { length p.old ≡ a.old.rows }
    requires pivots { (length q.old ≡ a.old.rows) ⊎ (a.old.cols ≤ length q.old) }
    requires one_row { spare.old.rows ≡ 1 }
    requires same_cols { spare.old.cols ≡ a.old.cols }
    requires same_field { spare.old.field ≡ a.old.field }
    requires for_field { M.IsFor with.old.engine a.old.field }
    requires base_for_field { B.IsFor with.old.base a.old.field }
    requires reached { IsReached (M.limits with.old.engine) a.old.rows (min a.old.rows a.old.cols) a.old.cols }
    requires cutoff { 64 ≤ with.old.cutoff }
    ensures kept { a.new ≡ showing a.old (content a.new) }
    ensures spare { spare.new ≡ showing spare.old (content spare.new) }
    ensures exchanges { AreSwaps a.old.rows p.new }
    ensures all { length p.new ≡ length p.old }
    ensures stay { (i : ℕ) → result ≤ i → i < a.old.rows → slice_index p.new i ≡ i }
    ensures room { length q.new ≡ length q.old }
    ensures rank { result ≤ length q.new }
    ensures few_rows { result ≤ a.old.rows }
    ensures few_cols { result ≤ a.old.cols }
    ensures in_cols { (i : ℕ) → i < result → slice_index q.new i < a.old.cols }
    ensures columns { AreSwaps a.old.cols (take result q.new) }
    ensures pivots { ArePivots (content a.old) (take result q.new) }
    ensures factors { HoldsPluq (content a.old) (swaps a.old.rows p.new) (swaps a.old.cols (take result q.new)) result (content a.new) }
    ensures reach { M.limits with.new.engine ≡ M.limits with.old.engine }
    ensures still_for { M.IsFor with.new.engine a.old.field }
    ensures base_still_for { B.IsFor with.new.base a.old.field }
    ensures cutoff { with.new.cutoff ≡ with.old.cutoff }
{
    let _rows = a.rows();
    let rank = ple_by_halves(a, p, q, spare, with);
    exchange_columns(a, &q[..rank as usize]);
    rank
}
