//! The recursion: the left columns, the right ones brought up to them, and the right columns of what remains. A wide window is
//! cut at half of its columns, and a narrower one after a strip of them.

ghost use Rattle.std.specs.Prelude.{◌≡◌, ◌⊎◌, ℕ, min, ◌+◌, ◌-◌, ◌%◌, ◌≤◌, ◌<◌, length, take, drop, slice_index};
ghost use Rattle.m4_model.specs.Shapes.{cut, swaps};
ghost use Rattle.m4_mzd.specs.Reach.{IsReached};
ghost use Rattle.m4_mzed.specs.EWindow.{content, showing};
ghost use Rattle.m4_perm.specs.Perm.{AreSwaps};
ghost use Rattle.m4_ple.specs.Held.{HoldsPle};
ghost use Rattle.m4_eple.specs.Halves.{lower_exchanged};

use crate::base::Base;
use crate::bring::bring_up;
use crate::exchanges::swap_rows_by;
use crate::lower::move_lower;
use crate::raise::raise;
use m4_mzed::EWinMut;
use m4_newton::EAddMul;
use m4_trsm::half;

/// What a PLE by halves works with beside the matrix: an engine for products, what factors a strip of columns, and the number
/// of columns, at least 64, up to which a window is not halved, but is cut into strips.
#[derive(Drop)]
pub struct Halving<M, B> {
    pub engine: M,
    pub base: B,
    pub cutoff: u32,
}

/// Factors the window as P L E in its own place, and answers its rank r.
///
/// `p` has as many entries as the window has rows, and tells P by exchanges, as LAPACK's pivot vectors do: row i and row
/// `p[i]` are exchanged for i = 0, 1, 2 and so on; from r on each stays. `q` has room for as many numbers as the lesser
/// of rows and columns; its first r are the pivot columns. L's first r columns stand below the diagonal, and row i of E
/// stands from its pivot on. `spare` is a row of as many columns, which is written over. It takes no memory and refuses
/// nothing.
#[cycle(ple)]
pub fn ple_by_halves<M: EAddMul, B: Base>(
    a: &mut EWinMut,
    p: &mut [u32],
    q: &mut [u32],
    spare: &mut EWinMut,
    with: &mut Halving<M, B>,
) -> u32
    requires exchanges { length p.old ≡ a.old.rows }
    requires pivots { (length q.old ≡ a.old.rows) ⊎ (a.old.cols ≤ length q.old) }
    requires one_row { spare.old.rows ≡ 1 }
    requires same_cols { spare.old.cols ≡ a.old.cols }
    requires same_field { spare.old.field ≡ a.old.field }
    requires for_field { M.IsFor with.old.engine a.old.field }
    requires base_for_field { B.IsFor with.old.base a.old.field }
    requires reached { IsReached (M.limits with.old.engine) a.old.rows (min a.old.rows a.old.cols) a.old.cols }
    requires cutoff { 64 ≤ with.old.cutoff }
    ensures kept { a.new ≡ showing a.old (content a.new) }
    ensures spare { spare.new ≡ showing spare.old (content spare.new) }
    ensures exchanges { AreSwaps a.old.rows p.new }
    ensures all { length p.new ≡ length p.old }
    ensures stay { (i : ℕ) → result ≤ i → i < a.old.rows → slice_index p.new i ≡ i }
    ensures room { length q.new ≡ length q.old }
    ensures rank { result ≤ length q.new }
    ensures few_rows { result ≤ a.old.rows }
    ensures few_cols { result ≤ a.old.cols }
    ensures in_cols { (i : ℕ) → i < result → slice_index q.new i < a.old.cols }
    ensures factors { HoldsPle (content a.old) (swaps a.old.rows p.new) (take result q.new) (content a.new) }
    ensures reach { M.limits with.new.engine ≡ M.limits with.old.engine }
    ensures still_for { M.IsFor with.new.engine a.old.field }
    ensures base_still_for { B.IsFor with.new.base a.old.field }
    ensures cutoff { with.new.cutoff ≡ with.old.cutoff }
{
    let cols = a.cols();
    let strip = with.base.strip();
    if cols <= strip.min(with.cutoff) {
        return with.base.ple(a, p, q);
    }
    let _rows = a.rows();
    let cut = cut_at(cols, strip, with.cutoff);
    let (mut left, mut right) = a.take().split_cols(cut);
    let (_left, _right) = (left.cols(), right.cols());
    let (mut spare_left, mut spare_right) = spare.take().split_cols(cut);
    let first = ple_by_halves(&mut left, p, q, &mut spare_left, with);
    let (_left_factored, _right_given) = (left.cols(), right.cols());
    bring_up(
        &left.see(),
        &mut right,
        p,
        first,
        &mut with.engine,
        with.cutoff,
    );
    let _right_up = right.cols();
    let (_, behind) = p.split_at_mut(first as usize);
    let (_, pivots) = q.split_at_mut(first as usize);
    let second = ple_right(
        &mut left,
        &mut right,
        first,
        behind,
        pivots,
        &mut spare_right,
        with,
    );
    let (_left_done, _right_done) = (left.cols(), right.cols());
    raise(behind, behind.len() as u32, first);
    raise(pivots, second, cut);
    a.put_back(left.join_cols(right));
    spare.put_back(spare_left.join_cols(spare_right));
    move_lower(a, first, cut, second, spare);
    first + second
}

/// Where a window of so many columns is cut: after a strip where it isn't halved, and else at half of its columns.
fn cut_at(cols: u32, strip: u32, cutoff: u32) -> u32
    requires more { min strip cutoff < cols }
    requires some { 64 ≤ strip }
    requires whole_words { strip % 64 ≡ 0 }
    requires cutoff { 64 ≤ cutoff }
    ensures some { 0 < result }
    ensures less { result < cols }
    ensures whole_words { result % 64 ≡ 0 }
{
    if cols <= cutoff { strip } else { half(cols) }
}

/// Factors what remains of the right columns, once these are brought up to the left ones, which hold a PLE of rank `first`.
///
/// The exchanges and the pivots, counted from the first row and column of what remains, go to `p` and `q`. The rows of the left
/// columns below the rank are exchanged too.
#[cycle(ple)]
fn ple_right<M: EAddMul, B: Base>(
    left: &mut EWinMut,
    right: &mut EWinMut,
    first: u32,
    p: &mut [u32],
    q: &mut [u32],
    spare: &mut EWinMut,
    with: &mut Halving<M, B>,
) -> u32
    requires exchanges { first + length p.old ≡ left.old.rows }
    requires rows { right.old.rows ≡ left.old.rows }
    requires field { right.old.field ≡ left.old.field }
    requires pivots { (length q.old ≡ length p.old) ⊎ (right.old.cols ≤ length q.old) }
    requires one_row { spare.old.rows ≡ 1 }
    requires same_cols { spare.old.cols ≡ right.old.cols }
    requires same_field { spare.old.field ≡ right.old.field }
    requires for_field { M.IsFor with.old.engine right.old.field }
    requires base_for_field { B.IsFor with.old.base right.old.field }
    requires reached { IsReached (M.limits with.old.engine) right.old.rows (min right.old.rows right.old.cols) right.old.cols }
    requires cutoff { 64 ≤ with.old.cutoff }
    ensures left_kept { left.new ≡ showing left.old (content left.new) }
    ensures right_kept { right.new ≡ showing right.old (content right.new) }
    ensures spare { spare.new ≡ showing spare.old (content spare.new) }
    ensures exchanges { AreSwaps (length p.old) p.new }
    ensures all { length p.new ≡ length p.old }
    ensures stay { (i : ℕ) → result ≤ i → i < length p.old → slice_index p.new i ≡ i }
    ensures room { length q.new ≡ length q.old }
    ensures rank { result ≤ length q.new }
    ensures few_rows { result ≤ length p.old }
    ensures few_cols { result ≤ right.old.cols }
    ensures in_cols { (i : ℕ) → i < result → slice_index q.new i < right.old.cols }
    ensures left { content left.new ≡ lower_exchanged first (swaps (length p.old) p.new) (content left.old) }
    ensures top { cut (content right.new) 0 0 first right.new.cols ≡ cut (content right.old) 0 0 first right.old.cols }
    ensures rest { HoldsPle (cut (content right.old) first 0 right.old.rows right.old.cols) (swaps (length p.old) p.new) (take result q.new) (cut (content right.new) first 0 right.new.rows right.new.cols) }
    ensures reach { M.limits with.new.engine ≡ M.limits with.old.engine }
    ensures still_for { M.IsFor with.new.engine right.old.field }
    ensures base_still_for { B.IsFor with.new.base right.old.field }
    ensures cutoff { with.new.cutoff ≡ with.old.cutoff }
{
    let _rows_of_left = left.rows();
    let _rows_of_right = right.rows();
    let (x, mut rest) = right.take().split_rows(first);
    let (_rows_of_x, _rows_of_rest) = (x.rows(), rest.rows());
    let second = ple_by_halves(&mut rest, p, q, spare, with);
    let _rows_factored = rest.rows();
    right.put_back(x.join_rows(rest));
    let (above, mut below) = left.take().split_rows(first);
    let (_rows_above, _rows_below) = (above.rows(), below.rows());
    swap_rows_by(&mut below, p);
    let _rows_exchanged = below.rows();
    left.put_back(above.join_rows(below));
    second
}
