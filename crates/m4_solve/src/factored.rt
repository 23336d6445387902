//! A matrix that is factored once, and right sides that are solved by its factors.

ghost use Rattle.std.specs.Prelude.{◌≡◌, ◌≢◌, ◌⊎◌, ℕ, ◌<◌, ◌≤◌, length, slice_index, take, min, IfOk};
ghost use Rattle.m4_model.specs.Matrix.{HasShape, at, product};
ghost use Rattle.m4_model.specs.Rank.{IsRising};
ghost use Rattle.m4_model.specs.Shapes.{cut, swaps};
ghost use Rattle.m4_model.specs.Step.{reordered};
ghost use Rattle.m4_mzd.specs.Reach.{IsReached};
ghost use Rattle.m4_mzed.specs.EWindow.{content, showing};
ghost use Rattle.m4_mzed.specs.ESeen.{e_shown};
ghost use Rattle.m4_perm.specs.Perm.{AreSwaps};
ghost use Rattle.m4_trsm.specs.Triangles.{unit_upper};
ghost use Rattle.m4_eple.specs.Halves.{IsBroughtUp};
ghost use Rattle.m4_solve.specs.Factored.{IsFactored, IsUnitSolved, IsBackSolved};

use crate::first::are_first;
use crate::gather::gathered;
use crate::ones::make_ones;
use m4_eple::{BY_ROWS, Base, Halving, bring_up, ple_by_halves};
use m4_model::NoMemory;
use m4_mzed::{EWin, EWinMut, Mzed};
use m4_newton::EAddMul;
use m4_trsm::solve_upper_left;
use std::alloc::Global;

/// A PLE in the place of a matrix: the exchanges of its rows, and its pivot columns, as many as its rank.
#[derive(Drop)]
pub(crate) struct Factored {
    pub(crate) matrix: Mzed,
    pub(crate) exchanges: Vec<u32>,
    pub(crate) pivots: Vec<u32>,
}

impl Factored {
    /// The factors of a matrix, in its own place.
    pub(crate) fn new<M: EAddMul, B: Base>(
        alloc: Global,
        a: Mzed,
        with: &mut Halving<M, B>,
    ) -> Result<Factored, NoMemory>
        requires for_field { M.IsFor with.old.engine a.field }
        requires base_for_field { B.IsFor with.old.base a.field }
        requires reached { IsReached (M.limits with.old.engine) a.rows (min a.rows a.cols) a.cols }
        requires cutoff { 64 ≤ with.old.cutoff }
        ensures factored { IfOk result (IsFactored a) }
        ensures reach { M.limits with.new.engine ≡ M.limits with.old.engine }
        ensures still_for { M.IsFor with.new.engine a.field }
        ensures base_still_for { B.IsFor with.new.base a.field }
        ensures cutoff { with.new.cutoff ≡ with.old.cutoff }
    {
        let (rows, cols) = (a.rows(), a.cols());
        let mut matrix = a;
        let mut row = Mzed::zeros(alloc, matrix.field(), 1, cols)?;
        let mut exchanges = vec![in alloc; 0u32; rows as usize]?;
        let least = if rows < cols { rows } else { cols };
        let mut pivots = vec![in alloc; 0u32; least as usize]?;
        let (mut all, home) = matrix.all_mut();
        let (mut spare, spare_home) = row.all_mut();
        let rank = ple_by_halves(&mut all, &mut exchanges, &mut pivots, &mut spare, with);
        row.put_all(spare, spare_home);
        matrix.put_all(all, home);
        let _shape = matrix.rows();
        pivots.truncate(rank as usize);
        Ok(Factored {
            matrix,
            exchanges,
            pivots,
        })
    }

    /// Brings right sides up to L: of a solution, E makes what they become.
    pub(crate) fn bring_up<M: EAddMul, B>(&self, y: &mut Mzed, with: &mut Halving<M, B>)
        requires exchanges { AreSwaps y.old.rows self.now.exchanges.items }
        requires rows { self.now.matrix.rows ≡ y.old.rows }
        requires field { self.now.matrix.field ≡ y.old.field }
        requires rank_rows { length self.now.pivots.items ≤ y.old.rows }
        requires rank_cols { length self.now.pivots.items ≤ self.now.matrix.cols }
        requires for_field { M.IsFor with.old.engine y.old.field }
        requires reached { IsReached (M.limits with.old.engine) y.old.rows (length self.now.pivots.items) y.old.cols }
        requires cutoff { 64 ≤ with.old.cutoff }
        ensures up { IsBroughtUp (length self.now.pivots.items) self.now.matrix (reordered (swaps y.old.rows self.now.exchanges.items) y.old) y.new }
        ensures shape { HasShape y.old.field y.old.rows y.old.cols y.new }
        ensures reach { M.limits with.new.engine ≡ M.limits with.old.engine }
        ensures still_for { M.IsFor with.new.engine y.old.field }
        ensures base { with.new.base ≡ with.old.base }
        ensures cutoff { with.new.cutoff ≡ with.old.cutoff }
    {
        let _cols = self.matrix.cols();
        let rank = self.pivots.len() as u32;
        let (mut all, home) = y.all_mut();
        bring_up(
            &self.matrix.all(),
            &mut all,
            &self.exchanges,
            rank,
            &mut with.engine,
            with.cutoff,
        );
        y.put_all(all, home);
        let _shape = y.rows();
    }

    /// Solves with E's pivot columns: the first rows of right sides that were brought up, as many as the rank, become what
    /// stands at the pivots in a solution. The matrix is not needed afterwards, and its rows are scaled. It takes memory for
    /// the pivot columns, where they aren't the first ones.
    pub(crate) fn solve_pivots<M: EAddMul, B>(
        &mut self,
        alloc: Global,
        y: &mut Mzed,
        with: &mut Halving<M, B>,
    ) -> Result<(), NoMemory>
        requires rows { self.old.matrix.rows ≡ y.old.rows }
        requires field { self.old.matrix.field ≡ y.old.field }
        requires rank_rows { length self.old.pivots.items ≤ y.old.rows }
        requires rank_cols { length self.old.pivots.items ≤ self.old.matrix.cols }
        requires in_cols { (s : ℕ) → s < length self.old.pivots.items → slice_index self.old.pivots.items s < self.old.matrix.cols }
        requires some { (s : ℕ) → s < length self.old.pivots.items → at self.old.matrix s (slice_index self.old.pivots.items s) ≢ 0 }
        requires rising { IsRising self.old.pivots.items }
        requires for_field { M.IsFor with.old.engine y.old.field }
        requires reached { IsReached (M.limits with.old.engine) (length self.old.pivots.items) (length self.old.pivots.items) y.old.cols }
        requires cutoff { 64 ≤ with.old.cutoff }
        ensures solved { IfOk result (λ done. IsBackSolved self.old.matrix self.old.pivots.items y.old y.new) }
        ensures pivots { self.new.pivots.items ≡ self.old.pivots.items }
        ensures reach { M.limits with.new.engine ≡ M.limits with.old.engine }
        ensures still_for { M.IsFor with.new.engine y.old.field }
        ensures base { with.new.base ≡ with.old.base }
        ensures cutoff { with.new.cutoff ≡ with.old.cutoff }
    {
        let (_rows, _rows_of_y) = (self.matrix.rows(), y.rows());
        make_ones(&mut self.matrix, y, &self.pivots);
        solve_unit_pivots(alloc, &self.matrix, &self.pivots, y, with)?;
        Ok(())
    }
}

/// Solves with the pivot columns of a matrix, where ones stand at the pivots.
fn solve_unit_pivots<M: EAddMul, B>(
    alloc: Global,
    matrix: &Mzed,
    pivots: &[u32],
    y: &mut Mzed,
    with: &mut Halving<M, B>,
) -> Result<(), NoMemory>
    requires rows { matrix.now.rows ≡ y.old.rows }
    requires field { matrix.now.field ≡ y.old.field }
    requires rank_rows { length pivots.now ≤ y.old.rows }
    requires rank_cols { length pivots.now ≤ matrix.now.cols }
    requires in_cols { (s : ℕ) → s < length pivots.now → slice_index pivots.now s < matrix.now.cols }
    requires rising { IsRising pivots.now }
    requires for_field { M.IsFor with.old.engine y.old.field }
    requires reached { IsReached (M.limits with.old.engine) (length pivots.now) (length pivots.now) y.old.cols }
    requires cutoff { 64 ≤ with.old.cutoff }
    ensures solved { IfOk result (λ done. IsUnitSolved matrix.now pivots.now y.old y.new) }
    ensures reach { M.limits with.new.engine ≡ M.limits with.old.engine }
    ensures still_for { M.IsFor with.new.engine y.old.field }
    ensures base { with.new.base ≡ with.old.base }
    ensures cutoff { with.new.cutoff ≡ with.old.cutoff }
{
    let _cols = matrix.cols();
    let rank = pivots.len() as u32;
    let by_rows = with.cutoff.min(BY_ROWS);
    if are_first(pivots, rank) {
        let (first, _) = matrix.all().split_rows(rank);
        solve_first_rows(&first.narrow(rank), y, &mut with.engine, by_rows);
        return Ok(());
    }
    let g = gathered(alloc, &matrix.all(), pivots)?;
    solve_first_rows(&g.all(), y, &mut with.engine, by_rows);
    Ok(())
}

/// The first rows of `y`, as many as `t` has, become the X with U X those rows, where U is the upper triangle of `t` with ones
/// on its diagonal.
fn solve_first_rows<M: EAddMul>(t: &EWin, y: &mut Mzed, engine: &mut M, cutoff: u32)
    requires square { (e_shown t.now).rows ≡ (e_shown t.now).cols }
    requires within { (e_shown t.now).rows ≤ y.old.rows }
    requires field { (e_shown t.now).field ≡ y.old.field }
    requires for_field { M.IsFor engine.old y.old.field }
    requires reached { IsReached (M.limits engine.old) (e_shown t.now).rows (e_shown t.now).rows y.old.cols }
    requires cutoff { 64 ≤ cutoff }
    ensures solved { product (unit_upper (e_shown t.now)) (cut y.new 0 0 (e_shown t.now).rows y.new.cols) ≡ cut y.old 0 0 (e_shown t.now).rows y.old.cols }
    ensures shape { HasShape y.old.field y.old.rows y.old.cols y.new }
    ensures reach { M.limits engine.new ≡ M.limits engine.old }
    ensures still_for { M.IsFor engine.new y.old.field }
{
    let _rows = y.rows();
    let (mut all, home) = y.all_mut();
    solve_in_window(t, &mut all, engine, cutoff);
    y.put_all(all, home);
    let _shape = y.rows();
}

/// The same in a window.
pub(crate) fn solve_in_window<M: EAddMul>(t: &EWin, y: &mut EWinMut, engine: &mut M, cutoff: u32)
    requires square { (e_shown t.now).rows ≡ (e_shown t.now).cols }
    requires within { (e_shown t.now).rows ≤ y.old.rows }
    requires field { (e_shown t.now).field ≡ y.old.field }
    requires for_field { M.IsFor engine.old y.old.field }
    requires reached { IsReached (M.limits engine.old) (e_shown t.now).rows (e_shown t.now).rows y.old.cols }
    requires cutoff { 64 ≤ cutoff }
    ensures kept { y.new ≡ showing y.old (content y.new) }
    ensures solved { product (unit_upper (e_shown t.now)) (cut (content y.new) 0 0 (e_shown t.now).rows y.new.cols) ≡ cut (content y.old) 0 0 (e_shown t.now).rows y.old.cols }
    ensures rest { (i j : ℕ) → (e_shown t.now).rows ≤ i → i < y.old.rows → j < y.old.cols → at (content y.new) i j ≡ at (content y.old) i j }
    ensures reach { M.limits engine.new ≡ M.limits engine.old }
    ensures still_for { M.IsFor engine.new y.old.field }
{
    let rank = t.rows();
    let _rows = y.rows();
    let (mut top, rest) = y.take().split_rows(rank);
    let (_rows_of_top, _rows_of_rest) = (top.rows(), rest.rows());
    solve_upper_left(t, &mut top, engine, cutoff);
    let _rows_solved = top.rows();
    y.put_back(top.join_rows(rest));
}
