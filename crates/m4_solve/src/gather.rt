//! Columns that are gathered, and rows that are put where they belong.

ghost use Rattle.std.specs.Prelude.{◌≡◌, ℕ, ◌+◌, ◌<◌, ◌≤◌, length, slice_index, IfOk};
ghost use Rattle.m4_model.specs.Matrix.{at, zero_matrix};
ghost use Rattle.m4_model.specs.Rank.{IsRising};
ghost use Rattle.m4_mzed.specs.EWindow.{content, showing};
ghost use Rattle.m4_mzed.specs.ESeen.{e_shown};
ghost use Rattle.m4_solve.specs.Equations.{IsGathered, IsPlaced};

use crate::runs::run_from;
use m4_model::NoMemory;
use m4_mzd::MOST_SIDE;
use m4_mzed::{EWin, EWinMut, Mzed};
use std::alloc::Global;

/// These columns of the first rows of a window, as many rows as columns.
pub(crate) fn gathered(alloc: Global, w: &EWin, columns: &[u32]) -> Result<Mzed, NoMemory>
    requires in_rows { length columns.now ≤ (e_shown w.now).rows }
    requires few { length columns.now ≤ (e_shown w.now).cols }
    requires in_cols { (s : ℕ) → s < length columns.now → slice_index columns.now s < (e_shown w.now).cols }
    ensures { IfOk result (IsGathered (e_shown w.now) columns.now) }
{
    let _rows = w.rows();
    let _cols = w.cols();
    let count = columns.len() as u32;
    let mut g = Mzed::zeros(alloc, w.field(), count, count)?;
    let (mut all, home) = g.all_mut();
    gather_columns(&mut all, w, columns);
    g.put_all(all, home);
    let _shape = g.rows();
    Ok(g)
}

/// Copies these columns of `w`, as many rows as `g` has, over the first columns of `g`, run by run.
pub(crate) fn gather_columns(g: &mut EWinMut, w: &EWin, columns: &[u32])
    requires rows { g.old.rows ≤ (e_shown w.now).rows }
    requires room { length columns.now ≤ g.old.cols }
    requires field { (e_shown w.now).field ≡ g.old.field }
    requires in_cols { (s : ℕ) → s < length columns.now → slice_index columns.now s < (e_shown w.now).cols }
    ensures kept { g.new ≡ showing g.old (content g.new) }
    ensures columns { (i s : ℕ) → i < g.old.rows → s < length columns.now → at (content g.new) i s ≡ at (e_shown w.now) i (slice_index columns.now s) }
{
    let _cols = g.cols();
    let mut s = 0;
    while s < columns.len() {
        let count = run_from(columns, s);
        copy_columns(g, s as u32, w, columns[s], count as u32);
        s += count;
    }
}

/// Copies `count` columns of `w` from column `d` on, as many rows as `g` has, over those of `g` from column `c` on.
fn copy_columns(g: &mut EWinMut, c: u32, w: &EWin, d: u32, count: u32)
    requires rows { g.old.rows ≤ (e_shown w.now).rows }
    requires room { c + count ≤ g.old.cols }
    requires in_cols { d + count ≤ (e_shown w.now).cols }
    requires field { (e_shown w.now).field ≡ g.old.field }
    ensures kept { g.new ≡ showing g.old (content g.new) }
    ensures copied { (i u : ℕ) → i < g.old.rows → u < count → at (content g.new) i (c + u) ≡ at (e_shown w.now) i (d + u) }
    ensures before { (i j : ℕ) → i < g.old.rows → j < c → at (content g.new) i j ≡ at (content g.old) i j }
{
    let _rows = w.rows();
    for i in 0..g.rows() {
        g.copy_part(i, c, w, i, d, count);
    }
}

/// The matrix of `n` rows whose row at the s-th pivot is row s of `z`, and that is zero elsewhere.
pub(crate) fn placed(alloc: Global, z: &Mzed, pivots: &[u32], n: u32) -> Result<Mzed, NoMemory>
    requires rising { IsRising pivots.now }
    requires in_rows { length pivots.now ≤ z.now.rows }
    requires below { (s : ℕ) → s < length pivots.now → slice_index pivots.now s < n }
    requires few { n ≤ MOST_SIDE }
    ensures { IfOk result (IsPlaced z.now pivots.now n) }
{
    let mut x = Mzed::zeros(alloc, z.field(), n, z.cols())?;
    let (mut all, home) = x.all_mut();
    place_rows(&mut all, &z.all(), pivots);
    x.put_all(all, home);
    let _shape = x.rows();
    Ok(x)
}

/// Copies each of the first rows of `z` to the row of its pivot in a window of zeros.
fn place_rows(x: &mut EWinMut, z: &EWin, pivots: &[u32])
    requires zeros { content x.old ≡ zero_matrix x.old.field x.old.rows x.old.cols }
    requires same_cols { (e_shown z.now).cols ≡ x.old.cols }
    requires field { (e_shown z.now).field ≡ x.old.field }
    requires rising { IsRising pivots.now }
    requires in_rows { length pivots.now ≤ (e_shown z.now).rows }
    requires below { (s : ℕ) → s < length pivots.now → slice_index pivots.now s < x.old.rows }
    ensures kept { x.new ≡ showing x.old (content x.new) }
    ensures placed { IsPlaced (e_shown z.now) pivots.now x.old.rows (content x.new) }
{
    let _rows = z.rows();
    for s in 0..pivots.len() {
        x.copy_row(pivots[s], z, s as u32);
    }
    let _shape = x.rows();
}
