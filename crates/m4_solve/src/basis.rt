//! The kernel of a matrix: a basis of what it takes to zero.

ghost use Rattle.std.specs.Prelude.{◌≡◌, ◌≢◌, ℕ, ◌+◌, ◌<◌, ◌≤◌, length, slice_index, IfOk};
ghost use Rattle.m4_model.specs.Matrix.{Matrix, at};
ghost use Rattle.m4_model.specs.Shapes.{transposed};
ghost use Rattle.m4_model.specs.Rank.{IsRising};
ghost use Rattle.m4_model.specs.Forms.{Reduced, IsKernel};
ghost use Rattle.m4_mzed.specs.EWindow.{content, showing};
ghost use Rattle.m4_mzed.specs.ESeen.{e_shown};
ghost use Rattle.m4_solve.specs.Context.{Serves};
ghost use Rattle.m4_solve.specs.Reduction.{IsReducedAt};
ghost use Rattle.m4_solve.specs.Kernel.{AreOthers, IsKernelBasis, AreFilledTo};

use crate::forms::{ReducedForm, reduced_form};
use crate::runs::run_from;
use m4_eple::{Base, Halving};
use m4_eshape::etranspose;
use m4_model::NoMemory;
use m4_mzed::{EWin, EWinMut, Mzed};
use m4_newton::EAddMul;
use std::alloc::Global;

/// A basis of the kernel of a matrix of any shape: as many rows as it has free columns, and the identity on these. It refuses
/// nothing, but memory may be wanting.
///
/// It is read off the reduced form of the matrix.
pub fn kernel<M: EAddMul, B: Base>(
    alloc: Global,
    a: &EWin,
    with: &mut Halving<M, B>,
) -> Result<Mzed, NoMemory>
    requires for_field { M.IsFor with.old.engine (e_shown a.now).field }
    requires base_for_field { B.IsFor with.old.base (e_shown a.now).field }
    requires serves { Serves (M.limits with.old.engine) with.old.cutoff (e_shown a.now).rows (e_shown a.now).cols }
    ensures kernel { IfOk result (λ k. IsKernel k (e_shown a.now)) }
    ensures field { IfOk result (λ k. k.field ≡ (e_shown a.now).field) }
    ensures engine { M.limits with.new.engine ≡ M.limits with.old.engine }
    ensures still_for { M.IsFor with.new.engine (e_shown a.now).field }
    ensures base_still_for { B.IsFor with.new.base (e_shown a.now).field }
    ensures cutoff { with.new.cutoff ≡ with.old.cutoff }
{
    let form = reduced_form(alloc, a, with)?;
    let basis = kernel_of(alloc, &form)?;
    Ok(basis)
}

/// The basis of the kernel of each matrix that has this reduced form: a row for each column that is no pivot. It refuses
/// nothing, but memory may be wanting.
///
/// The row of a free column is read off that column: its entries go to the pivots, with no change of sign, since the field has
/// characteristic 2. So the rows of the form that have pivots are transposed, which takes memory besides, and rows of that are
/// copied by runs of pivots that stand side by side.
pub fn kernel_of(alloc: Global, form: &ReducedForm) -> Result<Mzed, NoMemory>
    requires form { Reduced form.now.matrix form.now.pivots.items }
    ensures kernel { IfOk result (λ k. (A : Matrix) → IsReducedAt form.now.matrix A form.now.pivots.items → IsKernel k A) }
    ensures rows { IfOk result (λ k. k.rows + length form.now.pivots.items ≡ form.now.matrix.cols) }
    ensures cols { IfOk result (λ k. k.cols ≡ form.now.matrix.cols) }
    ensures field { IfOk result (λ k. k.field ≡ form.now.matrix.field) }
{
    let pivots = form.pivots.as_slice();
    let free = others_below(alloc, pivots, form.matrix.cols())?;
    let basis = basis_for(alloc, &form.matrix, pivots, &free)?;
    Ok(basis)
}

/// The numbers below `n` that aren't among these rising ones.
fn others_below(alloc: Global, rising: &[u32], n: u32) -> Result<Vec<u32>, NoMemory>
    requires { IsRising rising.now }
    ensures { IfOk result (λ others. AreOthers n rising.now others.items) }
{
    let mut others = Vec::new(alloc);
    let mut next = 0;
    for j in 0..n {
        if next < rising.len() && rising[next] == j {
            next += 1;
        } else {
            others.push(j)?;
        }
    }
    Ok(others)
}

/// The basis that belongs to these free columns.
fn basis_for(alloc: Global, r: &Mzed, pivots: &[u32], free: &[u32]) -> Result<Mzed, NoMemory>
    requires rising { IsRising pivots.now }
    requires in_rows { length pivots.now ≤ r.now.rows }
    requires in_cols { (s : ℕ) → s < length pivots.now → slice_index pivots.now s < r.now.cols }
    requires free { AreOthers r.now.cols pivots.now free.now }
    ensures { IfOk result (IsKernelBasis r.now pivots.now free.now) }
{
    let cols = r.cols();
    let (top, _) = r.all().split_rows(pivots.len() as u32);
    let _rows_of_top = top.rows();
    let turned = etranspose(alloc, &top)?;
    let mut k = Mzed::zeros(alloc, r.field(), free.len() as u32, cols)?;
    let (mut all, home) = k.all_mut();
    fill_rows(&mut all, &turned.all(), pivots, free);
    k.put_all(all, home);
    let _shape = k.rows();
    Ok(k)
}

/// Fills the rows, which are zero, for the free columns, of which each is a row of `turned`: 1 in its own column, and at the
/// pivots the entries of that row, run by run.
fn fill_rows(k: &mut EWinMut, turned: &EWin, pivots: &[u32], free: &[u32])
    requires rows { k.old.rows ≡ length free.now }
    requires cols { k.old.cols ≡ (e_shown turned.now).rows }
    requires zeros { (i j : ℕ) → i < k.old.rows → j < k.old.cols → at (content k.old) i j ≡ 0 }
    requires rising { IsRising pivots.now }
    requires same_field { (e_shown turned.now).field ≡ k.old.field }
    requires in_rows { length pivots.now ≤ (e_shown turned.now).cols }
    requires in_cols { (s : ℕ) → s < length pivots.now → slice_index pivots.now s < (e_shown turned.now).rows }
    requires free { AreOthers (e_shown turned.now).rows pivots.now free.now }
    ensures kept { k.new ≡ showing k.old (content k.new) }
    ensures filled { AreFilledTo (transposed (e_shown turned.now)) pivots.now free.now (length pivots.now) (content k.new) }
{
    let _turned = turned.rows();
    put_ones(k, free);
    let mut s = 0;
    while s < pivots.len() {
        let count = run_from(pivots, s);
        copy_run(k, pivots[s], turned, free, s as u32, count as u32);
        s += count;
    }
}

/// Each row `t`, which is zero, becomes 1 in column `free[t]`.
fn put_ones(k: &mut EWinMut, free: &[u32])
    requires rows { k.old.rows ≡ length free.now }
    requires in_cols { (t : ℕ) → t < length free.now → slice_index free.now t < k.old.cols }
    requires zeros { (i j : ℕ) → i < k.old.rows → j < k.old.cols → at (content k.old) i j ≡ 0 }
    ensures kept { k.new ≡ showing k.old (content k.new) }
    ensures ones { (t : ℕ) → t < length free.now → at (content k.new) t (slice_index free.now t) ≡ 1 }
    ensures zeros { (t j : ℕ) → t < length free.now → j < k.old.cols → j ≢ slice_index free.now t → at (content k.new) t j ≡ 0 }
{
    let _rows = k.rows();
    for t in 0..free.len() {
        k.put(t as u32, free[t], 1);
    }
}

/// Copies over each row `t`, from column `c` on, `count` entries of row `free[t]` of `turned`, from column `d` on.
fn copy_run(k: &mut EWinMut, c: u32, turned: &EWin, free: &[u32], d: u32, count: u32)
    requires rows { k.old.rows ≡ length free.now }
    requires in_cols { c + count ≤ k.old.cols }
    requires in_turned { (t : ℕ) → t < length free.now → slice_index free.now t < (e_shown turned.now).rows }
    requires in_turned_cols { d + count ≤ (e_shown turned.now).cols }
    requires same_field { (e_shown turned.now).field ≡ k.old.field }
    ensures kept { k.new ≡ showing k.old (content k.new) }
    ensures copied { (t u : ℕ) → t < length free.now → u < count → at (content k.new) t (c + u) ≡ at (e_shown turned.now) (slice_index free.now t) (d + u) }
    ensures others { (t j : ℕ) → t < length free.now → ((u : ℕ) → u < count → c + u ≢ j) → at (content k.new) t j ≡ at (content k.old) t j }
{
    let _turned = turned.rows();
    let _rows = k.rows();
    for t in 0..free.len() {
        k.copy_part(t as u32, c, turned, free[t], d, count);
    }
}
