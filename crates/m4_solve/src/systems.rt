//! Systems of linear equations, and inverses.

ghost use Rattle.std.specs.Prelude.{◌≡◌, ◌≢◌, ℕ, ◌<◌, ◌≤◌, IsTrue, false, length, max, IfOk};
ghost use Rattle.m4_model.specs.Matrix.{at, identity};
ghost use Rattle.m4_mzed.specs.ESeen.{e_shown};
ghost use Rattle.m4_solve.specs.Answers.{TellsInverse, TellsSolution};
ghost use Rattle.m4_solve.specs.Context.{Serves};
ghost use Rattle.m4_solve.specs.Equations.{IsZeroFrom};

use crate::answers::{Inverse, Solution};
use crate::clear::set_units;
use crate::factored::Factored;
use crate::forms::copied;
use crate::gather::placed;
use crate::zeros::is_zero_row;
use m4_eple::{Base, Halving};
use m4_model::NoMemory;
use m4_mzed::{EWin, Mzed};
use m4_newton::EAddMul;
use std::alloc::Global;

/// A solution X of A X = B, for each column of `b`, or that there is none.
///
/// `a` and `b` are over the same field, GF(2) or GF(2^e), and have as many rows. Of all solutions it is the one whose rows at
/// the free columns of A are zero. A is factored as P L E, L is solved over the rows of B, and what is left past the rank must
/// be zero; then E's pivot columns are solved, and their rows are put at the pivots. It takes memory for a copy of each matrix,
/// for an r x r matrix where the r pivots aren't the first columns of A, and for the answer. What is given to work with serves
/// for A and for B.
pub fn solve<M: EAddMul, B: Base>(
    alloc: Global,
    a: &EWin,
    b: &EWin,
    with: &mut Halving<M, B>,
) -> Result<Solution, NoMemory>
    requires same_rows { (e_shown b.now).rows ≡ (e_shown a.now).rows }
    requires same_field { (e_shown b.now).field ≡ (e_shown a.now).field }
    requires for_field { M.IsFor with.old.engine (e_shown a.now).field }
    requires base_for_field { B.IsFor with.old.base (e_shown a.now).field }
    requires serves { Serves (M.limits with.old.engine) with.old.cutoff (e_shown a.now).rows (max (e_shown a.now).cols (e_shown b.now).cols) }
    ensures solution { IfOk result (TellsSolution (e_shown a.now) (e_shown b.now)) }
    ensures engine { M.limits with.new.engine ≡ M.limits with.old.engine }
    ensures still_for { M.IsFor with.new.engine (e_shown a.now).field }
    ensures base_still_for { B.IsFor with.new.base (e_shown a.now).field }
    ensures cutoff { with.new.cutoff ≡ with.old.cutoff }
{
    let (_rows, _cols) = (a.rows(), b.cols());
    let copy = copied(alloc, a)?;
    let mut factored = Factored::new(alloc, copy, with)?;
    let mut y = copied(alloc, b)?;
    factored.bring_up(&mut y, with);
    if !is_zero_from(&y, factored.pivots.len() as u32) {
        return Ok(Solution::NoSolution);
    }
    factored.solve_pivots(alloc, &mut y, with)?;
    let x = placed(alloc, &y, factored.pivots.as_slice(), a.cols())?;
    Ok(Solution::Is(x))
}

/// The inverse of a square matrix over GF(2) or GF(2^e), or that it is singular.
///
/// A is factored as P L E, and is singular where its rank is less than its rows. Else E is a triangle, and L and E are solved
/// over the identity, whose rows are exchanged as A's were. It takes memory for a copy of the matrix and for the answer. What
/// is given to work with serves for the matrix.
pub fn invert<M: EAddMul, B: Base>(
    alloc: Global,
    a: &EWin,
    with: &mut Halving<M, B>,
) -> Result<Inverse, NoMemory>
    requires square { (e_shown a.now).cols ≡ (e_shown a.now).rows }
    requires for_field { M.IsFor with.old.engine (e_shown a.now).field }
    requires base_for_field { B.IsFor with.old.base (e_shown a.now).field }
    requires serves { Serves (M.limits with.old.engine) with.old.cutoff (e_shown a.now).rows (e_shown a.now).cols }
    ensures inverse { IfOk result (TellsInverse (e_shown a.now)) }
    ensures engine { M.limits with.new.engine ≡ M.limits with.old.engine }
    ensures still_for { M.IsFor with.new.engine (e_shown a.now).field }
    ensures base_still_for { B.IsFor with.new.base (e_shown a.now).field }
    ensures cutoff { with.new.cutoff ≡ with.old.cutoff }
{
    let n = a.cols();
    let copy = copied(alloc, a)?;
    let mut factored = Factored::new(alloc, copy, with)?;
    if factored.pivots.len() < n as usize {
        return Ok(Inverse::Singular);
    }
    let mut x = identity_for(alloc, a)?;
    factored.bring_up(&mut x, with);
    factored.solve_pivots(alloc, &mut x, with)?;
    Ok(Inverse::Is(x))
}

/// The identity of a square matrix's shape, over its field.
fn identity_for(alloc: Global, a: &EWin) -> Result<Mzed, NoMemory>
    requires square { (e_shown a.now).cols ≡ (e_shown a.now).rows }
    ensures { IfOk result (λ m. m ≡ identity (e_shown a.now).field (e_shown a.now).rows) }
{
    let mut one = Mzed::zeros(alloc, a.field(), a.rows(), a.cols())?;
    let (mut all, home) = one.all_mut();
    set_units(&mut all);
    one.put_all(all, home);
    let _shape = one.rows();
    Ok(one)
}

/// Whether every entry from row `r` on is zero.
fn is_zero_from(y: &Mzed, r: u32) -> bool
    ensures zero { IsTrue result → IsZeroFrom r y.now }
    ensures some { result ≡ false → (i : ℕ) × (j : ℕ) × (r ≤ i) × (i < y.now.rows) × (j < y.now.cols) × (at y.now i j ≢ 0) }
{
    for i in r..y.rows() {
        if !is_zero_row(&y.all(), i) {
            return false;
        }
    }
    true
}
