//! What eliminations answer, over every field: the rank, the reduced form, inverses, solutions and the kernel.

ghost use Rattle.std.specs.Prelude.{◌≡◌, ◌+◌, ◌≤◌, IfOk, length};
ghost use Rattle.m4_model.specs.Forms.{IsReduced, IsKernel, Reduced};
ghost use Rattle.m4_model.specs.Rank.{IsRank};
ghost use Rattle.m4_solve.specs.Reduction.{IsReducedAt};
ghost use Rattle.m4_elim.specs.Answers.{TellsInverse, TellsSolution};

use crate::elimination::elimination;
use crate::how::How;
use m4_model::NoMemory;
use m4_mzed::Mzed;
use m4_solve::{Inverse, ReducedForm, Solution, echelon, invert, solve};
use std::alloc::Global;

/// The rank of a matrix of any shape: how many of its columns aren't combinations of those before them.
///
/// It takes memory for a copy, of which a PLE is made, for a word and a number for each row, for a number for each column,
/// and for a row. Over an extension field there is a table of the multiples of 64 columns of a row besides.
pub fn rank(alloc: Global, how: How, a: &Mzed) -> Result<u32, NoMemory>
    ensures { IfOk result (IsRank a.now) }
{
    let mut with = elimination(alloc, how, a.field(), a.rows(), a.cols())?;
    m4_solve::rank(alloc, &a.all(), &mut with)
}

/// The reduced row echelon form of a matrix of any shape, in its own place. There is one.
///
/// It takes memory for a row, for a word and a number for each row, for a number for each pivot, and for a square matrix whose side
/// is the lesser of rows and columns. A PLE is made, its echelon form is kept, the row of each pivot is scaled, and the entries
/// above the pivots are cleared.
pub fn reduced_form(alloc: Global, how: How, a: Mzed) -> Result<Mzed, NoMemory>
    ensures { IfOk result (λ form. IsReduced form a) }
{
    let mut form = a;
    let mut with = elimination(alloc, how, form.field(), form.rows(), form.cols())?;
    echelon(alloc, &mut form, &mut with)?;
    Ok(form)
}

/// The reduced row echelon form of a matrix of any shape with the columns of its pivots, made of a copy. It tells the rank, and
/// so how many rows the basis of the kernel has, before `kernel_of` takes memory for that basis.
///
/// It takes memory for a copy, and that of `reduced_form`.
pub fn pivot_form(alloc: Global, how: How, a: &Mzed) -> Result<ReducedForm, NoMemory>
    ensures reduced { IfOk result (λ form. IsReducedAt form.matrix a.now form.pivots.items) }
    ensures form { IfOk result (λ form. Reduced form.matrix form.pivots.items) }
    ensures rank { IfOk result (λ form. IsRank a.now (length form.pivots.items)) }
    ensures few { IfOk result (λ form. length form.pivots.items ≤ a.now.cols) }
{
    let mut with = elimination(alloc, how, a.field(), a.rows(), a.cols())?;
    let form = m4_solve::reduced_form(alloc, &a.all(), &mut with)?;
    Ok(form)
}

/// The inverse of a square matrix, or `None` where there is none: then the matrix takes a column that isn't zero to zero.
///
/// It takes memory for the inverse, for a copy of the matrix, of which a PLE is made, for a number for each row and each
/// column, and for a row. The two triangles are solved over the identity, in the place of the inverse.
pub fn inverse(alloc: Global, how: How, a: &Mzed) -> Result<Option<Mzed>, NoMemory>
    requires square { a.now.cols ≡ a.now.rows }
    ensures { IfOk result (TellsInverse a.now) }
{
    let mut with = elimination(alloc, how, a.field(), a.rows(), a.cols())?;
    match invert(alloc, &a.all(), &mut with)? {
        Inverse::Is(inverse) => Ok(Some(inverse)),
        Inverse::Singular => Ok(None),
    }
}

/// The solution X of A X = B, for each column of an m x n matrix B over the field of A, or `None` where there is none. A is an
/// m x l matrix, and X is l x n. Of all solutions it is the one whose rows at the free columns of A are zero.
///
/// It takes memory for the solution, for a copy of each matrix, for a number for each row and each column of A, and for a
/// row; and where the r pivots aren't A's first columns for an r x r matrix. A PLE is made of A, its L is solved over the
/// copy of B, what remains past the rank is tested for zero, and the pivot columns of E are solved.
pub fn solution(alloc: Global, how: How, a: &Mzed, b: &Mzed) -> Result<Option<Mzed>, NoMemory>
    requires same_field { b.now.field ≡ a.now.field }
    requires same_rows { b.now.rows ≡ a.now.rows }
    ensures { IfOk result (TellsSolution a.now b.now) }
{
    let mut with = elimination(alloc, how, a.field(), a.rows(), a.cols().max(b.cols()))?;
    match solve(alloc, &a.all(), &b.all(), &mut with)? {
        Solution::Is(solution) => Ok(Some(solution)),
        Solution::NoSolution => Ok(None),
    }
}

/// The basis of the kernel of an m x n matrix of rank r: n - r rows of n entries, each of which the matrix takes to zero, and
/// at the free columns of the matrix they are the identity. There is one such basis.
///
/// It takes memory for the basis, and for a copy of the matrix, of whose reduced form it is read off.
pub fn kernel(alloc: Global, how: How, a: &Mzed) -> Result<Mzed, NoMemory>
    ensures { IfOk result (λ basis. IsKernel basis a.now) }
{
    let mut with = elimination(alloc, how, a.field(), a.rows(), a.cols())?;
    m4_solve::kernel(alloc, &a.all(), &mut with)
}
