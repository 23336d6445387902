//! The reduced form and the rank of a matrix.

ghost use Rattle.std.specs.Prelude.{◌≡◌, ◌≤◌, length, IfOk, IfErr};
ghost use Rattle.m4_model.specs.Rank.{IsRank};
ghost use Rattle.m4_model.specs.Forms.{IsReduced, Reduced};
ghost use Rattle.m4_mzed.specs.ESeen.{e_shown};
ghost use Rattle.m4_solve.specs.Context.{Serves};
ghost use Rattle.m4_solve.specs.Reduction.{IsReducedAt};

use crate::room::Room;
use m4_eple::{Base, Halving, ple_by_halves};
use m4_model::NoMemory;
use m4_mzed::{EWin, Mzed};
use m4_newton::EAddMul;
use std::alloc::Global;

/// Makes of the matrix its reduced row echelon form, and answers its rank. Where memory is wanting, the matrix is as it was.
///
/// A PLE is made in place, its echelon form is kept, the rows of the pivots are divided by these, and the entries above the
/// pivots are cleared by a triangular solve, as by C.-P. Jeannerod, C. Pernet and A. Storjohann, "Rank-profile revealing
/// Gaussian elimination and the CUP matrix decomposition" (2013). It takes memory for a square matrix whose side is the lesser
/// of rows and columns, and refuses no shape.
pub fn echelon<M: EAddMul, B: Base>(
    alloc: Global,
    a: &mut Mzed,
    with: &mut Halving<M, B>,
) -> Result<u32, NoMemory>
    requires for_field { M.IsFor with.old.engine a.old.field }
    requires base_for_field { B.IsFor with.old.base a.old.field }
    requires serves { Serves (M.limits with.old.engine) with.old.cutoff a.old.rows a.old.cols }
    ensures reduced { IfOk result (λ r. IsReduced a.new a.old) }
    ensures rank { IfOk result (IsRank a.old) }
    ensures kept { IfErr result (λ _. a.new ≡ a.old) }
    ensures engine { M.limits with.new.engine ≡ M.limits with.old.engine }
    ensures still_for { M.IsFor with.new.engine a.old.field }
    ensures base_still_for { B.IsFor with.new.base a.old.field }
    ensures cutoff { with.new.cutoff ≡ with.old.cutoff }
{
    let mut room = Room::new(alloc, a.field(), a.rows(), a.cols())?;
    Ok(room.reduce(a, with))
}

/// A matrix in reduced row echelon form, and the columns of its pivots, of which it has as many as its rank.
#[derive(Drop)]
pub struct ReducedForm {
    pub matrix: Mzed,
    pub pivots: Vec<u32>,
}

impl ReducedForm {
    /// The reduced form of a matrix, in its own place.
    pub(crate) fn of_matrix<M: EAddMul, B: Base>(
        alloc: Global,
        a: Mzed,
        with: &mut Halving<M, B>,
    ) -> Result<ReducedForm, NoMemory>
        requires for_field { M.IsFor with.old.engine a.field }
        requires base_for_field { B.IsFor with.old.base a.field }
        requires serves { Serves (M.limits with.old.engine) with.old.cutoff a.rows a.cols }
        ensures reduced { IfOk result (λ form. IsReducedAt form.matrix a form.pivots.items) }
        ensures engine { M.limits with.new.engine ≡ M.limits with.old.engine }
        ensures still_for { M.IsFor with.new.engine a.field }
        ensures base_still_for { B.IsFor with.new.base a.field }
        ensures cutoff { with.new.cutoff ≡ with.old.cutoff }
    {
        let mut matrix = a;
        let mut room = Room::new(alloc, matrix.field(), matrix.rows(), matrix.cols())?;
        let rank = room.reduce(&mut matrix, with);
        let mut pivots = room.pivots;
        pivots.truncate(rank as usize);
        Ok(ReducedForm { matrix, pivots })
    }
}

/// The reduced row echelon form of a matrix of any shape, made of a copy. It refuses nothing, but memory may be wanting.
///
/// It is made as by `echelon`, and takes that memory besides. It tells the rank, the number of its pivots, and so what shape
/// the basis of the kernel has, before `kernel_of` takes memory for that basis.
pub fn reduced_form<M: EAddMul, B: Base>(
    alloc: Global,
    a: &EWin,
    with: &mut Halving<M, B>,
) -> Result<ReducedForm, NoMemory>
    requires for_field { M.IsFor with.old.engine (e_shown a.now).field }
    requires base_for_field { B.IsFor with.old.base (e_shown a.now).field }
    requires serves { Serves (M.limits with.old.engine) with.old.cutoff (e_shown a.now).rows (e_shown a.now).cols }
    ensures reduced { IfOk result (λ form. IsReducedAt form.matrix (e_shown a.now) form.pivots.items) }
    ensures form { IfOk result (λ form. Reduced form.matrix form.pivots.items) }
    ensures field { IfOk result (λ form. form.matrix.field ≡ (e_shown a.now).field) }
    ensures rank { IfOk result (λ form. IsRank (e_shown a.now) (length form.pivots.items)) }
    ensures few_rows { IfOk result (λ form. length form.pivots.items ≤ (e_shown a.now).rows) }
    ensures few_cols { IfOk result (λ form. length form.pivots.items ≤ (e_shown a.now).cols) }
    ensures engine { M.limits with.new.engine ≡ M.limits with.old.engine }
    ensures still_for { M.IsFor with.new.engine (e_shown a.now).field }
    ensures base_still_for { B.IsFor with.new.base (e_shown a.now).field }
    ensures cutoff { with.new.cutoff ≡ with.old.cutoff }
{
    let _cols = a.cols();
    let copy = copied(alloc, a)?;
    let form = ReducedForm::of_matrix(alloc, copy, with)?;
    Ok(form)
}

/// The rank of a matrix of any shape: the number of its pivots, told by a PLE of a copy. It refuses nothing, but memory may
/// be wanting.
pub fn rank<M: EAddMul, B: Base>(
    alloc: Global,
    a: &EWin,
    with: &mut Halving<M, B>,
) -> Result<u32, NoMemory>
    requires for_field { M.IsFor with.old.engine (e_shown a.now).field }
    requires base_for_field { B.IsFor with.old.base (e_shown a.now).field }
    requires serves { Serves (M.limits with.old.engine) with.old.cutoff (e_shown a.now).rows (e_shown a.now).cols }
    ensures rank { IfOk result (IsRank (e_shown a.now)) }
    ensures engine { M.limits with.new.engine ≡ M.limits with.old.engine }
    ensures still_for { M.IsFor with.new.engine (e_shown a.now).field }
    ensures base_still_for { B.IsFor with.new.base (e_shown a.now).field }
    ensures cutoff { with.new.cutoff ≡ with.old.cutoff }
{
    let mut copy = copied(alloc, a)?;
    let mut exchanges = vec![in alloc; 0u32; a.rows() as usize]?;
    let mut pivots = vec![in alloc; 0u32; a.cols() as usize]?;
    let mut row = Mzed::zeros(alloc, a.field(), 1, a.cols())?;
    let (mut all, home) = copy.all_mut();
    let (mut spare, spare_home) = row.all_mut();
    let rank = ple_by_halves(&mut all, &mut exchanges, &mut pivots, &mut spare, with);
    row.put_all(spare, spare_home);
    copy.put_all(all, home);
    Ok(rank)
}

/// A matrix of its own with what the window shows.
pub(crate) fn copied(alloc: Global, a: &EWin) -> Result<Mzed, NoMemory>
    ensures { IfOk result (λ m. m ≡ e_shown a.now) }
{
    let mut copy = Mzed::zeros(alloc, a.field(), a.rows(), a.cols())?;
    let (mut all, home) = copy.all_mut();
    all.copy_rows(a);
    copy.put_all(all, home);
    Ok(copy)
}
