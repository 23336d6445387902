//! The factors of a matrix over any field: PLE and PLUQ.

ghost use Rattle.std.specs.Prelude.{◌≡◌, ◌*◌, ◌≤◌, IfOk, length};
ghost use Rattle.m4_model.specs.Field.{width};
ghost use Rattle.m4_field.specs.Fields.{the_field};
ghost use Rattle.m4_solve.specs.Context.{Serves};
ghost use Rattle.m4_elim.specs.Elimination.{factors_over};
ghost use Rattle.m4_elim.specs.Factors.{IsPleOf, IsPluqOf};
ghost use Rattle.m4_elim.specs.FieldEngine.{multiplies_over, field_limits};

use crate::elimination::{Elimination, elimination};
use crate::how::How;
use m4_eple::{Base, Halving, ple_by_halves};
use m4_field::Field;
use m4_model::NoMemory;
use m4_mzd::MOST_SIDE;
use m4_mzed::Mzed;
use m4_newton::EAddMul;
use m4_perm::Perm;
use m4_ple::{ple_factors, pluq_factors};
use std::alloc::Global;

/// A PLE of a matrix: row `rows[i]` of the matrix is row `i` of the product of the factors.
#[derive(Drop)]
pub struct PleFactors {
    /// The order of the rows.
    pub rows: Perm,
    /// The columns of the pivots, as many as the rank.
    pub pivots: Vec<u32>,
    /// Square, with ones on its diagonal and zeros above it.
    pub l: Mzed,
    /// As large as the matrix, in row echelon form.
    pub e: Mzed,
}

/// A PLUQ of a matrix: its entry in row `rows[i]` and column `columns[j]` is entry `(i, j)` of the product of the factors.
#[derive(Drop)]
pub struct PluqFactors {
    /// The rank of the matrix.
    pub rank: u32,
    /// The order of the rows.
    pub rows: Perm,
    /// The order of the columns.
    pub columns: Perm,
    /// Square, with ones on its diagonal and zeros above it.
    pub l: Mzed,
    /// As large as the matrix, with zeros below its diagonal, and nonzero on it as far as the rank goes.
    pub u: Mzed,
}

/// What the factors of a matrix are made in.
#[derive(Drop)]
struct Workspace {
    /// Room for the exchanges of rows.
    exchanges: Vec<u32>,
    /// Room for the pivot columns, or for the exchanges of columns.
    pivots: Vec<u32>,
    /// A row as long as the matrix's.
    row: Mzed,
    with: Elimination,
}

impl Workspace {
    /// What the factors of a matrix of so many rows and columns over this field are made in.
    fn new(
        alloc: Global,
        how: How,
        field: Field,
        rows: u32,
        cols: u32,
    ) -> Result<Workspace, NoMemory>
        requires few_rows { rows ≤ MOST_SIDE }
        requires few_bits { cols * width (the_field field) ≤ MOST_SIDE }
        ensures exchanges { IfOk result (λ space. length space.exchanges.items ≡ rows) }
        ensures pivots { IfOk result (λ space. length space.pivots.items ≡ rows) }
        ensures row { IfOk result (λ space. (space.row.rows ≡ 1) × (space.row.cols ≡ cols)) }
        ensures row_field { IfOk result (λ space. space.row.field ≡ the_field field) }
        ensures for_field { IfOk result (λ space. multiplies_over space.with.engine (the_field field)) }
        ensures base_for_field { IfOk result (λ space. factors_over space.with.base (the_field field)) }
        ensures serves { IfOk result (λ space. Serves (field_limits space.with.engine) space.with.cutoff rows cols) }
    {
        Ok(Workspace {
            exchanges: vec![in alloc; 0u32; rows as usize]?,
            pivots: vec![in alloc; 0u32; rows as usize]?,
            row: Mzed::zeros(alloc, field, 1, cols)?,
            with: elimination(alloc, how, field, rows, cols)?,
        })
    }
}

/// A PLE of an m x n matrix: an order of its rows, an m x m matrix L with ones on its diagonal and zeros above it, whose rows
/// take at most 2^24 bits, and an m x n matrix E in row echelon form, whose pivots are the columns that aren't combinations of
/// those before them.
///
/// The elimination is made in the matrix's own place: Albrecht, Bard and Pernet, Efficient dense Gaussian elimination over
/// the field with two elements, 2011. It takes memory for the factors and for a word and two numbers for each row, and for a row.
pub fn ple(alloc: Global, how: How, a: Mzed) -> Result<PleFactors, NoMemory>
    requires few_bits { a.rows * width a.field ≤ MOST_SIDE }
    ensures { IfOk result (IsPleOf a) }
{
    let mut space = Workspace::new(alloc, how, a.field(), a.rows(), a.cols())?;
    Ok(ple_in_room(
        alloc,
        a,
        &mut space.exchanges,
        &mut space.pivots,
        &mut space.row,
        &mut space.with,
    )?)
}

/// A PLE of a matrix, with room for its exchanges and pivots.
fn ple_in_room<M: EAddMul, B: Base>(
    alloc: Global,
    a: Mzed,
    exchanges: &mut [u32],
    pivots: &mut [u32],
    row: &mut Mzed,
    with: &mut Halving<M, B>,
) -> Result<PleFactors, NoMemory>
    requires exchanges { length exchanges.old ≡ a.rows }
    requires pivots { length pivots.old ≡ a.rows }
    requires row { (row.old.rows ≡ 1) × (row.old.cols ≡ a.cols) }
    requires row_field { row.old.field ≡ a.field }
    requires few_bits { a.rows * width a.field ≤ MOST_SIDE }
    requires for_field { M.IsFor with.old.engine a.field }
    requires base_for_field { B.IsFor with.old.base a.field }
    requires serves { Serves (M.limits with.old.engine) with.old.cutoff a.rows a.cols }
    ensures { IfOk result (IsPleOf a) }
{
    let mut held = a;
    let (mut all, home) = held.all_mut();
    let (mut spare, spare_home) = row.all_mut();
    let rank = ple_by_halves(&mut all, exchanges, pivots, &mut spare, with);
    held.put_all(all, home);
    row.put_all(spare, spare_home);
    let pivots = &pivots[..rank as usize];
    let factors = ple_factors(alloc, &held.all(), pivots)?;
    Ok(PleFactors {
        rows: Perm::from_swaps(alloc, held.rows(), exchanges)?,
        pivots: Vec::from_slice(alloc, pivots)?,
        l: factors.l,
        e: factors.e,
    })
}

/// A PLUQ of an m x n matrix: an order of its rows and one of its columns, an m x m matrix L with ones on its diagonal and
/// zeros above it, whose rows take at most 2^24 bits, and an m x n matrix U with zeros below its diagonal, which isn't zero on
/// the diagonal as far as the rank goes.
///
/// The elimination is made in the matrix's own place, and the pivots' columns are brought to the front, as in the same
/// paper. It takes memory for the factors, for a word and two numbers for each row, for a number
/// for each column, and for a row.
pub fn pluq(alloc: Global, how: How, a: Mzed) -> Result<PluqFactors, NoMemory>
    requires few_bits { a.rows * width a.field ≤ MOST_SIDE }
    ensures { IfOk result (IsPluqOf a) }
{
    let mut space = Workspace::new(alloc, how, a.field(), a.rows(), a.cols())?;
    Ok(pluq_in_room(
        alloc,
        a,
        &mut space.exchanges,
        &mut space.pivots,
        &mut space.row,
        &mut space.with,
    )?)
}

/// A PLUQ of a matrix, with room for its exchanges of rows and of columns.
fn pluq_in_room<M: EAddMul, B: Base>(
    alloc: Global,
    a: Mzed,
    exchanges: &mut [u32],
    pivots: &mut [u32],
    row: &mut Mzed,
    with: &mut Halving<M, B>,
) -> Result<PluqFactors, NoMemory>
    requires exchanges { length exchanges.old ≡ a.rows }
    requires pivots { length pivots.old ≡ a.rows }
    requires row { (row.old.rows ≡ 1) × (row.old.cols ≡ a.cols) }
    requires row_field { row.old.field ≡ a.field }
    requires few_bits { a.rows * width a.field ≤ MOST_SIDE }
    requires for_field { M.IsFor with.old.engine a.field }
    requires base_for_field { B.IsFor with.old.base a.field }
    requires serves { Serves (M.limits with.old.engine) with.old.cutoff a.rows a.cols }
    ensures { IfOk result (IsPluqOf a) }
{
    let mut held = a;
    let (mut all, home) = held.all_mut();
    let (mut spare, spare_home) = row.all_mut();
    let rank = m4_eple::pluq(&mut all, exchanges, pivots, &mut spare, with);
    held.put_all(all, home);
    row.put_all(spare, spare_home);
    let factors = pluq_factors(alloc, &held.all(), rank)?;
    Ok(PluqFactors {
        rank,
        rows: Perm::from_swaps(alloc, held.rows(), exchanges)?,
        columns: Perm::from_swaps(alloc, held.cols(), &pivots[..rank as usize])?,
        l: factors.l,
        u: factors.e,
    })
}
