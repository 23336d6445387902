//! The factors that stand in place of a matrix, as matrices of their own.

ghost use Rattle.std.specs.Prelude.{◌≡◌, ℕ, ◌*◌, ◌<◌, ◌≤◌, length, slice_index, slice_set, IfOk};
ghost use Rattle.m4_model.specs.Field.{width};
ghost use Rattle.m4_model.specs.Matrix.{Matrix, HasShape, row, with_row, zero_matrix};
ghost use Rattle.m4_model.specs.Factors.{Stored, StoredPluq};
ghost use Rattle.m4_model.specs.Rank.{IsRising};
ghost use Rattle.m4_mzd.specs.Parts.{part, with_part};
ghost use Rattle.m4_mzed.specs.EWindow.{content, showing};
ghost use Rattle.m4_mzed.specs.ESeen.{e_shown};
ghost use Rattle.m4_ple.specs.Elimination.{lower_part};
ghost use Rattle.m4_ple.specs.Parts.{echelon_part, triangle_part};

use m4_model::NoMemory;
use m4_mzd::MOST_SIDE;
use m4_mzed::{EWin, EWinMut, Mzed};
use std::alloc::Global;

/// The factors of a matrix: L, and E of a PLE or U of a PLUQ.
#[derive(Drop)]
pub struct Factors {
    /// Square, with ones on its diagonal and zeros above it.
    pub l: Mzed,
    /// As large as the matrix.
    pub e: Mzed,
}

/// The factors L and E that a window over any field holds after a PLE with these pivots. L is square, with as many rows as
/// the window, and E is as large as the window. So a row of L is to have at most 2^24 bits, as each over GF(2) has. It
/// refuses nothing, but memory may be wanting.
pub fn ple_factors(alloc: Global, a: &EWin, pivots: &[u32]) -> Result<Factors, NoMemory>
    requires few_bits { (e_shown a.now).rows * width (e_shown a.now).field ≤ MOST_SIDE }
    requires rising { IsRising pivots.now }
    requires in_cols { (k : ℕ) → k < length pivots.now → slice_index pivots.now k < (e_shown a.now).cols }
    requires in_rows { length pivots.now ≤ (e_shown a.now).rows }
    ensures l_size { IfOk result (λ f. (f.l.rows ≡ (e_shown a.now).rows) × (f.l.cols ≡ (e_shown a.now).rows)) }
    ensures e_size { IfOk result (λ f. (f.e.rows ≡ (e_shown a.now).rows) × (f.e.cols ≡ (e_shown a.now).cols)) }
    ensures l { IfOk result (λ f. (L E : Matrix) → HasShape (e_shown a.now).field (e_shown a.now).rows (e_shown a.now).rows L
        → HasShape (e_shown a.now).field (e_shown a.now).rows (e_shown a.now).cols E → Stored (e_shown a.now) pivots.now L E → f.l ≡ L) }
    ensures e { IfOk result (λ f. (L E : Matrix) → HasShape (e_shown a.now).field (e_shown a.now).rows (e_shown a.now).rows L
        → HasShape (e_shown a.now).field (e_shown a.now).rows (e_shown a.now).cols E → Stored (e_shown a.now) pivots.now L E → f.e ≡ E) }
{
    let _cols = a.cols();
    let l = lower_factor(alloc, a, pivots.len() as u32)?;
    let e = echelon_factor(alloc, a, pivots)?;
    Ok(Factors { l, e })
}

/// The factors L and U that a window over any field holds after a PLUQ of rank `r`. L is square, with as many rows as the
/// window, and U is as large as the window. So a row of L is to have at most 2^24 bits, as each over GF(2) has. It refuses
/// nothing, but memory may be wanting.
pub fn pluq_factors(alloc: Global, a: &EWin, r: u32) -> Result<Factors, NoMemory>
    requires few_bits { (e_shown a.now).rows * width (e_shown a.now).field ≤ MOST_SIDE }
    requires in_rows { r ≤ (e_shown a.now).rows }
    requires in_cols { r ≤ (e_shown a.now).cols }
    ensures l_size { IfOk result (λ f. (f.l.rows ≡ (e_shown a.now).rows) × (f.l.cols ≡ (e_shown a.now).rows)) }
    ensures u_size { IfOk result (λ f. (f.e.rows ≡ (e_shown a.now).rows) × (f.e.cols ≡ (e_shown a.now).cols)) }
    ensures l { IfOk result (λ f. (L U : Matrix) → HasShape (e_shown a.now).field (e_shown a.now).rows (e_shown a.now).rows L
        → HasShape (e_shown a.now).field (e_shown a.now).rows (e_shown a.now).cols U → StoredPluq (e_shown a.now) r L U → f.l ≡ L) }
    ensures u { IfOk result (λ f. (L U : Matrix) → HasShape (e_shown a.now).field (e_shown a.now).rows (e_shown a.now).rows L
        → HasShape (e_shown a.now).field (e_shown a.now).rows (e_shown a.now).cols U → StoredPluq (e_shown a.now) r L U → f.e ≡ U) }
{
    let l = lower_factor(alloc, a, r)?;
    let e = upper_factor(alloc, a, r)?;
    Ok(Factors { l, e })
}

/// The square matrix with ones on its diagonal, and below it the first `rank` columns of `a`.
fn lower_factor(alloc: Global, a: &EWin, rank: u32) -> Result<Mzed, NoMemory>
    requires few_bits { (e_shown a.now).rows * width (e_shown a.now).field ≤ MOST_SIDE }
    requires in_cols { rank ≤ (e_shown a.now).cols }
    ensures { IfOk result (λ l. l ≡ lower_part (e_shown a.now).field (e_shown a.now).rows rank (e_shown a.now)) }
{
    let _cols = a.cols();
    let mut l = Mzed::zeros(alloc, a.field(), a.rows(), a.rows())?;
    let (mut all, home) = l.all_mut();
    copy_lower(&mut all, a, rank);
    l.put_all(all, home);
    Ok(l)
}

/// Puts into zeros ones on the diagonal, and below it the first `rank` columns of `a`.
fn copy_lower(all: &mut EWinMut, a: &EWin, rank: u32)
    requires zeros { content all.old ≡ zero_matrix (e_shown a.now).field (e_shown a.now).rows (e_shown a.now).rows }
    requires in_cols { rank ≤ (e_shown a.now).cols }
    ensures { all.new ≡ showing all.old (lower_part (e_shown a.now).field (e_shown a.now).rows rank (e_shown a.now)) }
{
    let _cols = a.cols();
    let _rows = all.rows();
    for i in 0..a.rows() {
        copy_lower_row(all, i, a, i.min(rank));
    }
}

/// Copies the first `count` entries of row `i`, and puts a one on the diagonal.
fn copy_lower_row(all: &mut EWinMut, i: u32, a: &EWin, count: u32)
    requires in_rows { i < all.old.rows }
    requires in_cols { i < all.old.cols }
    requires before { count ≤ i }
    requires in_from { i < (e_shown a.now).rows }
    requires in_from_cols { count ≤ (e_shown a.now).cols }
    requires same_field { (e_shown a.now).field ≡ all.old.field }
    ensures { all.new ≡ showing all.old (with_row (content all.old) i (slice_set (with_part 0 (part 0 count (row (e_shown a.now) i)) (row (content all.old) i)) i 1)) }
{
    let _rows = all.rows();
    all.copy_part(i, 0, a, i, 0, count);
    all.put(i, i, 1);
}

/// What stands in row `i` from its pivot on, and zeros elsewhere.
fn echelon_factor(alloc: Global, a: &EWin, pivots: &[u32]) -> Result<Mzed, NoMemory>
    requires in_cols { (k : ℕ) → k < length pivots.now → slice_index pivots.now k < (e_shown a.now).cols }
    requires in_rows { length pivots.now ≤ (e_shown a.now).rows }
    ensures { IfOk result (λ e. e ≡ echelon_part pivots.now (e_shown a.now)) }
{
    let _cols = a.cols();
    let mut e = Mzed::zeros(alloc, a.field(), a.rows(), a.cols())?;
    let (mut all, home) = e.all_mut();
    copy_tails(&mut all, a, pivots);
    e.put_all(all, home);
    Ok(e)
}

/// Puts into zeros what stands in row `i` of `a` from its pivot on.
fn copy_tails(all: &mut EWinMut, a: &EWin, pivots: &[u32])
    requires zeros { content all.old ≡ zero_matrix (e_shown a.now).field (e_shown a.now).rows (e_shown a.now).cols }
    requires in_cols { (k : ℕ) → k < length pivots.now → slice_index pivots.now k < (e_shown a.now).cols }
    requires in_rows { length pivots.now ≤ (e_shown a.now).rows }
    ensures { all.new ≡ showing all.old (echelon_part pivots.now (e_shown a.now)) }
{
    let _rows = all.rows();
    let cols = a.cols();
    for i in 0..pivots.len() {
        let c = pivots[i];
        all.copy_part(i as u32, c, a, i as u32, c, cols - c);
    }
}

/// What stands in the first `r` rows from the diagonal on, and zeros elsewhere.
fn upper_factor(alloc: Global, a: &EWin, r: u32) -> Result<Mzed, NoMemory>
    requires in_rows { r ≤ (e_shown a.now).rows }
    requires in_cols { r ≤ (e_shown a.now).cols }
    ensures { IfOk result (λ u. u ≡ triangle_part r (e_shown a.now)) }
{
    let _cols = a.cols();
    let mut u = Mzed::zeros(alloc, a.field(), a.rows(), a.cols())?;
    let (mut all, home) = u.all_mut();
    copy_triangle(&mut all, a, r);
    u.put_all(all, home);
    Ok(u)
}

/// Puts into zeros what stands in the first `r` rows of `a` from the diagonal on.
fn copy_triangle(all: &mut EWinMut, a: &EWin, r: u32)
    requires zeros { content all.old ≡ zero_matrix (e_shown a.now).field (e_shown a.now).rows (e_shown a.now).cols }
    requires in_rows { r ≤ (e_shown a.now).rows }
    requires in_cols { r ≤ (e_shown a.now).cols }
    ensures { all.new ≡ showing all.old (triangle_part r (e_shown a.now)) }
{
    let _rows = all.rows();
    let cols = a.cols();
    for i in 0..r {
        all.copy_part(i, i, a, i, i, cols - i);
    }
}
