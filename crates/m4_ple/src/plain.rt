//! The elimination over any field, column by column.

ghost use Rattle.std.specs.Prelude.{◌≡◌, ◌≢◌, ◌⊎◌, ℕ, ◌+◌, ◌<◌, ◌≤◌, ◌^◌, length, take, slice_index, IfSome, IfNone};
ghost use Rattle.std.specs.List.{range_with_len};
ghost use Rattle.m4_model.specs.Field.{Field};
ghost use Rattle.m4_model.specs.Matrix.{Matrix, at};
ghost use Rattle.m4_model.specs.Shapes.{swaps};
ghost use Rattle.m4_mzed.specs.EWindow.{content, showing};
ghost use Rattle.m4_perm.specs.Perm.{AreSwaps};
ghost use Rattle.m4_ple.specs.Elimination.{IsEliminated};
ghost use Rattle.m4_ple.specs.Held.{HoldsPle};

use crate::clear::{ByRows, ClearBelow};
use m4_mzed::EWinMut;

/// Factors the window as P L E in its own place, row by row, and answers its rank r. It is `ple_by_columns` without tables.
pub fn ple_plain(a: &mut EWinMut, p: &mut [u32], q: &mut [u32]) -> u32
    requires exchanges { length p.old ≡ a.old.rows }
    requires pivots { (length q.old ≡ a.old.rows) ⊎ (a.old.cols ≤ length q.old) }
    ensures kept { a.new ≡ showing a.old (content a.new) }
    ensures exchanges { AreSwaps a.old.rows p.new }
    ensures all { length p.new ≡ length p.old }
    ensures stay { (i : ℕ) → result ≤ i → i < a.old.rows → slice_index p.new i ≡ i }
    ensures room { length q.new ≡ length q.old }
    ensures rank { result ≤ length q.new }
    ensures factors { HoldsPle (content a.old) (swaps a.old.rows p.new) (take result q.new) (content a.new) }
{
    ple_by_columns(a, p, q, &mut ByRows)
}

/// Factors the window as P L E in its own place, and answers its rank r. How rows are cleared below a pivot is for the last
/// argument to say.
///
/// `p` has as many entries as the window has rows, and tells P by exchanges, as LAPACK's pivot vectors do: row i and row
/// `p[i]` are exchanged for i = 0, 1, 2 and so on; from r on each stays. `q` has room for as many numbers as the lesser
/// of rows and columns; its first r are the pivot columns. L's first r columns stand below the diagonal, and row i of E
/// stands from its pivot on. It takes no memory and refuses nothing.
///
/// This is Gaussian elimination as in Albrecht, Bard and Pernet, "Efficient dense Gaussian elimination over the field
/// with two elements" (2011), section 3. Over an extension field the factor of a row is its entry times the inverse of the
/// pivot, which stays in E.
pub fn ple_by_columns<C: ClearBelow>(
    a: &mut EWinMut,
    p: &mut [u32],
    q: &mut [u32],
    with: &mut C,
) -> u32
    requires exchanges { length p.old ≡ a.old.rows }
    requires pivots { (length q.old ≡ a.old.rows) ⊎ (a.old.cols ≤ length q.old) }
    requires fits { C.Serves with.old a.old.field a.old.cols }
    ensures kept { a.new ≡ showing a.old (content a.new) }
    ensures exchanges { AreSwaps a.old.rows p.new }
    ensures all { length p.new ≡ length p.old }
    ensures stay { (i : ℕ) → result ≤ i → i < a.old.rows → slice_index p.new i ≡ i }
    ensures room { length q.new ≡ length q.old }
    ensures rank { result ≤ length q.new }
    ensures factors { HoldsPle (content a.old) (swaps a.old.rows p.new) (take result q.new) (content a.new) }
    ensures serves { (F : Field) (cols : ℕ) → C.Serves with.old F cols → C.Serves with.new F cols }
{
    let _rows = a.rows();
    number(p);
    let mut rank = 0;
    for c in 0..a.cols() {
        rank = eliminate_column(a, p, q, rank, c, with);
    }
    rank
}

/// Puts each place's number there.
pub(crate) fn number(p: &mut [u32])
    requires { length p.old < 2 ^ 32 }
    ensures { p.new ≡ range_with_len 0 (length p.old) }
{
    for i in 0..p.len() {
        p[i] = i as u32;
    }
}

/// Looks for a pivot in column `c`, from row `rank` on, and clears the column below it. Answers the new rank.
fn eliminate_column<C: ClearBelow>(
    a: &mut EWinMut,
    p: &mut [u32],
    q: &mut [u32],
    rank: u32,
    c: u32,
    with: &mut C,
) -> u32
    requires in_cols { c < a.old.cols }
    requires reached { rank ≤ c }
    requires blank { (i : ℕ) → rank ≤ i → i < a.old.rows → rank < c → at (content a.old) i rank ≡ 0 }
    requires exchanges { length p.old ≡ a.old.rows }
    requires pivots { (length q.old ≡ a.old.rows) ⊎ (a.old.cols ≤ length q.old) }
    requires fits { C.Serves with.old a.old.field a.old.cols }
    ensures kept { a.new ≡ showing a.old (content a.new) }
    ensures exchanges { length p.new ≡ length p.old }
    ensures pivots { length q.new ≡ length q.old }
    ensures eliminated { (A : Matrix) → IsEliminated A p.old q.old rank c (content a.old) → IsEliminated A p.new q.new result (c + 1) (content a.new) }
    ensures serves { (F : Field) (cols : ℕ) → C.Serves with.old F cols → C.Serves with.new F cols }
{
    let _rows = a.rows();
    let Some(row) = find_pivot(a, rank, c) else {
        return rank;
    };
    let inverse = a.field().inv(a.get(row, c));
    a.swap_rows(rank, row);
    p[rank as usize] = row;
    q[rank as usize] = c;
    with.clear_below(a, rank, c, inverse);
    rank + 1
}

/// The first row from `from` on that isn't zero in column `c`.
fn find_pivot(a: &EWinMut, from: u32, c: u32) -> Option<u32>
    requires { c < a.now.cols }
    ensures behind { IfSome result (λ r. from ≤ r) }
    ensures in_rows { IfSome result (λ r. r < a.now.rows) }
    ensures some { IfSome result (λ r. at (content a.now) r c ≢ 0) }
    ensures none { IfNone result ((i : ℕ) → from ≤ i → i < a.now.rows → at (content a.now) i c ≡ 0) }
{
    for r in from..a.rows() {
        if a.get(r, c) != 0 {
            return Some(r);
        }
    }
    None
}
