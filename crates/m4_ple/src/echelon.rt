//! The echelon form that stands in place of a matrix after its PLE.

ghost use Rattle.std.specs.Prelude.{◌≡◌, ℕ, ◌<◌, ◌≤◌, length, slice_index, replicate, drop, ◌++◌};
ghost use Rattle.m4_model.specs.Matrix.{row, with_row};
ghost use Rattle.m4_mzed.specs.EWindow.{content, showing};
ghost use Rattle.m4_ple.specs.Parts.{echelon_part};

use m4_mzed::EWinMut;

/// Makes of a PLE in place, over any field, its echelon form E: row i keeps what stands from its pivot on, and the rows
/// past the rank become zero. `spare` is a row of as many columns over the same field, which is written over.
pub fn keep_echelon(a: &mut EWinMut, pivots: &[u32], spare: &mut EWinMut)
    requires in_cols { (k : ℕ) → k < length pivots.now → slice_index pivots.now k < a.old.cols }
    requires one_row { spare.old.rows ≡ 1 }
    requires same_cols { spare.old.cols ≡ a.old.cols }
    requires same_field { spare.old.field ≡ a.old.field }
    ensures echelon { a.new ≡ showing a.old (echelon_part pivots.now (content a.old)) }
    ensures spare { spare.new ≡ showing spare.old (content spare.new) }
{
    for i in 0..a.rows() {
        keep_row(a, i, pivots, spare);
    }
}

/// Row `i` keeps what stands from its pivot on, and is cleared where it has none.
fn keep_row(a: &mut EWinMut, i: u32, pivots: &[u32], spare: &mut EWinMut)
    requires in_rows { i < a.old.rows }
    requires in_cols { (k : ℕ) → k < length pivots.now → slice_index pivots.now k < a.old.cols }
    requires one_row { spare.old.rows ≡ 1 }
    requires same_cols { spare.old.cols ≡ a.old.cols }
    requires same_field { spare.old.field ≡ a.old.field }
    ensures row { a.new ≡ showing a.old (with_row (content a.old) i (row (echelon_part pivots.now (content a.old)) i)) }
    ensures spare { spare.new ≡ showing spare.old (content spare.new) }
{
    let _rows = a.rows();
    if (i as usize) < pivots.len() {
        keep_tail(a, i, pivots[i as usize], spare);
    } else {
        a.clear_row(i);
    }
}

/// Clears the first `c` entries of row `i`.
fn keep_tail(a: &mut EWinMut, i: u32, c: u32, spare: &mut EWinMut)
    requires in_rows { i < a.old.rows }
    requires in_cols { c ≤ a.old.cols }
    requires one_row { spare.old.rows ≡ 1 }
    requires same_cols { spare.old.cols ≡ a.old.cols }
    requires same_field { spare.old.field ≡ a.old.field }
    ensures row { a.new ≡ showing a.old (with_row (content a.old) i (replicate c 0 ++ drop c (row (content a.old) i))) }
    ensures spare { spare.new ≡ showing spare.old (content spare.new) }
{
    let _rows = a.rows();
    let _spare = spare.rows();
    spare.clear_row(0);
    a.copy_part(i, 0, &spare.see(), 0, 0, c);
}
