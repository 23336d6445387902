//! The exchange of columns that moves the pivots of a PLE in place to the front.

ghost use Rattle.std.specs.Prelude.{◌≡◌, ℕ, ◌<◌, ◌≤◌, length, slice_index};
ghost use Rattle.std.specs.List.{swap};
ghost use Rattle.m4_model.specs.Matrix.{row, with_row};
ghost use Rattle.m4_mzed.specs.EWindow.{content, showing};
ghost use Rattle.m4_ple.specs.Columns.{exchanged_row, with_exchanged};

use m4_mzed::EWinMut;

/// Exchanges, for k = 0, 1, 2 and so on in turn, the entries in columns k and `pivots[k]` of the rows 0 to k.
pub fn exchange_columns(a: &mut EWinMut, pivots: &[u32])
    requires in_rows { length pivots.now ≤ a.old.rows }
    requires room { length pivots.now ≤ a.old.cols }
    requires in_cols { (k : ℕ) → k < length pivots.now → slice_index pivots.now k < a.old.cols }
    ensures { a.new ≡ showing a.old (with_exchanged pivots.now (length pivots.now) (content a.old)) }
{
    let _rows = a.rows();
    for i in 0..pivots.len() {
        exchange_in_row(a, i as u32, pivots);
    }
}

/// Exchanges in row `i` the entries in columns k and `pivots[k]`, for k from `i` on in turn.
fn exchange_in_row(a: &mut EWinMut, i: u32, pivots: &[u32])
    requires in_rows { i < a.old.rows }
    requires room { length pivots.now ≤ a.old.cols }
    requires in_cols { (k : ℕ) → k < length pivots.now → slice_index pivots.now k < a.old.cols }
    ensures { a.new ≡ showing a.old (with_row (content a.old) i (exchanged_row pivots.now (content a.old) i)) }
{
    let _rows = a.rows();
    for k in i as usize..pivots.len() {
        swap_entries(a, i, k as u32, pivots[k]);
    }
}

/// Exchanges the entries in columns `i` and `j` of row `r`.
fn swap_entries(a: &mut EWinMut, r: u32, i: u32, j: u32)
    requires in_rows { r < a.old.rows }
    requires first { i < a.old.cols }
    requires second { j < a.old.cols }
    ensures { a.new ≡ showing a.old (with_row (content a.old) r (swap (row (content a.old) r) i j)) }
{
    let _rows = a.rows();
    let first = a.get(r, i);
    let second = a.get(r, j);
    a.put(r, i, second);
    a.put(r, j, first);
}
