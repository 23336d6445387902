//! A triangle on the left, row by row: each row of the window that is known is taken out of the others.

ghost use Rattle.std.specs.Prelude.{◌≡◌, ◌+◌, ◌<◌, ◌≤◌, bit_xor};
ghost use Rattle.m4_model.specs.Field.{mul};
ghost use Rattle.m4_model.specs.Matrix.{at, matrix_of};
ghost use Rattle.m4_mzed.specs.EWindow.{content, showing};
ghost use Rattle.m4_mzed.specs.ESeen.{e_shown};
ghost use Rattle.m4_trsm.specs.Elimination.{without_row};

use crate::side::Side;
use m4_mzed::{EWin, EWinMut};

/// Takes row `i` out of the rows below it, or out of those above it.
pub fn take_row_out(side: Side, t: &EWin, b: &mut EWinMut, i: u32)
    requires square { (e_shown t.now).rows ≡ (e_shown t.now).cols }
    requires fits { (e_shown t.now).rows ≡ b.old.rows }
    requires field { (e_shown t.now).field ≡ b.old.field }
    requires in_rows { i < b.old.rows }
    ensures { b.new ≡ showing b.old (without_row side (e_shown t.now) (content b.old) i) }
{
    match side {
        Side::Lower => take_out_below(t, b, i),
        Side::Upper => take_out_above(t, b, i),
    }
}

/// Takes row `i` out of the rows below it.
fn take_out_below(t: &EWin, b: &mut EWinMut, i: u32)
    requires square { (e_shown t.now).rows ≡ (e_shown t.now).cols }
    requires fits { (e_shown t.now).rows ≡ b.old.rows }
    requires field { (e_shown t.now).field ≡ b.old.field }
    requires in_rows { i < b.old.rows }
    ensures { b.new ≡ showing b.old (without_row Side.Lower (e_shown t.now) (content b.old) i) }
{
    let _rows = b.rows();
    let (above, mut below) = b.take().split_rows(i + 1);
    add_where(t, i + 1, i, &mut below, &above.see(), i);
    b.put_back(above.join_rows(below));
}

/// Takes row `i` out of the rows above it.
fn take_out_above(t: &EWin, b: &mut EWinMut, i: u32)
    requires square { (e_shown t.now).rows ≡ (e_shown t.now).cols }
    requires fits { (e_shown t.now).rows ≡ b.old.rows }
    requires field { (e_shown t.now).field ≡ b.old.field }
    requires in_rows { i < b.old.rows }
    ensures { b.new ≡ showing b.old (without_row Side.Upper (e_shown t.now) (content b.old) i) }
{
    let _rows = b.rows();
    let (mut above, below) = b.take().split_rows(i);
    add_where(t, 0, i, &mut above, &below.see(), 0);
    b.put_back(above.join_rows(below));
}

/// Adds to each row the multiple of row `s` of `from` by the row's entry in this column of the triangle. The triangle's row
/// `first` stands for the first row.
fn add_where(t: &EWin, first: u32, column: u32, rows: &mut EWinMut, from: &EWin, s: u32)
    requires in_triangle { first + rows.old.rows ≤ (e_shown t.now).rows }
    requires in_columns { column < (e_shown t.now).cols }
    requires field { (e_shown t.now).field ≡ rows.old.field }
    requires from_field { (e_shown from.now).field ≡ rows.old.field }
    requires in_from { s < (e_shown from.now).rows }
    requires same_cols { (e_shown from.now).cols ≡ rows.old.cols }
    ensures { rows.new ≡ showing rows.old (matrix_of rows.old.field rows.old.rows rows.old.cols
        (λ r j. bit_xor (at (content rows.old) r j) (mul rows.old.field (at (e_shown from.now) s j) (at (e_shown t.now) (first + r) column)))) }
{
    let _rows = from.rows();
    let _rows_of_t = t.rows();
    for r in 0..rows.rows() {
        let x = t.get(first + r, column);
        if x != 0 {
            rows.add_multiple(r, from, s, x);
        }
    }
}
