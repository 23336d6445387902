//! A triangle on the right, row by row: in each row of the window, each entry that is known is taken out of the others.

ghost use Rattle.std.specs.Prelude.{◌≡◌, ◌<◌};
ghost use Rattle.m4_model.specs.Matrix.{at, row, with_row};
ghost use Rattle.m4_mzed.specs.EWindow.{content, showing};
ghost use Rattle.m4_mzed.specs.ESeen.{e_shown};
ghost use Rattle.m4_trsm.specs.Elimination.{without_entry};

use crate::side::Side;
use m4_mzed::{EWin, EWinMut};

/// Takes entry `j` of row `r` out of those before it, or out of those behind it.
pub fn take_entry_out(side: Side, t: &EWin, b: &mut EWinMut, r: u32, j: u32)
    requires square { (e_shown t.now).rows ≡ (e_shown t.now).cols }
    requires fits { (e_shown t.now).cols ≡ b.old.cols }
    requires field { (e_shown t.now).field ≡ b.old.field }
    requires in_rows { r < b.old.rows }
    requires in_cols { j < b.old.cols }
    ensures { b.new ≡ showing b.old (with_row (content b.old) r (without_entry side (e_shown t.now) (row (content b.old) r) j)) }
{
    let _rows_of_t = t.rows();
    let x = b.get(r, j);
    if x != 0 {
        take_multiple_out(side, t, b, r, j, x);
    }
}

/// The same for an entry `x`. Its multiple of row `j` of the triangle is added: behind the diagonal, or before it, where the
/// multiple of the whole row is added and what stands from the diagonal on once more.
fn take_multiple_out(side: Side, t: &EWin, b: &mut EWinMut, r: u32, j: u32, x: u32)
    requires square { (e_shown t.now).rows ≡ (e_shown t.now).cols }
    requires fits { (e_shown t.now).cols ≡ b.old.cols }
    requires field { (e_shown t.now).field ≡ b.old.field }
    requires in_rows { r < b.old.rows }
    requires in_cols { j < b.old.cols }
    requires entry { at (content b.old) r j ≡ x }
    ensures { b.new ≡ showing b.old (with_row (content b.old) r (without_entry side (e_shown t.now) (row (content b.old) r) j)) }
{
    let _rows = b.rows();
    let _rows_of_t = t.rows();
    match side {
        Side::Lower => {
            b.add_multiple(r, t, j, x);
            b.add_tail(r, t, j, x, j);
        }
        Side::Upper => b.add_tail(r, t, j, x, j + 1),
    }
}
