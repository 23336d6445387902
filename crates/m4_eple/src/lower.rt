//! L's entries of the lower right, which move to the columns behind the first ones.

ghost use Rattle.std.specs.Prelude.{◌≡◌, ◌+◌, ◌-◌, ◌<◌, ◌≤◌, min};
ghost use Rattle.m4_model.specs.Matrix.{row, with_row};
ghost use Rattle.m4_mzed.specs.EWindow.{content, showing};
ghost use Rattle.m4_eple.specs.Halves.{lower_moved, moved_row};

use m4_mzed::EWinMut;

/// Moves, in the rows from row `r` on, the first `s` columns of the lower right's L from column `left` on to column `r` on.
/// `spare` is a row of as many columns, which is written over.
pub(crate) fn move_lower(a: &mut EWinMut, r: u32, left: u32, s: u32, spare: &mut EWinMut)
    requires rank { r ≤ left }
    requires room { left + s ≤ a.old.cols }
    requires one_row { spare.old.rows ≡ 1 }
    requires same_cols { spare.old.cols ≡ a.old.cols }
    requires same_field { spare.old.field ≡ a.old.field }
    ensures moved { a.new ≡ showing a.old (lower_moved r left s (content a.old)) }
    ensures spare { spare.new ≡ showing spare.old (content spare.new) }
{
    let _rows = a.rows();
    let _spare = spare.rows();
    if r == left {
        return;
    }
    for i in r..a.rows() {
        move_row(a, i, r, left, (i - r).min(s), spare);
    }
}

/// Moves `count` entries of row `i` from column `left` on to column `r` on, and puts zeros where they stood.
fn move_row(a: &mut EWinMut, i: u32, r: u32, left: u32, count: u32, spare: &mut EWinMut)
    requires in_rows { i < a.old.rows }
    requires rank { r ≤ left }
    requires room { left + count ≤ a.old.cols }
    requires one_row { spare.old.rows ≡ 1 }
    requires same_cols { spare.old.cols ≡ a.old.cols }
    requires same_field { spare.old.field ≡ a.old.field }
    ensures moved { a.new ≡ showing a.old (with_row (content a.old) i (moved_row r left count (row (content a.old) i))) }
    ensures spare { spare.new ≡ showing spare.old (content spare.new) }
{
    let _rows = a.rows();
    let _spare = spare.rows();
    spare.copy_row(0, &a.see(), i);
    a.copy_part(i, r, &spare.see(), 0, left, count);
    spare.clear_row(0);
    a.copy_part(i, r + count, &spare.see(), 0, 0, left - r);
}
