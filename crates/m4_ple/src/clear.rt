//! How the rows below a pivot are cleared.

ghost use Rattle.std.specs.Prelude.{◌≡◌, ℕ, ◌+◌, ◌<◌, ◌≤◌, ◌^◌};
ghost use Rattle.m4_model.specs.Field.{Field};
ghost use Rattle.m4_model.specs.Matrix.{at, with_row};
ghost use Rattle.m4_mzed.specs.EWindow.{content, showing};
ghost use Rattle.m4_ple.specs.Elimination.{cleared, cleared_row};

use m4_mzed::EWinMut;

/// What clears the rows below a pivot.
pub trait ClearBelow {
    // Whether it clears rows of so many elements of this field.
    ghost Serves: { Self → Field → ℕ → Type 0 };

    /// Clears column `c` below row `r`, whose pivot there has this inverse, and keeps the factors in column `r`, which is zero
    /// below the row where it isn't column `c` itself.
    fn clear_below(&mut self, a: &mut EWinMut, r: u32, c: u32, inverse: u32)
        requires serves { Serves self.old a.old.field a.old.cols }
        requires in_rows { r < a.old.rows }
        requires in_cols { c < a.old.cols }
        requires behind { r ≤ c }
        requires blank { (i : ℕ) → r < i → i < a.old.rows → r < c → at (content a.old) i r ≡ 0 }
        requires element { inverse < 2 ^ a.old.field.degree }
        ensures cleared { a.new ≡ showing a.old (cleared inverse r c a.old.rows (content a.old)) }
        ensures still_serves { (F : Field) (cols : ℕ) → Serves self.old F cols → Serves self.new F cols };
}

/// Clears rows one by one by multiples of the pivot's row.
#[derive(Clone, Copy)]
pub struct ByRows;

impl ClearBelow for ByRows {
    ghost Serves = { λ _ _ _. Unit {0} };

    fn clear_below(&mut self, a: &mut EWinMut, r: u32, c: u32, inverse: u32) {
        clear_rows(a, r, c, inverse);
    }
}

/// Clears column `c` below row `r`, whose pivot there has this inverse, and keeps the factors in column `r`.
fn clear_rows(a: &mut EWinMut, r: u32, c: u32, inverse: u32)
    requires in_rows { r < a.old.rows }
    requires in_cols { c < a.old.cols }
    requires behind { r ≤ c }
    requires element { inverse < 2 ^ a.old.field.degree }
    ensures { a.new ≡ showing a.old (cleared inverse r c a.old.rows (content a.old)) }
{
    let _cols = a.cols();
    for i in r + 1..a.rows() {
        clear_entry(a, i, r, c, inverse);
    }
}

/// Clears row `i` in column `c` by a multiple of row `r`, and keeps the factor in column `r`.
fn clear_entry(a: &mut EWinMut, i: u32, r: u32, c: u32, inverse: u32)
    requires in_rows { i < a.old.rows }
    requires below { r < i }
    requires in_cols { c < a.old.cols }
    requires behind { r ≤ c }
    requires element { inverse < 2 ^ a.old.field.degree }
    ensures { a.new ≡ showing a.old (with_row (content a.old) i (cleared_row inverse r c (content a.old) i)) }
{
    let _rows = a.rows();
    let entry = a.get(i, c);
    if entry != 0 {
        let factor = a.field().mul(entry, inverse);
        a.add_own(i, r, factor, c + 1);
        a.put(i, c, 0);
        a.put(i, r, factor);
    }
}
