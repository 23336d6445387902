//! Multiples of a row whose bits are small numbers, side by side, added to another.

ghost use Rattle.std.specs.Prelude.{◌≡◌, ◌<◌, ◌≤◌, List, ℕ};
ghost use Rattle.m4_model.specs.Matrix.{row, with_row};
ghost use Rattle.m4_mzd.specs.Window.{content, showing};
ghost use Rattle.m4_mzd.specs.Seen.{shown};
ghost use Rattle.m4_mzd.specs.Products.{AreProducts};
ghost use Rattle.m4_mzd.specs.Rows.{sum_from};

use super::WinMut;
use crate::win::Win;
use m4_bits::{add_products, mask};

impl WinMut {
    /// Adds the products of the words of row `s` of `from`, a window of as many columns, to row `r`, in the columns from `c`
    /// on. All else stays. A word's product is the sum of the bits of pattern `i` at the `N` places from each one of `low` on
    /// where the word, shifted down by `i`, has a one.
    #[inline]
    pub fn add_products<const N: usize>(
        &mut self,
        r: u32,
        from: &Win,
        s: u32,
        c: u32,
        low: u64,
        patterns: &[u64; N],
    )
        requires in_rows { r < self.old.rows }
        requires in_from { s < (shown from.now).rows }
        requires same_cols { (shown from.now).cols ≡ self.old.cols }
        requires in_cols { c ≤ self.old.cols }
        requires few { N < 64 }
        ensures { (ys : List ℕ) → AreProducts N low patterns.now (row (shown from.now) s) ys → self.new ≡ showing self.old (with_row (content self.old) r (sum_from c (row (content self.old) r) ys)) }
    {
        let last = mask(self.cols);
        let source = from.view.row(s as usize);
        add_products(
            self.words.row_mut(r as usize),
            source,
            c,
            last,
            low,
            patterns,
        );
    }
}
