//! Entries of a row that are copied to any place of another, by shifted words.

ghost use Rattle.std.specs.Prelude.{◌≡◌, ◌+◌, ◌<◌, ◌≤◌};
ghost use Rattle.m4_model.specs.Matrix.{row, with_row};
ghost use Rattle.m4_mzd.specs.Window.{content, showing};
ghost use Rattle.m4_mzd.specs.Seen.{shown};
ghost use Rattle.m4_mzd.specs.Parts.{part, with_part};

use super::WinMut;
use crate::win::Win;
use m4_bits::copy_bits;

impl WinMut {
    /// Copies `count` entries of row `s` of `from`, from column `d` on, over those of row `r` from column `c` on. All else
    /// stays.
    #[inline]
    pub fn copy_part(&mut self, r: u32, c: u32, from: &Win, s: u32, d: u32, count: u32)
        requires in_rows { r < self.old.rows }
        requires in_cols { c + count ≤ self.old.cols }
        requires in_from { s < (shown from.now).rows }
        requires in_from_cols { d + count ≤ (shown from.now).cols }
        ensures { self.new ≡ showing self.old (with_row (content self.old) r (with_part c (part d count (row (shown from.now) s)) (row (content self.old) r))) }
    {
        let source = from.view.row(s as usize);
        copy_bits(self.words.row_mut(r as usize), c, source, d, count);
    }
}
