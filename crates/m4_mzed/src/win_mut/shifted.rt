//! Entries of a row that are copied to any place of another.

ghost use Rattle.std.specs.Prelude.{◌≡◌, ◌+◌, ◌<◌, ◌≤◌};
ghost use Rattle.m4_model.specs.Matrix.{row, with_row};
ghost use Rattle.m4_mzd.specs.Parts.{part, with_part};
ghost use Rattle.m4_mzed.specs.EWindow.{content, showing};
ghost use Rattle.m4_mzed.specs.ESeen.{e_shown};

use super::EWinMut;
use crate::win::EWin;

impl EWinMut {
    /// Copies `count` entries of row `s` of `from`, a window over the same field, from column `d` on, over those of row `r`
    /// from column `c` on. All else stays.
    #[inline]
    pub fn copy_part(&mut self, r: u32, c: u32, from: &EWin, s: u32, d: u32, count: u32)
        requires in_rows { r < self.old.rows }
        requires in_cols { c + count ≤ self.old.cols }
        requires in_from { s < (e_shown from.now).rows }
        requires in_from_cols { d + count ≤ (e_shown from.now).cols }
        requires same_field { (e_shown from.now).field ≡ self.old.field }
        ensures { self.new ≡ showing self.old (with_row (content self.old) r (with_part c (part d count (row (e_shown from.now) s)) (row (content self.old) r))) }
    {
        let place = self.first_bit(c);
        let source = from.first_bit(d);
        let bits = self.first_bit(count);
        self.bits.copy_part(r, place, &from.bits, s, source, bits);
    }
}
