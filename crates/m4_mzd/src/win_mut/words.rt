//! Single words of a window.

ghost use Rattle.std.specs.Prelude.{◌≡◌, ℕ, ◌+◌, ◌*◌, ◌<◌};
ghost use Rattle.std.specs.Int.{bit_at};
ghost use Rattle.m4_model.specs.Matrix.{at, row, with_row};
ghost use Rattle.m4_model.specs.Text.{words_per_row};
ghost use Rattle.m4_mzd.specs.Window.{content, showing};
ghost use Rattle.m4_mzd.specs.Rows.{with_word};

use super::WinMut;
use crate::word::{put_word, word_of};

impl WinMut {
    /// Word `w` of row `r`: bit `j` is the entry in column `64 w + j`, and 0 past the last column.
    #[inline]
    pub fn word(&self, r: u32, w: u32) -> u64
        requires in_rows { r < self.now.rows }
        requires in_words { w < words_per_row self.now.cols }
        ensures { (j : ℕ) → j < 64 → bit_at result j ≡ at (content self.now) r (w * 64 + j) }
    {
        word_of(self.words.row(r as usize), self.cols, w)
    }

    /// Writes word `w` of row `r`: the entry in column `64 w + j` becomes bit `j`, as far as there are columns. All else
    /// stays.
    #[inline]
    pub fn set_word(&mut self, r: u32, w: u32, value: u64)
        requires in_rows { r < self.old.rows }
        requires in_words { w < words_per_row self.old.cols }
        ensures { self.new ≡ showing self.old (with_row (content self.old) r (with_word w value (row (content self.old) r))) }
    {
        put_word(self.words.row_mut(r as usize), self.cols, w, value);
    }
}
