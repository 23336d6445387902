//! Rows that are written from words, and from digits.

ghost use Rattle.std.specs.Prelude.{◌≡◌, ◌<◌, length, map};
ghost use Rattle.m4_model.specs.Matrix.{with_row};
ghost use Rattle.m4_model.specs.Text.{words_per_row};
ghost use Rattle.m4_mzd.specs.Window.{content, showing};
ghost use Rattle.m4_mzd.specs.Shown.{bits_within};
ghost use Rattle.m4_mzd.specs.Rows.{bits_of_digits};

use super::WinMut;
use m4_bits::{copy_into, mask};

impl WinMut {
    /// Writes row `r` from words: the entry in column `64 w + j` becomes bit `j` of word `w`. All else stays.
    #[inline]
    pub fn set_row(&mut self, r: u32, words: &[u64])
        requires in_rows { r < self.old.rows }
        requires wide { length words.now ≡ words_per_row self.old.cols }
        ensures { self.new ≡ showing self.old (with_row (content self.old) r (bits_within self.old.cols words.now)) }
    {
        let last = mask(self.cols);
        copy_into(self.words.row_mut(r as usize), words, last);
    }

    /// Writes all rows from words.
    pub(crate) fn write_rows<const W: usize>(&mut self, rows: &[[u64; W]])
        requires as_many { length rows.now ≡ self.old.rows }
        requires wide { W ≡ words_per_row self.old.cols }
        ensures { self.new ≡ record self.old { bits = map (bits_within self.old.cols) rows.now } }
    {
        for r in 0..self.rows() {
            self.set_row(r, &rows[r as usize]);
        }
    }

    /// Writes row `r` from digits: the entry becomes 1 where the digit is `1`, and else 0. All else stays.
    pub(crate) fn write_digits_of_row(&mut self, r: u32, digits: &[u8])
        requires in_rows { r < self.old.rows }
        requires wide { length digits.now ≡ self.old.cols }
        ensures { self.new ≡ showing self.old (with_row (content self.old) r (bits_of_digits digits.now)) }
    {
        for c in 0..self.cols() {
            self.put(r, c, digits[c as usize] == b'1');
        }
    }

    /// Writes all rows from digits.
    pub(crate) fn write_digits<const N: usize>(&mut self, rows: &[[u8; N]])
        requires as_many { length rows.now ≡ self.old.rows }
        requires wide { N ≡ self.old.cols }
        ensures { self.new ≡ record self.old { bits = map bits_of_digits rows.now } }
    {
        for r in 0..self.rows() {
            self.write_digits_of_row(r, &rows[r as usize]);
        }
    }
}
