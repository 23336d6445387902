//! Whole rows of a window: multiples of rows are added to them, and they are scaled, copied, cleared and swapped.

ghost use Rattle.std.specs.Prelude.{◌≡◌, ◌<◌, ◌≤◌, ◌^◌, replicate};
ghost use Rattle.std.specs.List.{swap};
ghost use Rattle.m4_model.specs.Matrix.{row, row_sum, with_row, zero_matrix};
ghost use Rattle.m4_mzd.specs.Rows.{sum_from};
ghost use Rattle.m4_mzed.specs.EWindow.{content, showing};
ghost use Rattle.m4_mzed.specs.ESeen.{e_shown};
ghost use Rattle.m4_mzed.specs.Rows.{multiples};

use super::EWinMut;
use crate::row::{add_scaled, scale};
use crate::win::EWin;

impl EWinMut {
    /// Adds `x` times row `s` of `from`, a window over the same field of as many columns, to row `r`. All else stays.
    #[inline]
    pub fn add_multiple(&mut self, r: u32, from: &EWin, s: u32, x: u32)
        requires in_rows { r < self.old.rows }
        requires in_from { s < (e_shown from.now).rows }
        requires same_cols { (e_shown from.now).cols ≡ self.old.cols }
        requires same_field { (e_shown from.now).field ≡ self.old.field }
        requires element { x < 2 ^ self.old.field.degree }
        ensures { self.new ≡ showing self.old (with_row (content self.old) r (row_sum (row (content self.old) r) (multiples self.old.field x (row (e_shown from.now) s)))) }
    {
        self.add_tail(r, from, s, x, 0);
    }

    /// Adds `x` times row `s` of `from`, a window over the same field of as many columns, to row `r`, in the columns from `c`
    /// on. All else stays.
    #[inline]
    pub fn add_tail(&mut self, r: u32, from: &EWin, s: u32, x: u32, c: u32)
        requires in_rows { r < self.old.rows }
        requires in_from { s < (e_shown from.now).rows }
        requires same_cols { (e_shown from.now).cols ≡ self.old.cols }
        requires same_field { (e_shown from.now).field ≡ self.old.field }
        requires element { x < 2 ^ self.old.field.degree }
        requires in_cols { c ≤ self.old.cols }
        ensures { self.new ≡ showing self.old (with_row (content self.old) r (sum_from c (row (content self.old) r) (multiples self.old.field x (row (e_shown from.now) s)))) }
    {
        let _rows = self.bits.rows();
        let field = self.field;
        add_scaled(&field, self.cols, &mut self.bits, r, &from.bits, s, x, c);
    }

    /// Adds row `i` of `a` and row `j` of `b`, windows over the same field of as many columns, to row `r`, in one pass. All else
    /// stays.
    #[inline]
    pub fn add_both(&mut self, r: u32, a: &EWin, i: u32, b: &EWin, j: u32)
        requires in_rows { r < self.old.rows }
        requires in_a { i < (e_shown a.now).rows }
        requires in_b { j < (e_shown b.now).rows }
        requires same_cols { (e_shown a.now).cols ≡ self.old.cols }
        requires other_cols { (e_shown b.now).cols ≡ self.old.cols }
        requires same_field { (e_shown a.now).field ≡ self.old.field }
        requires other_field { (e_shown b.now).field ≡ self.old.field }
        ensures { self.new ≡ showing self.old (with_row (content self.old) r (row_sum (row_sum (row (content self.old) r) (row (e_shown a.now) i)) (row (e_shown b.now) j))) }
    {
        let _rows = self.bits.rows();
        let _rows_of_a = a.bits.rows();
        let _rows_of_b = b.bits.rows();
        self.bits.add_both(r, &a.bits, i, &b.bits, j);
    }

    /// Makes row `r` `x` times what it was. All else stays.
    #[inline]
    pub fn scale_row(&mut self, r: u32, x: u32)
        requires in_rows { r < self.old.rows }
        requires element { x < 2 ^ self.old.field.degree }
        ensures { self.new ≡ showing self.old (with_row (content self.old) r (multiples self.old.field x (row (content self.old) r))) }
    {
        let field = self.field;
        scale(&field, self.cols, &mut self.bits, r, x);
    }

    /// Copies row `s` of `from`, a window over the same field of as many columns, over row `r`. All else stays.
    #[inline]
    pub fn copy_row(&mut self, r: u32, from: &EWin, s: u32)
        requires in_rows { r < self.old.rows }
        requires in_from { s < (e_shown from.now).rows }
        requires same_cols { (e_shown from.now).cols ≡ self.old.cols }
        requires same_field { (e_shown from.now).field ≡ self.old.field }
        ensures { self.new ≡ showing self.old (with_row (content self.old) r (row (e_shown from.now) s)) }
    {
        self.bits.copy_row(r, &from.bits, s);
    }

    /// Copies all rows of `from`, a window of the same field and shape. All else stays.
    pub fn copy_rows(&mut self, from: &EWin)
        requires same_rows { (e_shown from.now).rows ≡ self.old.rows }
        requires same_cols { (e_shown from.now).cols ≡ self.old.cols }
        requires same_field { (e_shown from.now).field ≡ self.old.field }
        ensures { self.new ≡ showing self.old (e_shown from.now) }
    {
        self.bits.copy_rows(&from.bits);
    }

    /// Makes every entry of row `r` 0. All else stays.
    #[inline]
    pub fn clear_row(&mut self, r: u32)
        requires { r < self.old.rows }
        ensures { self.new ≡ showing self.old (with_row (content self.old) r (replicate self.old.cols 0)) }
    {
        self.bits.clear_row(r);
    }

    /// Makes every entry 0.
    pub fn clear(&mut self)
        ensures { self.new ≡ showing self.old (zero_matrix self.old.field self.old.rows self.old.cols) }
    {
        self.bits.clear();
    }

    /// Swaps rows `i` and `j`. All else stays.
    #[inline]
    pub fn swap_rows(&mut self, i: u32, j: u32)
        requires first { i < self.old.rows }
        requires second { j < self.old.rows }
        ensures { self.new ≡ record self.old { entries = swap self.old.entries i j } }
    {
        self.bits.swap_rows(i, j);
    }

    /// Swaps row `r` and row `s` of another window over the same field of as many columns. All else stays.
    #[inline]
    pub fn swap_with(&mut self, r: u32, other: &mut EWinMut, s: u32)
        requires in_rows { r < self.old.rows }
        requires in_other { s < other.old.rows }
        requires same_cols { other.old.cols ≡ self.old.cols }
        requires same_field { other.old.field ≡ self.old.field }
        ensures here { self.new ≡ showing self.old (with_row (content self.old) r (row (content other.old) s)) }
        ensures there { other.new ≡ showing other.old (with_row (content other.old) s (row (content self.old) r)) }
    {
        self.bits.swap_with(r, &mut other.bits, s);
    }
}
