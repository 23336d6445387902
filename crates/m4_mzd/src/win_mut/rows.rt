//! Whole rows of a window: they are added, copied, swapped and cleared in whole words.

ghost use Rattle.std.specs.Prelude.{◌≡◌, ◌+◌, ◌<◌, ◌≤◌, replicate};
ghost use Rattle.m4_model.specs.Field.{gf2};
ghost use Rattle.m4_model.specs.Matrix.{row, row_sum, with_row, zero_matrix};
ghost use Rattle.m4_mzd.specs.Window.{content, showing};
ghost use Rattle.m4_mzd.specs.Seen.{shown};
ghost use Rattle.m4_mzd.specs.Rows.{sum_from};

use super::WinMut;
use crate::steps::Steps;
use crate::win::Win;
use m4_bits::{clear, copy_into, mask, set_sum, swap_into, xor_from_column, xor_from2, xor_into};
use std::sync::ledger::Ledger;

impl WinMut {
    /// Adds row `s` of `from`, a window of as many columns, to row `r`. All else stays. Takes one step.
    #[inline]
    pub fn add_row<L: Ledger>(&mut self, r: u32, from: &Win, s: u32, steps: &mut Steps<L>)
        requires in_rows { r < self.old.rows }
        requires in_from { s < (shown from.now).rows }
        requires same_cols { (shown from.now).cols ≡ self.old.cols }
        ensures row { self.new ≡ showing self.old (with_row (content self.old) r (row_sum (row (content self.old) r) (row (shown from.now) s))) }
        ensures ticks { steps.new ≡ steps.old + 1 }
    {
        steps.tick();
        let last = mask(self.cols);
        let source = from.view.row(s as usize);
        xor_into(self.words.row_mut(r as usize), source, last);
    }

    /// Adds row `s` of `from`, a window of as many columns, to row `r`, in the columns from `c` on. All else stays.
    #[inline]
    pub fn add_tail(&mut self, r: u32, from: &Win, s: u32, c: u32)
        requires in_rows { r < self.old.rows }
        requires in_from { s < (shown from.now).rows }
        requires same_cols { (shown from.now).cols ≡ self.old.cols }
        requires in_cols { c ≤ self.old.cols }
        ensures { self.new ≡ showing self.old (with_row (content self.old) r (sum_from c (row (content self.old) r) (row (shown from.now) s))) }
    {
        let last = mask(self.cols);
        let source = from.view.row(s as usize);
        xor_from_column(self.words.row_mut(r as usize), source, c, last);
    }

    /// Copies row `s` of `from`, a window of as many columns, over row `r`. All else stays.
    #[inline]
    pub fn copy_row(&mut self, r: u32, from: &Win, s: u32)
        requires in_rows { r < self.old.rows }
        requires in_from { s < (shown from.now).rows }
        requires same_cols { (shown from.now).cols ≡ self.old.cols }
        ensures { self.new ≡ showing self.old (with_row (content self.old) r (row (shown from.now) s)) }
    {
        let last = mask(self.cols);
        let source = from.view.row(s as usize);
        copy_into(self.words.row_mut(r as usize), source, last);
    }

    /// Makes of row `r` the sum of row `i` of `a` and row `j` of `b`, windows of as many columns, in one pass over its words.
    /// All else stays.
    #[inline]
    pub fn set_sum(&mut self, r: u32, a: &Win, i: u32, b: &Win, j: u32)
        requires in_rows { r < self.old.rows }
        requires in_a { i < (shown a.now).rows }
        requires in_b { j < (shown b.now).rows }
        requires same_cols { (shown a.now).cols ≡ self.old.cols }
        requires other_cols { (shown b.now).cols ≡ self.old.cols }
        ensures { self.new ≡ showing self.old (with_row (content self.old) r (row_sum (row (shown a.now) i) (row (shown b.now) j))) }
    {
        let last = mask(self.cols);
        let first = a.view.row(i as usize);
        let second = b.view.row(j as usize);
        set_sum(self.words.row_mut(r as usize), first, second, last);
    }

    /// Adds row `i` of `a` and row `j` of `b`, windows of as many columns, to row `r`, in one pass over its words. All else
    /// stays.
    #[inline]
    pub fn add_both(&mut self, r: u32, a: &Win, i: u32, b: &Win, j: u32)
        requires in_rows { r < self.old.rows }
        requires in_a { i < (shown a.now).rows }
        requires in_b { j < (shown b.now).rows }
        requires same_cols { (shown a.now).cols ≡ self.old.cols }
        requires other_cols { (shown b.now).cols ≡ self.old.cols }
        ensures { self.new ≡ showing self.old (with_row (content self.old) r (row_sum (row_sum (row (content self.old) r) (row (shown a.now) i)) (row (shown b.now) j))) }
    {
        let last = mask(self.cols);
        let first = a.view.row(i as usize);
        let second = b.view.row(j as usize);
        xor_from2(self.words.row_mut(r as usize), first, second, last);
    }

    /// Copies all rows of `from`, a window of the same shape. All else stays.
    pub fn copy_rows(&mut self, from: &Win)
        requires same_rows { (shown from.now).rows ≡ self.old.rows }
        requires same_cols { (shown from.now).cols ≡ self.old.cols }
        ensures { self.new ≡ showing self.old (shown from.now) }
    {
        let _rows = from.rows();
        for r in 0..self.rows() {
            self.copy_row(r, from, r);
        }
    }

    /// Makes every entry of row `r` 0. All else stays.
    #[inline]
    pub fn clear_row(&mut self, r: u32)
        requires { r < self.old.rows }
        ensures { self.new ≡ showing self.old (with_row (content self.old) r (replicate self.old.cols 0)) }
    {
        let last = mask(self.cols);
        clear(self.words.row_mut(r as usize), last);
    }

    /// Makes every entry 0.
    pub fn clear(&mut self)
        ensures { self.new ≡ showing self.old (zero_matrix gf2 self.old.rows self.old.cols) }
    {
        for r in 0..self.rows() {
            self.clear_row(r);
        }
    }

    /// Swaps row `r` and row `s` of another window of as many columns. All else stays.
    #[inline]
    pub fn swap_with(&mut self, r: u32, other: &mut WinMut, s: u32)
        requires in_rows { r < self.old.rows }
        requires in_other { s < other.old.rows }
        requires same_cols { other.old.cols ≡ self.old.cols }
        ensures here { self.new ≡ showing self.old (with_row (content self.old) r (row (content other.old) s)) }
        ensures there { other.new ≡ showing other.old (with_row (content other.old) s (row (content self.old) r)) }
    {
        let last = mask(self.cols);
        let mine = self.words.row_mut(r as usize);
        let theirs = other.words.row_mut(s as usize);
        swap_into(mine, theirs, last);
    }
}
