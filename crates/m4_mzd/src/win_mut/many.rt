//! Several rows added to one in a single pass over its words.

ghost use Rattle.std.specs.Prelude.{◌≡◌, ◌+◌, ◌<◌, ◌≤◌, length};
ghost use Rattle.std.specs.List.{All};
ghost use Rattle.m4_model.specs.Matrix.{row, with_row};
ghost use Rattle.m4_mzd.specs.Window.{content, showing};
ghost use Rattle.m4_mzd.specs.Seen.{shown};
ghost use Rattle.m4_mzd.specs.Rows.{rows_at, sum_of};

use super::WinMut;
use crate::MOST_ADDED;
use crate::steps::Steps;
use crate::win::Win;
use m4_bits::{
    mask, xor_from2, xor_from3, xor_from4, xor_from5, xor_from6, xor_from7, xor_from8, xor_into,
};
use std::sync::ledger::Ledger;

// Adds the rows of `from` whose numbers stand at these places to row `r`, in one pass of the kernel over its words.
macro_rules! add_in_one_pass {
    ($window:ident, $r:ident, $from:ident, $numbers:ident, $kernel:ident, $($row:ident at $place:literal),+) => {
        let last = mask($window.cols);
        $(let $row = $from.numbered($numbers, $place);)+
        $kernel($window.words.row_mut($r as usize), $($row),+, last);
    };
}

impl WinMut {
    /// Adds the `T` rows of `from`, a window of as many columns, that have these numbers to row `r`, in one pass over its
    /// words, where `T` is 1 to `MOST_ADDED`. A number may stand there twice. All else stays. Takes `T` steps.
    #[inline]
    pub fn add_rows<const T: usize, L: Ledger>(
        &mut self,
        r: u32,
        from: &Win,
        numbers: &[u32; T],
        steps: &mut Steps<L>,
    )
        requires some { 1 ≤ T }
        requires few { T ≤ MOST_ADDED }
        requires in_rows { r < self.old.rows }
        requires in_from { All (λ s. s < (shown from.now).rows) numbers.now }
        requires same_cols { (shown from.now).cols ≡ self.old.cols }
        ensures row { self.new ≡ showing self.old (with_row (content self.old) r (sum_of (row (content self.old) r) (rows_at (shown from.now) numbers.now))) }
        ensures ticks { steps.new ≡ steps.old + T }
    {
        steps.tick_times(T as u64);
        self.add_listed(r, from, numbers);
    }

    // Adds the rows of these numbers to row `r`.
    #[inline(always)]
    fn add_listed<const T: usize>(&mut self, r: u32, from: &Win, numbers: &[u32; T])
        requires some { 1 ≤ T }
        requires few { T ≤ MOST_ADDED }
        requires in_rows { r < self.old.rows }
        requires in_from { All (λ s. s < (shown from.now).rows) numbers.now }
        requires same_cols { (shown from.now).cols ≡ self.old.cols }
        ensures { self.new ≡ showing self.old (with_row (content self.old) r (sum_of (row (content self.old) r) (rows_at (shown from.now) numbers.now))) }
    {
        let list = numbers.as_slice();
        match T {
            1 => self.add_one(r, from, list),
            2 => self.add_two(r, from, list),
            3 => self.add_three(r, from, list),
            4 => self.add_four(r, from, list),
            5 => self.add_five(r, from, list),
            6 => self.add_six(r, from, list),
            7 => self.add_seven(r, from, list),
            _ => self.add_eight(r, from, list),
        }
    }

    // Adds one row to row `r`.
    #[inline(always)]
    fn add_one(&mut self, r: u32, from: &Win, numbers: &[u32])
        requires in_rows { r < self.old.rows }
        requires in_from { All (λ s. s < (shown from.now).rows) numbers.now }
        requires one { length numbers.now ≡ 1 }
        requires same_cols { (shown from.now).cols ≡ self.old.cols }
        ensures { self.new ≡ showing self.old (with_row (content self.old) r (sum_of (row (content self.old) r) (rows_at (shown from.now) numbers.now))) }
    {
        add_in_one_pass!(self, r, from, numbers, xor_into, a at 0);
    }

    // Adds two rows to row `r`.
    #[inline(always)]
    fn add_two(&mut self, r: u32, from: &Win, numbers: &[u32])
        requires in_rows { r < self.old.rows }
        requires in_from { All (λ s. s < (shown from.now).rows) numbers.now }
        requires two { length numbers.now ≡ 2 }
        requires same_cols { (shown from.now).cols ≡ self.old.cols }
        ensures { self.new ≡ showing self.old (with_row (content self.old) r (sum_of (row (content self.old) r) (rows_at (shown from.now) numbers.now))) }
    {
        add_in_one_pass!(self, r, from, numbers, xor_from2, a at 0, b at 1);
    }

    // Adds three rows to row `r`.
    #[inline(always)]
    fn add_three(&mut self, r: u32, from: &Win, numbers: &[u32])
        requires in_rows { r < self.old.rows }
        requires in_from { All (λ s. s < (shown from.now).rows) numbers.now }
        requires three { length numbers.now ≡ 3 }
        requires same_cols { (shown from.now).cols ≡ self.old.cols }
        ensures { self.new ≡ showing self.old (with_row (content self.old) r (sum_of (row (content self.old) r) (rows_at (shown from.now) numbers.now))) }
    {
        add_in_one_pass!(self, r, from, numbers, xor_from3, a at 0, b at 1, c at 2);
    }

    // Adds four rows to row `r`.
    #[inline(always)]
    fn add_four(&mut self, r: u32, from: &Win, numbers: &[u32])
        requires in_rows { r < self.old.rows }
        requires in_from { All (λ s. s < (shown from.now).rows) numbers.now }
        requires four { length numbers.now ≡ 4 }
        requires same_cols { (shown from.now).cols ≡ self.old.cols }
        ensures { self.new ≡ showing self.old (with_row (content self.old) r (sum_of (row (content self.old) r) (rows_at (shown from.now) numbers.now))) }
    {
        add_in_one_pass!(self, r, from, numbers, xor_from4, a at 0, b at 1, c at 2, d at 3);
    }

    // Adds five rows to row `r`.
    #[inline(always)]
    fn add_five(&mut self, r: u32, from: &Win, numbers: &[u32])
        requires in_rows { r < self.old.rows }
        requires in_from { All (λ s. s < (shown from.now).rows) numbers.now }
        requires five { length numbers.now ≡ 5 }
        requires same_cols { (shown from.now).cols ≡ self.old.cols }
        ensures { self.new ≡ showing self.old (with_row (content self.old) r (sum_of (row (content self.old) r) (rows_at (shown from.now) numbers.now))) }
    {
        add_in_one_pass!(self, r, from, numbers, xor_from5, a at 0, b at 1, c at 2, d at 3, e at 4);
    }

    // Adds six rows to row `r`.
    #[inline(always)]
    fn add_six(&mut self, r: u32, from: &Win, numbers: &[u32])
        requires in_rows { r < self.old.rows }
        requires in_from { All (λ s. s < (shown from.now).rows) numbers.now }
        requires six { length numbers.now ≡ 6 }
        requires same_cols { (shown from.now).cols ≡ self.old.cols }
        ensures { self.new ≡ showing self.old (with_row (content self.old) r (sum_of (row (content self.old) r) (rows_at (shown from.now) numbers.now))) }
    {
        add_in_one_pass!(self, r, from, numbers, xor_from6, a at 0, b at 1, c at 2, d at 3, e at 4, f at 5);
    }

    // Adds seven rows to row `r`.
    #[inline(always)]
    fn add_seven(&mut self, r: u32, from: &Win, numbers: &[u32])
        requires in_rows { r < self.old.rows }
        requires in_from { All (λ s. s < (shown from.now).rows) numbers.now }
        requires seven { length numbers.now ≡ 7 }
        requires same_cols { (shown from.now).cols ≡ self.old.cols }
        ensures { self.new ≡ showing self.old (with_row (content self.old) r (sum_of (row (content self.old) r) (rows_at (shown from.now) numbers.now))) }
    {
        add_in_one_pass!(self, r, from, numbers, xor_from7, a at 0, b at 1, c at 2, d at 3, e at 4, f at 5, g at 6);
    }

    // Adds eight rows to row `r`.
    #[inline(always)]
    fn add_eight(&mut self, r: u32, from: &Win, numbers: &[u32])
        requires in_rows { r < self.old.rows }
        requires in_from { All (λ s. s < (shown from.now).rows) numbers.now }
        requires eight { length numbers.now ≡ 8 }
        requires same_cols { (shown from.now).cols ≡ self.old.cols }
        ensures { self.new ≡ showing self.old (with_row (content self.old) r (sum_of (row (content self.old) r) (rows_at (shown from.now) numbers.now))) }
    {
        add_in_one_pass!(self, r, from, numbers, xor_from8, a at 0, b at 1, c at 2, d at 3, e at 4, f at 5, g at 6, h at 7);
    }
}
