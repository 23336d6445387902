//! Two rows of one window: it is cut between them, so that both can be reached at once, and joined again.

ghost use Rattle.std.specs.Prelude.{◌≡◌, ◌≢◌, ◌<◌, ◌≤◌};
ghost use Rattle.std.specs.List.{swap};
ghost use Rattle.m4_model.specs.Matrix.{row, with_row};
ghost use Rattle.m4_mzd.specs.Window.{content, showing};
ghost use Rattle.m4_mzd.specs.Rows.{sum_from};

use super::WinMut;

impl WinMut {
    /// Adds row `s` to row `r`, another row of the window, in the columns from `c` on. All else stays.
    pub fn add_own(&mut self, r: u32, s: u32, c: u32)
        requires in_rows { r < self.old.rows }
        requires other_in_rows { s < self.old.rows }
        requires apart { r ≢ s }
        requires in_cols { c ≤ self.old.cols }
        ensures { self.new ≡ showing self.old (with_row (content self.old) r (sum_from c (row (content self.old) r) (row (content self.old) s))) }
    {
        if s < r {
            add_from_above(self, r, s, c);
        } else {
            add_from_below(self, r, s, c);
        }
    }

    /// Swaps rows `i` and `j`. All else stays.
    pub fn swap_rows(&mut self, i: u32, j: u32)
        requires first { i < self.old.rows }
        requires second { j < self.old.rows }
        ensures { self.new ≡ record self.old { bits = swap self.old.bits i j } }
    {
        let _rows = self.rows();
        if i < j {
            swap_apart(self, i, j);
        } else {
            swap_apart(self, j, i);
        }
    }
}

// Adds row `s` to row `r`, which is below it, in the columns from `c` on.
fn add_from_above(w: &mut WinMut, r: u32, s: u32, c: u32)
    requires in_rows { r < w.old.rows }
    requires above { s < r }
    requires in_cols { c ≤ w.old.cols }
    ensures { w.new ≡ showing w.old (with_row (content w.old) r (sum_from c (row (content w.old) r) (row (content w.old) s))) }
{
    let _rows = w.rows();
    let (above, mut below) = w.take().split_rows(r);
    below.add_tail(0, &above.see(), s, c);
    w.put_back(above.join_rows(below));
}

// Adds row `s` to row `r`, which is above it, in the columns from `c` on.
fn add_from_below(w: &mut WinMut, r: u32, s: u32, c: u32)
    requires in_rows { s < w.old.rows }
    requires below { r < s }
    requires in_cols { c ≤ w.old.cols }
    ensures { w.new ≡ showing w.old (with_row (content w.old) r (sum_from c (row (content w.old) r) (row (content w.old) s))) }
{
    let _rows = w.rows();
    let (mut above, below) = w.take().split_rows(s);
    above.add_tail(r, &below.see(), 0, c);
    w.put_back(above.join_rows(below));
}

// Swaps row `high` and row `low`, which is not above it.
fn swap_apart(w: &mut WinMut, high: u32, low: u32)
    requires ordered { high ≤ low }
    requires within { low < w.old.rows }
    ensures { w.new ≡ record w.old { bits = swap w.old.bits high low } }
{
    let _rows = w.rows();
    if high < low {
        let (mut above, mut below) = w.take().split_rows(low);
        above.swap_with(high, &mut below, 0);
        w.put_back(above.join_rows(below));
    }
}
