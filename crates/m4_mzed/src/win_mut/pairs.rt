//! Two rows of one window: it is cut between them, so that both can be reached at once, and joined again.

ghost use Rattle.std.specs.Prelude.{◌≡◌, ◌≢◌, ◌<◌, ◌≤◌, ◌^◌};
ghost use Rattle.m4_model.specs.Matrix.{row, with_row};
ghost use Rattle.m4_mzd.specs.Rows.{sum_from};
ghost use Rattle.m4_mzed.specs.EWindow.{content, showing};
ghost use Rattle.m4_mzed.specs.Rows.{multiples};

use super::EWinMut;

impl EWinMut {
    /// Adds `x` times row `s` to row `r`, another row of the window, in the columns from `c` on. All else stays.
    pub fn add_own(&mut self, r: u32, s: u32, x: u32, c: u32)
        requires in_rows { r < self.old.rows }
        requires other_in_rows { s < self.old.rows }
        requires apart { r ≢ s }
        requires element { x < 2 ^ self.old.field.degree }
        requires in_cols { c ≤ self.old.cols }
        ensures { self.new ≡ showing self.old (with_row (content self.old) r (sum_from c (row (content self.old) r) (multiples self.old.field x (row (content self.old) s)))) }
    {
        if s < r {
            add_from_above(self, r, s, x, c);
        } else {
            add_from_below(self, r, s, x, c);
        }
    }
}

// Adds `x` times row `s` to row `r`, which is below it, in the columns from `c` on.
fn add_from_above(w: &mut EWinMut, r: u32, s: u32, x: u32, c: u32)
    requires in_rows { r < w.old.rows }
    requires above { s < r }
    requires element { x < 2 ^ w.old.field.degree }
    requires in_cols { c ≤ w.old.cols }
    ensures { w.new ≡ showing w.old (with_row (content w.old) r (sum_from c (row (content w.old) r) (multiples w.old.field x (row (content w.old) s)))) }
{
    let _rows = w.rows();
    let (above, mut below) = w.take().split_rows(r);
    below.add_tail(0, &above.see(), s, x, c);
    w.put_back(above.join_rows(below));
}

// Adds `x` times row `s` to row `r`, which is above it, in the columns from `c` on.
fn add_from_below(w: &mut EWinMut, r: u32, s: u32, x: u32, c: u32)
    requires in_rows { s < w.old.rows }
    requires below { r < s }
    requires element { x < 2 ^ w.old.field.degree }
    requires in_cols { c ≤ w.old.cols }
    ensures { w.new ≡ showing w.old (with_row (content w.old) r (sum_from c (row (content w.old) r) (multiples w.old.field x (row (content w.old) s)))) }
{
    let _rows = w.rows();
    let (mut above, below) = w.take().split_rows(s);
    above.add_tail(r, &below.see(), 0, x, c);
    w.put_back(above.join_rows(below));
}
