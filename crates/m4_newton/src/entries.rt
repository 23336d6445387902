//! Entries of a table: the multiples of a row by the numbers of a few bits.

ghost use Rattle.std.specs.Prelude.{◌≡◌, ◌≢◌, ℕ, ◌+◌, ◌*◌, ◌^◌, ◌<◌, ◌≤◌};
ghost use Rattle.m4_model.specs.Matrix.{row, row_sum, with_row};
ghost use Rattle.m4_mzed.specs.EWindow.{EWindow, content, showing};
ghost use Rattle.m4_mzed.specs.ESeen.{e_shown};
ghost use Rattle.m4_newton.specs.Entries.{AreEntries};

use crate::multiples::put_multiple;
use m4_mzed::{EWin, EWinMut};

/// Makes the rows of `m` from `base` on, `2^bits` of them, the multiples of row `t` of `b` by x^shift times 0, 1 and so on, each
/// power of x and then its sums with the entries before it. The rows before `base` stay.
pub(crate) fn put_entries(m: &mut EWinMut, base: u32, b: &EWin, t: u32, shift: u32, bits: u32)
    requires few { shift + bits ≤ m.old.field.degree }
    requires in_rows { base + 2 ^ bits ≤ m.old.rows }
    requires in_b { t < (e_shown b.now).rows }
    requires same_cols { (e_shown b.now).cols ≡ m.old.cols }
    requires same_field { (e_shown b.now).field ≡ m.old.field }
    ensures { AreEntries m.old m.new (row (e_shown b.now) t) base shift (2 ^ bits) }
{
    let _degree = m.field().e();
    let _rows = m.rows();
    put_multiple(m, base, b, t, 0);
    for u in 0..bits {
        double_entries(m, base, b, t, shift, u);
    }
}

/// Makes as many entries again, where there are `2^u`: the multiple by x^(shift + u), and the sums of it with the others.
fn double_entries(m: &mut EWinMut, base: u32, b: &EWin, t: u32, shift: u32, u: u32)
    requires few { shift + u < m.old.field.degree }
    requires in_rows { base + 2 ^ (u + 1) ≤ m.old.rows }
    requires in_b { t < (e_shown b.now).rows }
    requires same_cols { (e_shown b.now).cols ≡ m.old.cols }
    requires same_field { (e_shown b.now).field ≡ m.old.field }
    ensures { (first : EWindow) → AreEntries first m.old (row (e_shown b.now) t) base shift (2 ^ u) → AreEntries first m.new (row (e_shown b.now) t) base shift (2 ^ (u + 1)) }
{
    let _degree = m.field().e();
    let _rows = m.rows();
    let _rows_of_b = b.rows();
    let top = base + (1 << u);
    put_multiple(m, top, b, t, 1 << (shift + u));
    for y in 1..1u32 << u {
        let _new_rows = m.rows();
        put_sum(m, top + y, base + y, top);
    }
}

/// Makes row `r` the sum of two others. All else stays.
fn put_sum(m: &mut EWinMut, r: u32, s: u32, q: u32)
    requires in_rows { r < m.old.rows }
    requires first_in_rows { s < m.old.rows }
    requires second_in_rows { q < m.old.rows }
    requires not_first { r ≢ s }
    requires not_second { r ≢ q }
    ensures { m.new ≡ showing m.old (with_row (content m.old) r (row_sum (row (content m.old) s) (row (content m.old) q))) }
{
    let _degree = m.field().e();
    let _rows = m.rows();
    m.clear_row(r);
    m.add_own(r, s, 1, 0);
    let _new_rows = m.rows();
    m.add_own(r, q, 1, 0);
}
