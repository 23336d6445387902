//! A table of sums, filled by doubling.

ghost use Rattle.std.specs.Prelude.{◌≡◌, ◌+◌, ◌^◌, ◌<◌, ◌≤◌};
ghost use Rattle.m4_model.specs.Matrix.{row};
ghost use Rattle.m4_mzd.specs.Window.{showing};
ghost use Rattle.m4_mzd.specs.Seen.{shown};
ghost use Rattle.m4_gray.specs.Slots.{doubled, each_added, subset_sums};

use crate::MOST_K;
use m4_mzd::{Steps, Win, WinMut};
use std::sync::ledger::Ledger;

/// Makes row `x` of `part` the sum of the rows `first + i` of `b` over the set bits `i` of `x`.
///
/// The empty sum comes first, and each row of `b` doubles the rows that are there: it is added to every one of them.
pub(crate) fn fill_with_sums<L: Ledger>(
    part: &mut WinMut,
    b: &Win,
    first: u32,
    bits: u32,
    steps: &mut Steps<L>,
)
    requires few { bits ≤ MOST_K }
    requires rows { part.old.rows ≡ 2 ^ bits }
    requires cols { part.old.cols ≡ (shown b.now).cols }
    requires in_rows { first + bits ≤ (shown b.now).rows }
    ensures sums { part.new ≡ showing part.old (subset_sums (shown b.now) first bits) }
    ensures ticks { steps.new + 1 ≡ steps.old + 2 ^ bits }
{
    let _rows = b.rows();
    let _rows_of_part = part.rows();
    part.clear_row(0);
    for bit in 0..bits {
        double(part, 1 << bit, b, first + bit, steps);
    }
}

/// Makes of the rows right below the first `filled`, and as many as these, the sums of these and of row `r` of `b`.
fn double<L: Ledger>(part: &mut WinMut, filled: u32, b: &Win, r: u32, steps: &mut Steps<L>)
    requires room { filled + filled ≤ part.old.rows }
    requires cols { part.old.cols ≡ (shown b.now).cols }
    requires in_rows { r < (shown b.now).rows }
    ensures doubled { part.new ≡ record part.old { bits = doubled filled (row (shown b.now) r) part.old.bits } }
    ensures ticks { steps.new ≡ steps.old + filled }
{
    let _rows = part.rows();
    let (above, below) = part.take().split_rows(filled);
    let (mut next, behind) = below.split_rows(filled);
    let _rows_of_next = next.rows();
    add_to_each(&mut next, &above.see(), b, r, steps);
    part.put_back(above.join_rows(next.join_rows(behind)));
}

/// Makes of each row of `dst` the sum of the same row of `a` and of row `r` of `b`.
fn add_to_each<L: Ledger>(dst: &mut WinMut, a: &Win, b: &Win, r: u32, steps: &mut Steps<L>)
    requires rows { (shown a.now).rows ≡ dst.old.rows }
    requires cols { (shown a.now).cols ≡ dst.old.cols }
    requires same_cols { (shown b.now).cols ≡ dst.old.cols }
    requires in_rows { r < (shown b.now).rows }
    ensures sums { dst.new ≡ record dst.old { bits = each_added (row (shown b.now) r) (shown a.now).entries } }
    ensures ticks { steps.new ≡ steps.old + dst.old.rows }
{
    let _rows = a.rows();
    for x in 0..dst.rows() {
        dst.set_sum(x, a, x, b, r);
        steps.tick();
    }
}
