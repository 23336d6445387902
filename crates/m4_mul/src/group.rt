//! Products by tables: as many columns of the first factor at a time as all tables together take.

ghost use Rattle.std.specs.Prelude.{◌≡◌, ◌+◌, ◌*◌, ◌<◌, ◌≤◌};
ghost use Rattle.m4_model.specs.Additions.{additions};
ghost use Rattle.m4_model.specs.Matrix.{added, product};
ghost use Rattle.m4_mzd.specs.Window.{content, showing};
ghost use Rattle.m4_mzd.specs.Seen.{shown};
ghost use Rattle.m4_mul.specs.Parts.{IsFilled, HasSizes, with_part};

use crate::index::index_of;
use m4_gray::{MOST_TABLES, Tables};
use m4_mzd::{Steps, Win, WinMut};
use std::sync::ledger::Ledger;

/// Adds the product, as many columns of `a` at a time as all tables take.
pub(crate) fn add_groups<L: Ledger>(
    tables: &mut Tables,
    c: &mut WinMut,
    a: &Win,
    b: &Win,
    steps: &mut Steps<L>,
)
    requires rows { (shown a.now).rows ≡ c.old.rows }
    requires inner { (shown a.now).cols ≡ (shown b.now).rows }
    requires cols { (shown b.now).cols ≡ c.old.cols }
    requires reached { c.old.cols ≤ tables.old.entries.cols }
    ensures sum { c.new ≡ showing c.old (added (content c.old) (product (shown a.now) (shown b.now))) }
    ensures sizes { HasSizes tables.new tables.old }
    ensures ticks { steps.new ≡ steps.old + additions c.old.rows (shown a.now).cols tables.old.k }
{
    let _rows = c.rows();
    let most = tables.k() * tables.count();
    let end = b.rows();
    let mut first = 0;
    while first < end {
        let width = most.min(end - first);
        add_group(tables, c, a, b, first, width, steps);
        first += width;
    }
}

/// Adds the part of the product that the `width` columns of `a` from the first on make, no more than all tables take.
fn add_group<L: Ledger>(
    tables: &mut Tables,
    c: &mut WinMut,
    a: &Win,
    b: &Win,
    first: u32,
    width: u32,
    steps: &mut Steps<L>,
)
    requires some { 0 < width }
    requires few { width ≤ tables.old.k * tables.old.count }
    requires rows { (shown a.now).rows ≡ c.old.rows }
    requires cols { (shown b.now).cols ≡ c.old.cols }
    requires reached { c.old.cols ≤ tables.old.entries.cols }
    requires in_a { first + width ≤ (shown a.now).cols }
    requires in_b { first + width ≤ (shown b.now).rows }
    ensures sum { c.new ≡ showing c.old (with_part (content c.old) (shown a.now) (shown b.now) first width) }
    ensures sizes { HasSizes tables.new tables.old }
    ensures ticks { steps.new ≡ steps.old + additions c.old.rows width tables.old.k }
{
    let slots = fill_slots(tables, b, first, width, steps);
    add_slots(tables, c, a, b, first, width, slots, steps);
}

/// Adds the entries of so many slots, by the loop that is made for their number.
fn add_slots<L: Ledger>(
    tables: &Tables,
    c: &mut WinMut,
    a: &Win,
    b: &Win,
    first: u32,
    width: u32,
    slots: u32,
    steps: &mut Steps<L>,
)
    requires some { 1 ≤ slots }
    requires eight { slots ≤ MOST_TABLES }
    requires few { slots ≤ tables.now.count }
    requires enough { width ≤ slots * tables.now.k }
    requires no_more { slots * tables.now.k < width + tables.now.k }
    requires filled { IsFilled tables.now (shown b.now) first width slots }
    requires rows { (shown a.now).rows ≡ c.old.rows }
    requires cols { (shown b.now).cols ≡ c.old.cols }
    requires reached { c.old.cols ≤ tables.now.entries.cols }
    requires in_a { first + width ≤ (shown a.now).cols }
    requires in_b { first + width ≤ (shown b.now).rows }
    ensures sum { c.new ≡ showing c.old (with_part (content c.old) (shown a.now) (shown b.now) first width) }
    ensures ticks { steps.new ≡ steps.old + c.old.rows * slots }
{
    match slots {
        1 => add_entries::<1, L>(tables, c, a, b, first, width, steps),
        2 => add_entries::<2, L>(tables, c, a, b, first, width, steps),
        3 => add_entries::<3, L>(tables, c, a, b, first, width, steps),
        4 => add_entries::<4, L>(tables, c, a, b, first, width, steps),
        5 => add_entries::<5, L>(tables, c, a, b, first, width, steps),
        6 => add_entries::<6, L>(tables, c, a, b, first, width, steps),
        7 => add_entries::<7, L>(tables, c, a, b, first, width, steps),
        _ => add_entries::<8, L>(tables, c, a, b, first, width, steps),
    }
}

/// Fills a slot for each `k` of the rows of `b`, and one for those that are left over. The answer is how many.
fn fill_slots<L: Ledger>(
    tables: &mut Tables,
    b: &Win,
    first: u32,
    width: u32,
    steps: &mut Steps<L>,
) -> u32
    requires some { 0 < width }
    requires few { width ≤ tables.old.k * tables.old.count }
    requires in_cols { (shown b.now).cols ≤ tables.old.entries.cols }
    requires in_rows { first + width ≤ (shown b.now).rows }
    ensures some { 1 ≤ result }
    ensures few { result ≤ tables.old.count }
    ensures eight { result ≤ MOST_TABLES }
    ensures enough { width ≤ result * tables.old.k }
    ensures no_more { result * tables.old.k < width + tables.old.k }
    ensures filled { IsFilled tables.new (shown b.now) first width result }
    ensures sizes { HasSizes tables.new tables.old }
    ensures ticks { steps.new ≡ steps.old + additions 0 width tables.old.k }
{
    let k = tables.k();
    let _rows = b.rows();
    let mut slot = 0;
    while slot * k < width {
        let _cols = tables.cols();
        let begin = slot * k;
        tables.fill(slot, b, first + begin, k.min(width - begin), steps);
        slot += 1;
    }
    slot
}

/// Adds to each row of `c` the entry of each slot that its row of `a` names.
fn add_entries<const T: usize, L: Ledger>(
    tables: &Tables,
    c: &mut WinMut,
    a: &Win,
    b: &Win,
    first: u32,
    width: u32,
    steps: &mut Steps<L>,
)
    requires some { 1 ≤ T }
    requires few { T ≤ tables.now.count }
    requires enough { width ≤ T * tables.now.k }
    requires no_more { T * tables.now.k < width + tables.now.k }
    requires filled { IsFilled tables.now (shown b.now) first width T }
    requires rows { (shown a.now).rows ≡ c.old.rows }
    requires cols { (shown b.now).cols ≡ c.old.cols }
    requires reached { c.old.cols ≤ tables.now.entries.cols }
    requires in_a { first + width ≤ (shown a.now).cols }
    requires in_b { first + width ≤ (shown b.now).rows }
    ensures sum { c.new ≡ showing c.old (with_part (content c.old) (shown a.now) (shown b.now) first width) }
    ensures ticks { steps.new ≡ steps.old + c.old.rows * T }
{
    let k = tables.k();
    let _rows = a.rows();
    let _rows_of_b = b.rows();
    for i in 0..c.rows() {
        let index = index_of::<T>(a, i, first, width, k);
        tables.combine(c, i, &index, steps);
    }
}
