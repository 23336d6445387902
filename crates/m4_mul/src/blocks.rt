//! Products block by block: a block of the window and a panel of the first factor are copied to where their rows lie side
//! by side, and the product is made there. The tables of a block's columns stay in the second-level cache while they are
//! added to all its rows: Albrecht, Bard and Hart, Efficient multiplication of dense matrices over GF(2), ACM Transactions
//! on Mathematical Software 37, 2010. That copied blocks save translations of addresses too is told by Goto and van de
//! Geijn, Anatomy of high-performance matrix multiplication, in volume 34 of the same, 2008.

ghost use Rattle.std.specs.Prelude.{◌≡◌, ◌+◌, ◌%◌, ◌^◌, ◌<◌, ◌≤◌};
ghost use Rattle.m4_model.specs.Matrix.{added, product};
ghost use Rattle.m4_mzd.specs.Window.{content, showing};
ghost use Rattle.m4_mzd.specs.Seen.{shown};
ghost use Rattle.m4_mul.specs.Parts.{HasSizes, with_part};

use crate::group::add_groups;
use crate::packed::Packed;
use m4_gray::Tables;
use m4_mzd::{MOST_SIDE, Mzd, Rect, Steps, Win, WinMut};
use std::sync::ledger::Ledger;

/// Adds the product, by blocks of so many columns and rows as there is room for.
pub(crate) fn add_in_blocks<L: Ledger>(
    packed: &mut Packed,
    c: &mut WinMut,
    a: &Win,
    b: &Win,
    steps: &mut Steps<L>,
)
    requires rows { (shown a.now).rows ≡ c.old.rows }
    requires inner { (shown a.now).cols ≡ (shown b.now).rows }
    requires cols { (shown b.now).cols ≡ c.old.cols }
    ensures sum { c.new ≡ showing c.old (added (content c.old) (product (shown a.now) (shown b.now))) }
    ensures same { packed.new ≡ packed.old }
{
    if c.cols() <= packed.cols() {
        add_by_rows(packed, c, a, b, steps);
        return;
    }
    let _a = a.rows();
    let _b = b.rows();
    let middle = middle(c.cols(), packed.cols());
    let (first, others) = b.split_cols(middle);
    let (_first, _others) = (first.rows(), others.rows());
    let (mut left, mut right) = c.take().split_cols(middle);
    let (_left, _right) = (left.cols(), right.cols());
    add_in_blocks(packed, &mut left, a, &first, steps);
    add_in_blocks(packed, &mut right, a, &others, steps);
    let (_left, _right) = (left.cols(), right.cols());
    c.put_back(left.join_cols(right));
}

/// Where entries are cut that take more than one block: after about half of the blocks.
fn middle(length: u32, block: u32) -> u32
    requires some { 1 ≤ block }
    requires more { block < length }
    requires few { length ≤ MOST_SIDE }
    ensures some { 0 < result }
    ensures less { result < length }
    ensures whole_words { block % 64 ≡ 0 → result % 64 ≡ 0 }
{
    ((length - 1) / block + 1) / 2 * block
}

/// Adds a product of no more columns than a block has, by blocks of so many rows as there is room for.
fn add_by_rows<L: Ledger>(
    packed: &mut Packed,
    c: &mut WinMut,
    a: &Win,
    b: &Win,
    steps: &mut Steps<L>,
)
    requires rows { (shown a.now).rows ≡ c.old.rows }
    requires inner { (shown a.now).cols ≡ (shown b.now).rows }
    requires cols { (shown b.now).cols ≡ c.old.cols }
    requires narrow { c.old.cols ≤ packed.old.cols }
    ensures sum { c.new ≡ showing c.old (added (content c.old) (product (shown a.now) (shown b.now))) }
    ensures same { packed.new ≡ packed.old }
{
    if c.rows() <= packed.rows() {
        add_block(packed, c, a, b, steps);
        return;
    }
    let _a = a.rows();
    let _b = b.rows();
    let middle = middle(c.rows(), packed.rows());
    let (first, others) = a.split_rows(middle);
    let (_first, _others) = (first.rows(), others.rows());
    let (mut top, mut bottom) = c.take().split_rows(middle);
    let (_top, _bottom) = (top.rows(), bottom.rows());
    add_by_rows(packed, &mut top, &first, b, steps);
    add_by_rows(packed, &mut bottom, &others, b, steps);
    let (_top, _bottom) = (top.rows(), bottom.rows());
    c.put_back(top.join_rows(bottom));
}

/// Adds a product no larger than a block, in a copy of the window.
fn add_block<L: Ledger>(packed: &mut Packed, c: &mut WinMut, a: &Win, b: &Win, steps: &mut Steps<L>)
    requires rows { (shown a.now).rows ≡ c.old.rows }
    requires inner { (shown a.now).cols ≡ (shown b.now).rows }
    requires cols { (shown b.now).cols ≡ c.old.cols }
    requires narrow { c.old.cols ≤ packed.old.cols }
    requires low { c.old.rows ≤ packed.old.rows }
    ensures sum { c.new ≡ showing c.old (added (content c.old) (product (shown a.now) (shown b.now))) }
    ensures same { packed.new ≡ packed.old }
{
    let rect = Rect {
        r0: 0,
        c0: 0,
        r1: c.rows(),
        c1: c.cols(),
    };
    let (mut part, around) = packed.block.win_mut(rect);
    part.copy_rows(&c.see());
    add_panels(
        &mut packed.tables,
        &mut packed.panel,
        &mut part,
        a,
        b,
        steps,
    );
    c.copy_rows(&part.see());
    packed.block.put_win(part, around);
}

/// Adds the product, by panels of so many columns of the first factor as there is room for.
fn add_panels<L: Ledger>(
    tables: &mut Tables,
    panel: &mut Mzd,
    c: &mut WinMut,
    a: &Win,
    b: &Win,
    steps: &mut Steps<L>,
)
    requires rows { (shown a.now).rows ≡ c.old.rows }
    requires inner { (shown a.now).cols ≡ (shown b.now).rows }
    requires cols { (shown b.now).cols ≡ c.old.cols }
    requires reached { c.old.cols ≤ tables.old.entries.cols }
    requires room { c.old.rows ≤ panel.old.rows }
    requires some { 1 ≤ panel.old.cols }
    requires whole_words { panel.old.cols % 64 ≡ 0 }
    ensures sum { c.new ≡ showing c.old (added (content c.old) (product (shown a.now) (shown b.now))) }
    ensures sizes { HasSizes tables.new tables.old }
    ensures panel_rows { panel.new.rows ≡ panel.old.rows }
    ensures panel_cols { panel.new.cols ≡ panel.old.cols }
{
    let _rows = c.rows();
    let most = panel.cols();
    let end = b.rows();
    let mut first = 0;
    while first < end {
        let width = most.min(end - first);
        add_panel(tables, panel, c, a, b, first, width, steps);
        first += width;
    }
}

/// Adds the part of the product that the `width` columns of `a` from the first on make, in a copy of these columns.
fn add_panel<L: Ledger>(
    tables: &mut Tables,
    panel: &mut Mzd,
    c: &mut WinMut,
    a: &Win,
    b: &Win,
    first: u32,
    width: u32,
    steps: &mut Steps<L>,
)
    requires rows { (shown a.now).rows ≡ c.old.rows }
    requires cols { (shown b.now).cols ≡ c.old.cols }
    requires reached { c.old.cols ≤ tables.old.entries.cols }
    requires room { c.old.rows ≤ panel.old.rows }
    requires few { width ≤ panel.old.cols }
    requires whole_words { first % 64 ≡ 0 }
    requires in_a { first + width ≤ (shown a.now).cols }
    requires in_b { first + width ≤ (shown b.now).rows }
    ensures sum { c.new ≡ showing c.old (with_part (content c.old) (shown a.now) (shown b.now) first width) }
    ensures sizes { HasSizes tables.new tables.old }
    ensures panel_rows { panel.new.rows ≡ panel.old.rows }
    ensures panel_cols { panel.new.cols ≡ panel.old.cols }
{
    let _a = a.rows();
    let _b = b.rows();
    let (_, behind) = a.split_cols(first);
    let (_, below) = b.split_rows(first);
    let (rows, _) = below.split_rows(width);
    let rect = Rect {
        r0: 0,
        c0: 0,
        r1: c.rows(),
        c1: width,
    };
    let (mut part, around) = panel.win_mut(rect);
    part.copy_rows(&behind.narrow(width));
    add_groups(tables, c, &part.see(), &rows, steps);
    panel.put_win(part, around);
}
