//! The engine that multiplies by tables of the sums of a few rows.

ghost use Rattle.std.specs.Prelude.{◌≡◌, ◌+◌, ◌*◌, ◌^◌, ◌≤◌, IfOk};
ghost use Rattle.m4_model.specs.Additions.{additions};
ghost use Rattle.m4_model.specs.Matrix.{added, product};
ghost use Rattle.m4_mzd.specs.Window.{content, showing};
ghost use Rattle.m4_mzd.specs.Seen.{shown};

use crate::blocks::add_in_blocks;
use crate::group::add_groups;
use crate::packed::{Blocks, Packed};
use m4_gray::{MOST_K, MOST_TABLES, Tables};
use m4_model::NoMemory;
use m4_mzd::{AddMul, MOST_SIDE, Shape, Steps, Win, WinMut};
use std::alloc::Global;
use std::marker::{Brand, Model};
use std::sync::ledger::{Blank, Ledger};

/// The most columns whose tables the second-level cache holds: past them a product goes block by block.
const WIDE: u32 = 2048;

/// The most columns of the first factor for which a block isn't worth its copies.
const DEEP: u32 = 512;

/// The engine that takes `k` columns of the first factor at a time, for `k` from 1 to 8: all sums of the `k` rows of the
/// second stand in a table, and each row of the window gets one of them. Of up to eight tables an entry each is added in
/// one pass: Albrecht, Bard and Hart, Efficient multiplication of dense matrices over GF(2), ACM Transactions on
/// Mathematical Software 37, 2010.
///
/// Products with more than 2,048 columns go block by block, as there: a block of the window and a panel of the first factor
/// are copied to room of the engine's own, where their rows lie side by side, and only the tables of a block's columns are
/// in use at a time. An engine for fewer columns reserves no such room. `addmul_counted` takes whole rows at any size, so
/// that each sum is counted once.
#[derive(Drop)]
pub struct Table {
    tables: Tables,
    packed: Option<Packed>,
}

impl Model for Table {
    ghost use Rattle.m4_mul.specs.Sizes.{Sizes};

    ghost Value = { Sizes };

    ghost view = { λ t. record { cols = t.tables.entries.cols; k = t.tables.k; tables = t.tables.count } };
}

impl Table {
    /// The engine for products of up to `cols` columns, with so many tables of `2^k` entries.
    pub fn new(alloc: Global, cols: u32, k: u32, tables: u32) -> Result<Table, NoMemory>
        requires few_cols { cols ≤ MOST_SIDE }
        requires some_k { 1 ≤ k }
        requires small_k { k ≤ MOST_K }
        requires some_tables { 1 ≤ tables }
        requires few_tables { tables ≤ MOST_TABLES }
        ensures { IfOk result (λ t. t ≡ record { cols = cols; k = k; tables = tables }) }
    {
        let packed = packed_for(alloc, cols, k, tables)?;
        let tables = Tables::new(alloc, cols, k, tables)?;
        Ok(Table { tables, packed })
    }

    /// Adds `a` times `b` to `c`, and counts the additions of rows.
    pub fn addmul_counted<L: Ledger>(
        &mut self,
        c: &mut WinMut,
        a: &Win,
        b: &Win,
        steps: &mut Steps<L>,
    )
        requires rows { (shown a.now).rows ≡ c.old.rows }
        requires inner { (shown a.now).cols ≡ (shown b.now).rows }
        requires cols { (shown b.now).cols ≡ c.old.cols }
        requires reached { c.old.cols ≤ self.old.cols }
        ensures sum { c.new ≡ showing c.old (added (content c.old) (product (shown a.now) (shown b.now))) }
        ensures same { self.new ≡ self.old }
        ensures ticks { steps.new ≡ steps.old + additions c.old.rows (shown a.now).cols self.old.k }
    {
        add_groups(&mut self.tables, c, a, b, steps);
    }
}

impl AddMul for Table {
    ghost use Rattle.m4_mzd.specs.declared.TheConstants.{MOST_SIDE};

    ghost limits = { λ t. record { m = MOST_SIDE; l = MOST_SIDE; n = t.cols } };

    fn reach(&self) -> Shape {
        Shape {
            m: MOST_SIDE,
            l: MOST_SIDE,
            n: self.tables.cols(),
        }
    }

    fn addmul(&mut self, c: &mut WinMut, a: &Win, b: &Win) {
        add_product::<Brand>(self, c, a, b, Blank::new(1));
    }
}

/// The room for products block by block, where an engine for so many columns has use for it.
fn packed_for(alloc: Global, cols: u32, k: u32, tables: u32) -> Result<Option<Packed>, NoMemory>
    requires few_cols { cols ≤ MOST_SIDE }
    requires some_k { 1 ≤ k }
    requires small_k { k ≤ MOST_K }
    requires some_tables { 1 ≤ tables }
    requires few_tables { tables ≤ MOST_TABLES }
{
    if cols <= WIDE {
        return Ok(None);
    }
    let packed = Packed::new(alloc, Blocks::for_cols(cols), k, tables)?;
    Ok(Some(packed))
}

/// Adds the product with a count of additions that no one reads.
fn add_product<L: Ledger>(table: &mut Table, c: &mut WinMut, a: &Win, b: &Win, blank: Blank)
    requires name { blank.name ≡ L.name }
    requires parts { blank.parts ≡ L.parts }
    requires one { blank.parts ≡ 1 }
    requires rows { (shown a.now).rows ≡ c.old.rows }
    requires inner { (shown a.now).cols ≡ (shown b.now).rows }
    requires cols { (shown b.now).cols ≡ c.old.cols }
    requires reached { c.old.cols ≤ table.old.cols }
    ensures sum { c.new ≡ showing c.old (added (content c.old) (product (shown a.now) (shown b.now))) }
    ensures same { table.new ≡ table.old }
{
    let mut steps = Steps::<L>::new(blank);
    let in_blocks = c.cols() > WIDE && a.cols() > DEEP;
    match &mut table.packed {
        Some(packed) if in_blocks => add_in_blocks(packed, c, a, b, &mut steps),
        _ => add_groups(&mut table.tables, c, a, b, &mut steps),
    }
}
