//! The elimination of strips of columns by tables of multiples, as a base over extension fields.

ghost use Rattle.std.specs.Prelude.{◌≡◌, ◌⊎◌, ℕ, ◌+◌, ◌<◌, ◌≤◌, ◌^◌, length, take, slice_index, IfOk};
ghost use Rattle.m4_model.specs.Matrix.{at, row};
ghost use Rattle.m4_model.specs.Shapes.{swaps};
ghost use Rattle.m4_field.specs.Fields.{the_field};
ghost use Rattle.m4_mzed.specs.EWindow.{content, showing};
ghost use Rattle.m4_mzed.specs.ESeen.{e_shown};
ghost use Rattle.m4_perm.specs.Perm.{AreSwaps};
ghost use Rattle.m4_ple.specs.Elimination.{cleared};
ghost use Rattle.m4_ple.specs.Held.{HoldsPle};
ghost use Rattle.m4_eple.specs.Clearing.{IsClearing};

use crate::base::Base;
use m4_field::Field;
use m4_model::NoMemory;
use m4_mzd::{Rect, Steps};
use m4_mzed::{EWin, EWinMut, Mzed};
use m4_newton::NjTable;
use m4_ple::{ByRows, ClearBelow, ple_by_columns, ple_plain};
use std::alloc::Global;
use std::marker::{Brand, Model};
use std::sync::ledger::{Blank, Ledger};

/// How many columns a strip has: the multiples of a row of it stay in the first-level cache, and most of the work beside it
/// is the engine's.
const STRIP: u32 = 64;

/// With fewer rows below a pivot a table doesn't pay, and they are cleared row by row.
const FEW_ROWS: u32 = 32;

/// The elimination of windows over one field by tables: all multiples of a pivot's row are made once, and one of them is
/// added to each row below it, in one pass. The row is scaled so that the multiple's number is the entry which it clears, and
/// has the pivot's inverse in it so that the factor is left behind. This is Gaussian elimination by Newton-John tables: M. Albrecht, "The M4RIE library
/// for dense linear algebra over small fields with even characteristic" (2012), section 3. Windows of more than 64 columns
/// are eliminated row by row.
#[derive(Drop)]
pub struct ByTables {
    table: NjTable,
    row: Mzed,
}

impl Model for ByTables {
    ghost use Rattle.m4_model.specs.Field.{Field};
    ghost use Rattle.m4_eple.specs.Clearing.{AreTables};

    ghost Value = { Field };

    ghost view = { λ b. b.table.field };

    ghost invariant = { λ b. AreTables b.table b.row };
}

impl ByTables {
    /// The base for windows over this field. It refuses nothing, but memory may be wanting: it takes a table of 64 columns, which
    /// has at most 512 rows.
    pub fn new(alloc: Global, field: Field) -> Result<ByTables, NoMemory>
        ensures { IfOk result (λ base. base ≡ the_field field) }
    {
        let _width = field.width();
        Ok(ByTables {
            table: NjTable::new(alloc, field, STRIP)?,
            row: Mzed::zeros(alloc, field, 1, STRIP)?,
        })
    }
}

impl Base for ByTables {
    ghost use Rattle.std.specs.Prelude.{◌≡◌};

    ghost IsFor = { λ b F. F ≡ b };

    fn strip(&self) -> u32 {
        STRIP
    }

    fn ple(&mut self, a: &mut EWinMut, p: &mut [u32], q: &mut [u32]) -> u32 {
        let _cols = a.cols();
        ple_by_tables(a, self, p, q)
    }
}

/// Factors the window as P L E in its own place, by tables where it is narrow enough, and answers its rank r.
fn ple_by_tables(a: &mut EWinMut, base: &mut ByTables, p: &mut [u32], q: &mut [u32]) -> u32
    requires for_field { a.old.field ≡ base.old }
    requires exchanges { length p.old ≡ a.old.rows }
    requires pivots { (length q.old ≡ a.old.rows) ⊎ (a.old.cols ≤ length q.old) }
    ensures kept { a.new ≡ showing a.old (content a.new) }
    ensures exchanges { AreSwaps a.old.rows p.new }
    ensures all { length p.new ≡ length p.old }
    ensures stay { (i : ℕ) → result ≤ i → i < a.old.rows → slice_index p.new i ≡ i }
    ensures room { length q.new ≡ length q.old }
    ensures rank { result ≤ length q.new }
    ensures factors { HoldsPle (content a.old) (swaps a.old.rows p.new) (take result q.new) (content a.new) }
    ensures same { base.new ≡ base.old }
{
    if STRIP < a.cols() {
        return ple_plain(a, p, q);
    }
    ple_by_columns(a, p, q, base)
}

impl ClearBelow for ByTables {
    ghost use Rattle.std.specs.Prelude.{◌≡◌, ◌≤◌};

    ghost Serves = { λ b F cols. (F ≡ b) × (cols ≤ 64) };

    fn clear_below(&mut self, a: &mut EWinMut, r: u32, c: u32, inverse: u32) {
        if a.rows() - r <= FEW_ROWS {
            let mut rows = ByRows;
            return rows.clear_below(a, r, c, inverse);
        }
        let _rows = self.row.rows();
        fill_from(&mut self.table, &mut self.row, &a.see(), r, c, inverse);
        clear_by_table(&self.table, a, r, c);
    }
}

/// Fills the table from row `r` of the window, whose pivot in column `c` has this inverse. `spare` is a row to work in.
fn fill_from(table: &mut NjTable, spare: &mut Mzed, a: &EWin, r: u32, c: u32, inverse: u32)
    requires field { (e_shown a.now).field ≡ table.old.field }
    requires spare_field { spare.old.field ≡ table.old.field }
    requires one_row { spare.old.rows ≡ 1 }
    requires room { (e_shown a.now).cols ≤ spare.old.cols }
    requires cols { (e_shown a.now).cols ≤ table.old.cols }
    requires in_rows { r < (e_shown a.now).rows }
    requires in_cols { c < (e_shown a.now).cols }
    requires behind { r ≤ c }
    requires element { inverse < 2 ^ (e_shown a.now).field.degree }
    ensures clearing { IsClearing (e_shown a.now).field inverse r c (row (e_shown a.now) r) table.new.row }
    ensures long { length table.new.row ≡ (e_shown a.now).cols }
    ensures field { table.new.field ≡ table.old.field }
    ensures cols { table.new.cols ≡ table.old.cols }
    ensures spare_field { spare.new.field ≡ spare.old.field }
    ensures spare_rows { spare.new.rows ≡ spare.old.rows }
    ensures spare_cols { spare.new.cols ≡ spare.old.cols }
{
    let _rows = a.rows();
    let rect = Rect {
        r0: 0,
        c0: 0,
        r1: 1,
        c1: a.cols(),
    };
    let (mut part, around) = spare.win_mut(rect);
    put_clearing(&mut part, a, r, c, inverse);
    fill_uncounted::<Brand>(table, &part.see(), Blank::new(1));
    spare.put_win(part, around);
}

/// Makes the one row of a window that whose multiples clear column `c` and leave the factors in column `r`, of row `r` of `a`,
/// whose pivot in column `c` has this inverse.
fn put_clearing(part: &mut EWinMut, a: &EWin, r: u32, c: u32, inverse: u32)
    requires one_row { part.old.rows ≡ 1 }
    requires same_cols { (e_shown a.now).cols ≡ part.old.cols }
    requires same_field { (e_shown a.now).field ≡ part.old.field }
    requires in_rows { r < (e_shown a.now).rows }
    requires in_cols { c < part.old.cols }
    requires behind { r ≤ c }
    requires element { inverse < 2 ^ part.old.field.degree }
    ensures kept { part.new ≡ showing part.old (content part.new) }
    ensures clearing { IsClearing part.old.field inverse r c (row (e_shown a.now) r) (row (content part.new) 0) }
{
    let _rows = part.rows();
    let _rows_of_a = a.rows();
    part.clear_row(0);
    part.add_tail(0, a, r, inverse, c + 1);
    part.put(0, c, 1);
    let held = part.get(0, r);
    part.put(0, r, held ^ inverse);
}

/// Fills the table from the window's first row, with a count of steps that no one reads.
fn fill_uncounted<L: Ledger>(table: &mut NjTable, from: &EWin, blank: Blank)
    requires name { blank.name ≡ L.name }
    requires parts { blank.parts ≡ L.parts }
    requires one { blank.parts ≡ 1 }
    requires field { (e_shown from.now).field ≡ table.old.field }
    requires cols { (e_shown from.now).cols ≤ table.old.cols }
    requires some { 0 < (e_shown from.now).rows }
    ensures { table.new ≡ record table.old { row = row (e_shown from.now) 0 } }
{
    let mut steps = Steps::<L>::new(blank);
    table.fill(from, 0, &mut steps);
}

/// Clears column `c` below row `r` by the multiples in the table, which is filled from that row, and leaves the factors in
/// column `r`.
fn clear_by_table(table: &NjTable, a: &mut EWinMut, r: u32, c: u32)
    requires field { a.old.field ≡ table.now.field }
    requires long { length table.now.row ≡ a.old.cols }
    requires in_rows { r < a.old.rows }
    requires in_cols { c < a.old.cols }
    requires behind { r ≤ c }
    requires blank { (i : ℕ) → r < i → i < a.old.rows → r < c → at (content a.old) i r ≡ 0 }
    ensures { (inverse : ℕ) → IsClearing a.old.field inverse r c (row (content a.old) r) table.now.row → a.new ≡ showing a.old (cleared inverse r c a.old.rows (content a.old)) }
{
    let _cols = a.cols();
    for i in r + 1..a.rows() {
        let entry = a.get(i, c);
        table.add_multiple(a, i, entry);
    }
}
