//! All multiples of a row, in a table.

ghost use Rattle.std.specs.Prelude.{◌≡◌, ◌*◌, ◌+◌, ◌^◌, ◌<◌, ◌≤◌, [], IfOk, length};
ghost use Rattle.m4_model.specs.Field.{width};
ghost use Rattle.m4_model.specs.Matrix.{row, row_sum, with_row};
ghost use Rattle.m4_field.specs.Fields.{the_field};
ghost use Rattle.m4_mzed.specs.EWindow.{content, showing};
ghost use Rattle.m4_mzed.specs.ESeen.{e_shown};
ghost use Rattle.m4_mzed.specs.Rows.{multiples};
ghost use Rattle.m4_newton.specs.Entries.{AreBoth};
ghost use Rattle.m4_newton.specs.NjTables.{entries_for};

use crate::entries::put_entries;
use m4_field::Field;
use m4_model::NoMemory;
use m4_mzd::{MOST_SIDE, Rect, Steps};
use m4_mzed::{EWin, EWinMut, Mzed};
use std::alloc::Global;
use std::marker::Model;
use std::sync::ledger::Ledger;

/// The bits of a factor that the first entries are numbered by.
const LOW: u32 = 8;

/// A table of all multiples of one row: Albrecht, The M4RIE library for dense linear algebra over small fields with even
/// characteristic, ISSAC 2012, who calls it a Newton-John table.
///
/// The multiples by powers of x are made by products, and each other one is the sum of two. Over a field of a degree above 8
/// one part of the table has the multiples by the elements of 8 bits, and another those by the rest of an element.
#[derive(Drop)]
pub struct NjTable {
    entries: Mzed,
    filled: u32,
}

impl Model for NjTable {
    ghost use Rattle.m4_newton.specs.NjTables.{Filled, IsNjTable, filled_of};

    ghost Value = { Filled };

    ghost view = { λ t. filled_of t.entries t.filled };

    ghost invariant = { λ t. IsNjTable t.entries t.filled };
}

impl NjTable {
    /// A table for rows of up to `cols` columns over this field, filled from none.
    pub fn new(alloc: Global, field: Field, cols: u32) -> Result<NjTable, NoMemory>
        requires few_bits { cols * width (the_field field) ≤ MOST_SIDE }
        ensures { IfOk result (λ t. t ≡ record { field = the_field field; cols = cols; row = [] }) }
    {
        let entries = Mzed::zeros(alloc, field, entries_of(&field), cols)?;
        Ok(NjTable { entries, filled: 0 })
    }

    /// Makes the table that of all multiples of row `r` of `b`. Takes a step.
    pub fn fill<L: Ledger>(&mut self, b: &EWin, r: u32, steps: &mut Steps<L>)
        requires field { (e_shown b.now).field ≡ self.old.field }
        requires cols { (e_shown b.now).cols ≤ self.old.cols }
        requires in_rows { r < (e_shown b.now).rows }
        ensures filled { self.new ≡ record self.old { row = row (e_shown b.now) r } }
        ensures ticks { steps.new ≡ steps.old + 1 }
    {
        let _rows_of_b = b.rows();
        let _rows = self.entries.rows();
        let rect = Rect {
            r0: 0,
            c0: 0,
            r1: self.entries.rows(),
            c1: b.cols(),
        };
        let (mut part, around) = self.entries.win_mut(rect);
        put_both(&mut part, b, r);
        self.entries.put_win(part, around);
        self.filled = b.cols();
        steps.tick();
    }

    /// Adds `x` times the row that the table is filled from to row `r` of `dst`, in one pass. All else stays.
    pub fn add_multiple(&self, dst: &mut EWinMut, r: u32, x: u32)
        requires field { dst.old.field ≡ self.now.field }
        requires cols { length self.now.row ≡ dst.old.cols }
        requires in_rows { r < dst.old.rows }
        requires element { x < 2 ^ dst.old.field.degree }
        ensures { dst.new ≡ showing dst.old (with_row (content dst.old) r (row_sum (row (content dst.old) r) (multiples dst.old.field x self.now.row))) }
    {
        let _rows = dst.rows();
        let _all = self.entries.rows();
        let entries = self.entries.all().narrow(self.filled);
        let _entries = entries.rows();
        let field = self.entries.field();
        if field.e() <= LOW {
            dst.add_multiple(r, &entries, x, 1);
        } else {
            dst.add_both(r, &entries, x % 256, &entries, 256 + x / 256);
        }
    }
}

/// How many entries a table over this field has.
fn entries_of(field: &Field) -> u32
    ensures entries { result ≡ entries_for (the_field field.now).degree }
    ensures few { result ≤ 512 }
{
    let degree = field.e();
    if degree <= LOW {
        1 << degree
    } else {
        256 + (1 << (degree - LOW))
    }
}

/// Makes the rows of a table's window the entries for row `r` of `b`.
fn put_both(m: &mut EWinMut, b: &EWin, r: u32)
    requires rows { m.old.rows ≡ entries_for m.old.field.degree }
    requires same_cols { (e_shown b.now).cols ≡ m.old.cols }
    requires same_field { (e_shown b.now).field ≡ m.old.field }
    requires in_rows { r < (e_shown b.now).rows }
    ensures { AreBoth m.old m.new (row (e_shown b.now) r) }
{
    let degree = m.field().e();
    if degree <= LOW {
        put_entries(m, 0, b, r, 0, degree);
    } else {
        put_entries(m, 0, b, r, 0, LOW);
        put_entries(m, 256, b, r, LOW, degree - LOW);
    }
}
