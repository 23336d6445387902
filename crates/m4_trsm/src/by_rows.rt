//! Solves row by row, for triangles that are small.

ghost use Rattle.std.specs.Prelude.{◌≡◌, ◌<◌};
ghost use Rattle.m4_model.specs.Matrix.{product, row, with_row};
ghost use Rattle.m4_mzed.specs.EWindow.{content, showing};
ghost use Rattle.m4_mzed.specs.ESeen.{e_shown};
ghost use Rattle.m4_trsm.specs.Triangles.{unit_triangle};
ghost use Rattle.m4_trsm.specs.ByRows.{place, rises_on_left, rises_on_right, SolvesRow};

use crate::rows_of_left::take_row_out;
use crate::rows_of_right::take_entry_out;
use crate::side::Side;
use m4_mzed::{EWin, EWinMut};

/// `b` becomes the X with T X = b.
pub fn solve_left(side: Side, t: &EWin, b: &mut EWinMut)
    requires square { (e_shown t.now).rows ≡ (e_shown t.now).cols }
    requires fits { (e_shown t.now).rows ≡ b.old.rows }
    requires field { (e_shown t.now).field ≡ b.old.field }
    ensures solved { product (unit_triangle side (e_shown t.now)) (content b.new) ≡ content b.old }
    ensures stays { b.new ≡ showing b.old (content b.new) }
{
    let _rows_of_t = t.rows();
    let rows = b.rows();
    for step in 0..rows {
        take_row_out(side, t, b, place(rises_on_left(side), rows, step));
    }
    let _rows_after = b.rows();
}

/// `b` becomes the X with X T = b.
pub fn solve_right(side: Side, t: &EWin, b: &mut EWinMut)
    requires square { (e_shown t.now).rows ≡ (e_shown t.now).cols }
    requires fits { (e_shown t.now).cols ≡ b.old.cols }
    requires field { (e_shown t.now).field ≡ b.old.field }
    ensures solved { product (content b.new) (unit_triangle side (e_shown t.now)) ≡ content b.old }
    ensures stays { b.new ≡ showing b.old (content b.new) }
{
    let _rows_of_t = t.rows();
    let _rows = b.rows();
    for r in 0..b.rows() {
        solve_row(side, t, b, r);
    }
    let _rows_after = b.rows();
}

/// Row `r` becomes the x with x T = that row.
fn solve_row(side: Side, t: &EWin, b: &mut EWinMut, r: u32)
    requires square { (e_shown t.now).rows ≡ (e_shown t.now).cols }
    requires fits { (e_shown t.now).cols ≡ b.old.cols }
    requires in_rows { r < b.old.rows }
    requires field { (e_shown t.now).field ≡ b.old.field }
    ensures solved { SolvesRow side (e_shown t.now) (row (content b.old) r) (row (content b.new) r) }
    ensures stays { b.new ≡ showing b.old (with_row (content b.old) r (row (content b.new) r)) }
{
    let _rows_of_t = t.rows();
    let cols = b.cols();
    for step in 0..cols {
        take_entry_out(side, t, b, r, place(rises_on_right(side), cols, step));
    }
    let _rows_after = b.rows();
}

/// Whether a triangle on the left is solved from its first row on.
fn rises_on_left(side: Side) -> bool
    ensures { result ≡ rises_on_left side }
{
    match side {
        Side::Lower => true,
        Side::Upper => false,
    }
}

/// Whether a triangle on the right is solved from its first column on.
fn rises_on_right(side: Side) -> bool
    ensures { result ≡ rises_on_right side }
{
    match side {
        Side::Lower => false,
        Side::Upper => true,
    }
}

/// The place that comes after so many of `count`, from the first on or from the last on.
fn place(rising: bool, count: u32, step: u32) -> u32
    requires { step < count }
    ensures { result ≡ place rising count step }
{
    if rising { step } else { count - 1 - step }
}
