//! Slices that own their memory.

ghost use Rattle.std.specs.Prelude.{◌≡◌, ◌*◌, ◌<◌, ◌≤◌, IfOk};
ghost use Rattle.m4_model.specs.Matrix.{added, zero_matrix};
ghost use Rattle.m4_field.specs.Fields.{the_field};
ghost use Rattle.m4_mzd.specs.Seen.{shown};
ghost use Rattle.m4_mzed.specs.EWindow.{content, showing};
ghost use Rattle.m4_mzed.specs.ESeen.{e_shown};
ghost use Rattle.m4_slice.specs.Sliced.{slice_of};

use crate::join::add_slices;
use crate::load::load_slices;
use m4_field::Field;
use m4_model::NoMemory;
use m4_mzd::{MOST_SIDE, Mzd, Rect, Win};
use m4_mzed::{EWin, EWinMut};
use std::alloc::Global;
use std::marker::Model;

/// A matrix over GF(2) or GF(2^e) as its slices: one matrix over GF(2) for each bit of the elements. The slices lie one below the
/// other, with at most 2^24 rows in all, and own their words.
#[derive(Drop)]
pub struct Slices {
    field: Field,
    rows: u32,
    bits: Mzd,
}

impl Model for Slices {
    ghost use Rattle.std.specs.Prelude.{◌≡◌, ◌*◌};
    ghost use Rattle.m4_model.specs.Matrix.{Matrix};
    ghost use Rattle.m4_field.specs.Fields.{the_field};
    ghost use Rattle.m4_slice.specs.Sliced.{joined};

    ghost Value = { Matrix };

    ghost view = { λ s. joined (the_field s.field) s.field.degree s.rows s.bits };

    ghost invariant = { λ s. s.bits.rows ≡ s.field.degree * s.rows };
}

impl Slices {
    /// The slices of the matrix of zeros of so many rows and columns.
    pub fn zeros(alloc: Global, field: Field, rows: u32, cols: u32) -> Result<Slices, NoMemory>
        requires few_rows { (the_field field).degree * rows ≤ MOST_SIDE }
        requires few_cols { cols ≤ MOST_SIDE }
        ensures { IfOk result (λ s. s ≡ zero_matrix (the_field field) rows cols) }
    {
        let bits = Mzd::zeros(alloc, field.e() * rows, cols)?;
        Ok(Slices { field, rows, bits })
    }

    /// The slices of the matrix that a window shows.
    pub fn from_packed(alloc: Global, a: &EWin) -> Result<Slices, NoMemory>
        requires few_rows { (e_shown a.now).field.degree * (e_shown a.now).rows ≤ MOST_SIDE }
        requires few_cols { (e_shown a.now).cols ≤ MOST_SIDE }
        ensures { IfOk result (λ s. s ≡ e_shown a.now) }
    {
        let mut slices = Slices::zeros(alloc, a.field(), a.rows(), a.cols())?;
        slices.load(a);
        Ok(slices)
    }

    /// How many rows the matrix has.
    pub fn rows(&self) -> u32
        ensures { result ≡ self.now.rows }
    {
        self.rows
    }

    /// How many columns the matrix has.
    pub fn cols(&self) -> u32
        ensures { result ≡ self.now.cols }
    {
        self.bits.cols()
    }

    /// The field.
    pub fn field(&self) -> Field
        ensures { the_field result ≡ self.now.field }
    {
        self.field
    }

    /// Takes the matrix over that a window of the same shape over the same field shows. Takes no memory.
    pub fn load(&mut self, a: &EWin)
        requires same_field { (e_shown a.now).field ≡ self.old.field }
        requires same_rows { (e_shown a.now).rows ≡ self.old.rows }
        requires same_cols { (e_shown a.now).cols ≡ self.old.cols }
        ensures { self.new ≡ e_shown a.now }
    {
        let _rows = a.rows();
        let (mut slices, home) = self.bits.all_mut();
        load_slices(&mut slices, a);
        self.bits.put_all(slices, home);
    }

    /// Adds the matrix to a window of the same shape over the same field. Takes no memory.
    pub fn add_to(&self, dst: &mut EWinMut)
        requires same_field { dst.old.field ≡ self.now.field }
        requires same_rows { dst.old.rows ≡ self.now.rows }
        requires same_cols { dst.old.cols ≡ self.now.cols }
        ensures { dst.new ≡ showing dst.old (added (content dst.old) self.now) }
    {
        add_slices(dst, &self.bits.all());
    }

    /// Writes the matrix into a window of the same shape over the same field. Takes no memory.
    pub fn to_packed(&self, dst: &mut EWinMut)
        requires same_field { dst.old.field ≡ self.now.field }
        requires same_rows { dst.old.rows ≡ self.now.rows }
        requires same_cols { dst.old.cols ≡ self.now.cols }
        ensures { dst.new ≡ showing dst.old self.now }
    {
        let _slice_rows = self.bits.rows();
        dst.clear();
        self.add_to(dst);
    }

    /// Slice `v`: the bits `v` of all entries.
    pub fn slice(&self, v: u32) -> Win<'_>
        requires { v < self.now.field.degree }
        ensures { shown result ≡ slice_of v self.now }
    {
        let _rows = self.bits.rows();
        let rect = Rect {
            r0: v * self.rows,
            c0: 0,
            r1: (v + 1) * self.rows,
            c1: self.bits.cols(),
        };
        self.bits.win(rect)
    }
}
