//! A matrix over any field that owns its words.

ghost use Rattle.std.specs.Prelude.{◌≡◌, ◌↔◌, ◌*◌, ◌^◌, ◌<◌, ◌≤◌, IsTrue, IfOk};
ghost use Rattle.m4_model.specs.Field.{gf2, width};
ghost use Rattle.m4_model.specs.Matrix.{IsMatrix, at, with_entry, zero_matrix};
ghost use Rattle.m4_field.specs.Fields.{the_field};
ghost use Rattle.m4_mzed.specs.Owned.{e_matrix};
ghost use Rattle.m4_mzed.specs.PackedIn.{IsPackedIn};

use m4_field::Field;
use m4_model::NoMemory;
use m4_mzd::{MOST_SIDE, Mzd};
use std::alloc::Global;
use std::marker::Model;

mod equal;
mod rects;
mod show;
mod windows;

/// A matrix over GF(2) or GF(2^e) of at most 2^24 rows, each of at most 2^24 bits, which owns its words.
///
/// An element takes `width` bits of a row, 1, 2, 4, 8 or 16, and the bits of its place that it doesn't use are zero.
#[derive(Drop)]
pub struct Mzed {
    field: Field,
    cols: u32,
    bits: Mzd,
}

impl Model for Mzed {
    ghost use Rattle.m4_model.specs.Matrix.{Matrix};
    ghost use Rattle.m4_field.specs.Fields.{the_field};
    ghost use Rattle.m4_mzed.specs.Owned.{e_matrix};
    ghost use Rattle.m4_mzed.specs.PackedIn.{IsPackedIn};

    ghost Value = { Matrix };

    ghost view = { λ m. e_matrix (the_field m.field) m.cols m.bits };

    ghost invariant = { λ m. IsPackedIn (the_field m.field) m.cols m.bits };
}

impl Mzed {
    /// The matrix of zeros of so many rows and columns.
    pub fn zeros(alloc: Global, field: Field, rows: u32, cols: u32) -> Result<Mzed, NoMemory>
        requires few_rows { rows ≤ MOST_SIDE }
        requires few_bits { cols * width (the_field field) ≤ MOST_SIDE }
        ensures { IfOk result (λ m. m ≡ zero_matrix (the_field field) rows cols) }
    {
        let bits = Mzd::zeros(alloc, rows, cols * field.width())?;
        Ok(Mzed { field, cols, bits })
    }

    /// A matrix of bits, as one over GF(2).
    pub fn of_bits(bits: Mzd) -> Mzed
        ensures { result ≡ bits }
    {
        let _rows = bits.rows();
        Mzed {
            field: Field::gf2(),
            cols: bits.cols(),
            bits,
        }
    }

    /// A matrix over GF(2), as the matrix of bits that it is.
    pub fn into_bits(self) -> Mzd
        requires { self.field ≡ gf2 }
        ensures { result ≡ self }
    {
        let _rows = self.bits.rows();
        self.bits
    }

    /// A matrix over GF(2), seen as the matrix of bits that it is.
    pub fn as_bits(&self) -> &Mzd
        requires { self.now.field ≡ gf2 }
        ensures { result.now ≡ self.now }
    {
        let _rows = self.bits.rows();
        &self.bits
    }

    /// A matrix of bits in which so many elements of this field are packed in each row.
    pub fn of_packed(field: Field, cols: u32, bits: Mzd) -> Mzed
        requires { IsPackedIn (the_field field) cols bits }
        ensures { result ≡ e_matrix (the_field field) cols bits }
    {
        Mzed { field, cols, bits }
    }

    /// The matrix once more, in memory of its own.
    pub fn copy(&self, alloc: Global) -> Result<Mzed, NoMemory>
        ensures { IfOk result (λ m. m ≡ self.now) }
    {
        Ok(Mzed {
            field: self.field,
            cols: self.cols,
            bits: self.bits.copy(alloc)?,
        })
    }

    /// How many rows the matrix has, at most 2^24, each of at most 2^24 bits.
    pub fn rows(&self) -> u32
        ensures rows { result ≡ self.now.rows }
        ensures matrix { IsMatrix self.now }
        ensures few_rows { self.now.rows ≤ MOST_SIDE }
        ensures few_bits { self.now.cols * width self.now.field ≤ MOST_SIDE }
    {
        self.all().rows()
    }

    /// How many columns the matrix has. It has at most 2^24 rows, each of at most 2^24 bits.
    pub fn cols(&self) -> u32
        ensures cols { result ≡ self.now.cols }
        ensures matrix { IsMatrix self.now }
        ensures few_rows { self.now.rows ≤ MOST_SIDE }
        ensures few_bits { self.now.cols * width self.now.field ≤ MOST_SIDE }
    {
        self.all().cols()
    }

    /// The field.
    pub fn field(&self) -> Field
        ensures { the_field result ≡ self.now.field }
    {
        self.field
    }

    /// Whether the matrix is over GF(2).
    pub fn is_over_gf2(&self) -> bool
        ensures { IsTrue result ↔ self.now.field ≡ gf2 }
    {
        self.field.e() == 1
    }

    /// The entry in row `r` and column `c`.
    pub fn get(&self, r: u32, c: u32) -> u32
        requires in_rows { r < self.now.rows }
        requires in_cols { c < self.now.cols }
        ensures value { result ≡ at self.now r c }
        ensures element { result < 2 ^ self.now.field.degree }
    {
        self.all().get(r, c)
    }

    /// Writes the entry in row `r` and column `c`. Every other entry stays.
    pub fn put(&mut self, r: u32, c: u32, x: u32)
        requires in_rows { r < self.old.rows }
        requires in_cols { c < self.old.cols }
        requires element { x < 2 ^ self.old.field.degree }
        ensures { self.new ≡ with_entry self.old r c x }
    {
        let (mut all, home) = self.all_mut();
        all.put(r, c, x);
        self.put_all(all, home);
    }
}
