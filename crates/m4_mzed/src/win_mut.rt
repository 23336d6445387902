//! A window for writing over any field: a part of a matrix that shares its words with the matrix alone.

ghost use Rattle.std.specs.Prelude.{◌≡◌, ◌*◌, ◌^◌, ◌<◌, ◌≤◌};
ghost use Rattle.m4_model.specs.Field.{width};
ghost use Rattle.m4_model.specs.Matrix.{IsMatrix, at, with_entry};
ghost use Rattle.m4_field.specs.Fields.{the_field};
ghost use Rattle.m4_mzed.specs.EWindow.{content, showing};

use crate::row::add_to_element;
use m4_field::Field;
use m4_mzd::{MOST_SIDE, WinMut};
use std::marker::Model;

mod bits;
mod lent;
mod pairs;
mod parts;
mod rows;
mod see;
mod shifted;

/// A window for writing: a rectangle of a matrix's entries, whose first column is at the beginning of a word.
///
/// It owns its entries. It is cut into parts that can be written at the same time, and they are joined to it again. The
/// bits past its last column in a row's last word are not the window's, and no call changes them. A window is not
/// `Drop`, so no part can be let go.
pub struct EWinMut {
    pub(crate) field: Field,
    pub(crate) cols: u32,
    pub(crate) bits: WinMut,
}

impl Model for EWinMut {
    ghost use Rattle.m4_field.specs.Fields.{the_field};
    ghost use Rattle.m4_mzed.specs.EWindow.{EWindow};
    ghost use Rattle.m4_mzed.specs.Packed.{elements, IsPacked};

    ghost Value = { EWindow };

    ghost view = { λ w. elements (the_field w.field) w.cols w.bits };

    ghost invariant = { λ w. IsPacked (the_field w.field) w.cols w.bits };
}

impl EWinMut {
    /// How many rows the window has. It stands for a matrix of at most 2^24 rows, each of at most 2^24 bits.
    #[inline]
    pub fn rows(&self) -> u32
        ensures rows { result ≡ self.now.rows }
        ensures matrix { IsMatrix (content self.now) }
        ensures few_rows { self.now.rows ≤ MOST_SIDE }
        ensures few_bits { self.now.cols * width self.now.field ≤ MOST_SIDE }
    {
        self.bits.rows()
    }

    /// How many columns the window has. It stands for a matrix of at most 2^24 rows, each of at most 2^24 bits.
    #[inline]
    pub fn cols(&self) -> u32
        ensures cols { result ≡ self.now.cols }
        ensures matrix { IsMatrix (content self.now) }
        ensures few_rows { self.now.rows ≤ MOST_SIDE }
        ensures few_bits { self.now.cols * width self.now.field ≤ MOST_SIDE }
    {
        let _rows = self.rows();
        self.cols
    }

    /// The field.
    #[inline]
    pub fn field(&self) -> Field
        ensures { the_field result ≡ self.now.field }
    {
        self.field
    }

    /// The entry in row `r` and column `c`.
    #[inline]
    pub fn get(&self, r: u32, c: u32) -> u32
        requires in_rows { r < self.now.rows }
        requires in_cols { c < self.now.cols }
        ensures value { result ≡ at (content self.now) r c }
        ensures element { result < 2 ^ self.now.field.degree }
    {
        self.see().get(r, c)
    }

    /// Writes the entry in row `r` and column `c`. All else stays.
    #[inline]
    pub fn put(&mut self, r: u32, c: u32, x: u32)
        requires in_rows { r < self.old.rows }
        requires in_cols { c < self.old.cols }
        requires element { x < 2 ^ self.old.field.degree }
        ensures { self.new ≡ showing self.old (with_entry (content self.old) r c x) }
    {
        let _rows = self.bits.rows();
        let change = self.get(r, c) ^ x;
        let field = self.field;
        add_to_element(&field, self.cols, &mut self.bits, r, c, change);
        let _new_rows = self.bits.rows();
    }

    // The first bit of column `c`, or past the last column.
    #[inline]
    fn first_bit(&self, c: u32) -> u32
        requires { c ≤ self.now.cols }
        ensures { result ≡ c * width self.now.field }
    {
        let _bits = self.bits.cols();
        c * self.field.width()
    }
}
