//! A window for reading over any field.

ghost use Rattle.m4_field.specs.Fields.{the_field};
ghost use Rattle.m4_mzd.specs.Seen.{shown};
ghost use Rattle.m4_mzed.specs.PackedIn.{IsPackedIn};

use m4_field::Field;
use m4_mzd::{MOST_SIDE, Win};

mod bits;
mod parts;

/// A window for reading: a rectangle of a matrix's entries, whose first column is at the beginning of a word.
#[derive(Clone, Copy)]
pub struct EWin<'a> {
    pub(crate) field: Field,
    pub(crate) cols: u32,
    pub(crate) bits: Win<'a>,
    ghost packed: { IsPackedIn (the_field field) cols (shown bits) },
}

impl<'a> EWin<'a> {
    ghost use Rattle.std.specs.Prelude.{◌≡◌, ◌*◌, ◌<◌, ◌≤◌, ◌^◌};
    ghost use Rattle.m4_model.specs.Field.{width};
    ghost use Rattle.m4_model.specs.Matrix.{IsMatrix, at};
    ghost use Rattle.m4_mzed.specs.ESeen.{e_shown};

    /// How many rows the window has. It shows a matrix of at most 2^24 rows, each of at most 2^24 bits.
    #[inline]
    pub fn rows(&self) -> u32
        ensures rows { result ≡ (e_shown self.now).rows }
        ensures matrix { IsMatrix (e_shown self.now) }
        ensures few_rows { (e_shown self.now).rows ≤ MOST_SIDE }
        ensures few_bits { (e_shown self.now).cols * width (e_shown self.now).field ≤ MOST_SIDE }
    {
        self.bits.rows()
    }

    /// How many columns the window has. It shows a matrix of at most 2^24 rows, each of at most 2^24 bits.
    #[inline]
    pub fn cols(&self) -> u32
        ensures cols { result ≡ (e_shown self.now).cols }
        ensures matrix { IsMatrix (e_shown self.now) }
        ensures few_rows { (e_shown self.now).rows ≤ MOST_SIDE }
        ensures few_bits { (e_shown self.now).cols * width (e_shown self.now).field ≤ MOST_SIDE }
    {
        let _rows = self.rows();
        self.cols
    }

    /// The field.
    #[inline]
    pub fn field(&self) -> Field
        ensures { the_field result ≡ (e_shown self.now).field }
    {
        self.field
    }

    /// The entry in row `r` and column `c`.
    #[inline]
    pub fn get(&self, r: u32, c: u32) -> u32
        requires in_rows { r < (e_shown self.now).rows }
        requires in_cols { c < (e_shown self.now).cols }
        ensures value { result ≡ at (e_shown self.now) r c }
        ensures element { result < 2 ^ (e_shown self.now).field.degree }
    {
        let _rows = self.bits.rows();
        let width = self.field.width();
        self.bits.bits(r, self.first_bit(c), width)
    }

    // The first bit of column `c`, or past the last column.
    #[inline]
    pub(crate) fn first_bit(&self, c: u32) -> u32
        requires { c ≤ (e_shown self.now).cols }
        ensures { result ≡ c * width (e_shown self.now).field }
    {
        let _bits = self.bits.cols();
        c * self.field.width()
    }
}
