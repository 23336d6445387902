//! A window for writing: a part of a matrix that shares its words with the matrix alone.

ghost use Rattle.std.specs.Prelude.{◌≡◌, ◌↔◌, ◌<◌, IsTrue, if◌then◌else◌};
ghost use Rattle.m4_model.specs.Matrix.{at, with_entry};
ghost use Rattle.m4_mzd.specs.Window.{IsWindow, content, showing};

use m4_area::Words;
use m4_bits::{get_bit, put_bit};
use std::marker::Model;

mod lent;
mod listed;
mod many;
mod pairs;
mod parts;
mod products;
mod rows;
mod see;
mod shifted;
mod words;

/// A window for writing: a rectangle of a matrix's entries, whose first column is at the beginning of a word.
///
/// It owns its entries. It is cut into parts that can be written at the same time, and they are joined to it again. The
/// bits past its last column in a row's last word are not the window's, and no call changes them. A window is not
/// `Drop`, so no part can be let go.
pub struct WinMut {
    pub(crate) words: Words,
    pub(crate) cols: u32,
}

impl Model for WinMut {
    ghost use Rattle.m4_mzd.specs.Window.{Window};
    ghost use Rattle.m4_mzd.specs.Shown.{window, IsFramed};

    ghost Value = { Window };

    ghost view = { λ w. window w.words w.cols };

    ghost invariant = { λ w. IsFramed w.words w.cols };
}

impl WinMut {
    /// How many rows the window has.
    #[inline]
    pub fn rows(&self) -> u32
        ensures rows { result ≡ self.now.rows }
        ensures shape { IsWindow self.now }
    {
        self.words.rows() as u32
    }

    /// How many columns the window has.
    #[inline]
    pub fn cols(&self) -> u32
        ensures cols { result ≡ self.now.cols }
        ensures shape { IsWindow self.now }
    {
        self.cols
    }

    /// Whether the entry in row `r` and column `c` is 1.
    #[inline]
    pub fn get(&self, r: u32, c: u32) -> bool
        requires in_rows { r < self.now.rows }
        requires in_cols { c < self.now.cols }
        ensures one { IsTrue result ↔ (at (content self.now) r c ≡ 1) }
        ensures value { at (content self.now) r c ≡ (if result then 1 else 0) }
    {
        get_bit(self.words.row(r as usize), c)
    }

    /// Writes the entry in row `r` and column `c`: 1 for `true`, 0 for `false`. All else stays.
    #[inline]
    pub fn put(&mut self, r: u32, c: u32, bit: bool)
        requires in_rows { r < self.old.rows }
        requires in_cols { c < self.old.cols }
        ensures { self.new ≡ showing self.old (with_entry (content self.old) r c (if bit then 1 else 0)) }
    {
        put_bit(self.words.row_mut(r as usize), c, bit);
    }
}
