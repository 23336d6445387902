//! A matrix that owns its words.

ghost use Rattle.std.specs.Prelude.{◌≡◌, ◌↔◌, ◌^◌, ◌<◌, ◌≤◌, IfOk, IsTrue, if◌then◌else◌};
ghost use Rattle.m4_model.specs.Field.{gf2};
ghost use Rattle.m4_model.specs.Matrix.{IsMatrix, at, identity, with_entry, zero_matrix};
ghost use Rattle.m4_model.specs.Text.{words_per_row};
ghost use Rattle.m4_mzd.specs.Shown.{window};
ghost use Rattle.m4_mzd.specs.Held.{held, IsPadded};

use crate::MOST_SIDE;
use m4_area::OwnedWords;
use m4_bits::{get_bit, put_bit, words_for};
use m4_model::NoMemory;
use std::alloc::Global;
use std::marker::Model;

mod around;
mod empty;
mod equal;
mod listed;
mod rects;
mod show;
mod windows;

pub use around::Around;
pub use windows::Home;

/// A matrix over GF(2) of at most 2^24 rows and 2^24 columns, which owns its words.
///
/// Row after row, each row takes `words_for(cols)` words of 64 bits. Bits past the last column are zero.
#[derive(Drop)]
pub struct Mzd {
    words: OwnedWords,
    cols: u32,
}

impl Model for Mzd {
    ghost use Rattle.m4_model.specs.Matrix.{Matrix};
    ghost use Rattle.m4_mzd.specs.Held.{held, IsHeld};

    ghost Value = { Matrix };

    ghost view = { λ m. held m.words m.cols };

    ghost invariant = { λ m. IsHeld m.words m.cols };
}

impl Mzd {
    /// The matrix of zeros of so many rows and columns.
    pub fn zeros(alloc: Global, rows: u32, cols: u32) -> Result<Mzd, NoMemory>
        requires few_rows { rows ≤ MOST_SIDE }
        requires few_cols { cols ≤ MOST_SIDE }
        ensures { IfOk result (λ m. m ≡ zero_matrix gf2 rows cols) }
    {
        let width = words_for(cols) as usize;
        let words = vec![in alloc; 0u64; rows as usize * width]?;
        Ok(Mzd::of(OwnedWords::from_vec(words, rows as usize, width), cols))
    }

    /// The matrix with ones on its diagonal and zeros elsewhere.
    pub fn identity(alloc: Global, n: u32) -> Result<Mzd, NoMemory>
        requires { n ≤ MOST_SIDE }
        ensures { IfOk result (λ m. m ≡ identity gf2 n) }
    {
        let mut m = Mzd::zeros(alloc, n, n)?;
        m.set_diagonal();
        Ok(m)
    }

    // Makes the entries on the diagonal of a square matrix of zeros 1.
    fn set_diagonal(&mut self)
        requires { self.old ≡ zero_matrix gf2 self.old.rows self.old.rows }
        ensures { self.new ≡ identity gf2 self.old.rows }
    {
        for i in 0..self.rows() {
            self.put(i, i, true);
        }
    }

    /// The matrix once more, in memory of its own.
    pub fn copy(&self, alloc: Global) -> Result<Mzd, NoMemory>
        ensures { IfOk result (λ m. m ≡ self.now) }
    {
        let mut m = Mzd::zeros(alloc, self.rows(), self.cols())?;
        let (mut whole, home) = m.all_mut();
        whole.copy_rows(&self.all());
        m.put_all(whole, home);
        Ok(m)
    }

    /// The matrix in a whole rectangle of words, whose bits past the last column are 0.
    pub(crate) fn of(words: OwnedWords, cols: u32) -> Mzd
        requires wide { words.width ≡ words_per_row cols }
        requires few_rows { words.rows ≤ MOST_SIDE }
        requires few_cols { cols ≤ MOST_SIDE }
        requires padded { IsPadded (window words cols) }
        ensures { result ≡ held words cols }
    {
        let _rows = words.words().rows();
        Mzd { words, cols }
    }

    /// How many rows the matrix has. It is a matrix over GF(2) of at most 2^24 rows and 2^24 columns.
    pub fn rows(&self) -> u32
        ensures rows { result ≡ self.now.rows }
        ensures matrix { IsMatrix self.now }
        ensures over_gf2 { self.now.field ≡ gf2 }
        ensures few_rows { self.now.rows ≤ MOST_SIDE }
        ensures few_cols { self.now.cols ≤ MOST_SIDE }
    {
        self.words.words().rows() as u32
    }

    /// How many columns the matrix has. It is a matrix over GF(2) of at most 2^24 rows and 2^24 columns.
    pub fn cols(&self) -> u32
        ensures cols { result ≡ self.now.cols }
        ensures matrix { IsMatrix self.now }
        ensures over_gf2 { self.now.field ≡ gf2 }
        ensures few_rows { self.now.rows ≤ MOST_SIDE }
        ensures few_cols { self.now.cols ≤ MOST_SIDE }
    {
        self.cols
    }

    /// Whether the entry in row `r` and column `c` is 1.
    pub fn get(&self, r: u32, c: u32) -> bool
        requires in_rows { r < self.now.rows }
        requires in_cols { c < self.now.cols }
        ensures one { IsTrue result ↔ (at self.now r c ≡ 1) }
        ensures value { at self.now r c ≡ (if result then 1 else 0) }
    {
        get_bit(self.words.words().row(r as usize), c)
    }

    /// Writes the entry in row `r` and column `c`: 1 for `true`, 0 for `false`. Every other entry stays.
    pub fn put(&mut self, r: u32, c: u32, bit: bool)
        requires in_rows { r < self.old.rows }
        requires in_cols { c < self.old.cols }
        ensures { self.new ≡ with_entry self.old r c (if bit then 1 else 0) }
    {
        put_bit(self.words.row_mut(r as usize), c, bit);
    }
}

#[cfg(test)]
mod tests {
    use super::*;
    use std::test::Fail;

    fn writes_last(alloc: Global, cols: u32) -> Result<bool, NoMemory>
        requires some { 0 < cols }
        requires few { cols ≤ MOST_SIDE }
    {
        let mut m = Mzd::zeros(alloc, 2, cols)?;
        m.put(1, cols - 1, true);
        Ok(m.get(1, cols - 1) && !m.get(0, cols - 1))
    }

    #[test]
    fn entries_stand_at_borders_of_words(rt: HostRuntime) -> Result<(), Fail> {
        assert!(rt; writes_last(rt.alloc(), 1)?);
        assert!(rt; writes_last(rt.alloc(), 63)?);
        assert!(rt; writes_last(rt.alloc(), 64)?);
        assert!(rt; writes_last(rt.alloc(), 65)?);
        assert!(rt; writes_last(rt.alloc(), 130)?);
        Ok(())
    }

    #[test]
    fn a_matrix_may_have_no_rows_or_no_columns(rt: HostRuntime) -> Result<(), Fail> {
        let flat = Mzd::zeros(rt.alloc(), 0, 5)?;
        assert_eq!(rt; (flat.rows(), flat.cols()), (0, 5));
        let thin = Mzd::zeros(rt.alloc(), 3, 0)?;
        assert_eq!(rt; (thin.rows(), thin.cols()), (3, 0));
        Ok(())
    }
}
