//! A window for reading.

ghost use Rattle.std.specs.Prelude.{◌≡◌, ◌≤◌};
ghost use Rattle.m4_model.specs.Text.{words_per_row};
ghost use Rattle.m4_mzd.specs.declared.TheConstants.{MOST_SIDE};

use crate::MOST_SIDE;
use crate::word::word_of;
use m4_area::View;
use m4_bits::{get_bit, take_bits, words_for};

/// A window for reading: a rectangle of a matrix's entries, whose first column is at the beginning of a word.
#[derive(Clone, Copy)]
pub struct Win<'a> {
    pub(crate) view: View<'a>,
    pub(crate) cols: u32,
    ghost wide: { view.width ≡ words_per_row cols },
    ghost few_rows: { view.rows ≤ MOST_SIDE },
    ghost few_cols: { cols ≤ MOST_SIDE },
}

impl<'a> Win<'a> {
    ghost use Rattle.std.specs.Prelude.{ℕ, ◌+◌, ◌-◌, ◌*◌, ◌/◌, ◌%◌, ◌^◌, ◌<◌, ◌≤◌, ◌↔◌, IsTrue, if◌then◌else◌, length, slice_index, take, drop, map};
    ghost use Rattle.std.specs.List.{All};
    ghost use Rattle.std.specs.Int.{bit_at};
    ghost use Rattle.m4_model.specs.Matrix.{IsMatrix, at};
    ghost use Rattle.m4_area.specs.Rows.{row_of};
    ghost use Rattle.m4_area.specs.View.{seen};
    ghost use Rattle.m4_mzd.specs.Seen.{shown};

    /// How many rows the window has.
    #[inline]
    pub fn rows(&self) -> u32
        ensures rows { result ≡ (shown self.now).rows }
        ensures matrix { IsMatrix (shown self.now) }
        ensures few_rows { (shown self.now).rows ≤ MOST_SIDE }
        ensures few_cols { (shown self.now).cols ≤ MOST_SIDE }
    {
        self.view.rows() as u32
    }

    /// How many columns the window has.
    #[inline]
    pub fn cols(&self) -> u32
        ensures cols { result ≡ (shown self.now).cols }
        ensures matrix { IsMatrix (shown self.now) }
        ensures few_rows { (shown self.now).rows ≤ MOST_SIDE }
        ensures few_cols { (shown self.now).cols ≤ MOST_SIDE }
    {
        self.cols
    }

    /// Whether the entry in row `r` and column `c` is 1.
    #[inline]
    pub fn get(&self, r: u32, c: u32) -> bool
        requires in_rows { r < (shown self.now).rows }
        requires in_cols { c < (shown self.now).cols }
        ensures one { IsTrue result ↔ (at (shown self.now) r c ≡ 1) }
        ensures value { at (shown self.now) r c ≡ (if result then 1 else 0) }
    {
        get_bit(self.view.row(r as usize), c)
    }

    /// The `n` entries of row `r` from column `c` on, at most 16, as a number: bit `i` is the entry in column `c + i`.
    #[inline]
    pub fn bits(&self, r: u32, c: u32, n: u32) -> u32
        requires in_rows { r < (shown self.now).rows }
        requires few { n ≤ 16 }
        requires in_cols { c + n ≤ (shown self.now).cols }
        ensures bits { (i : ℕ) → i < n → bit_at result i ≡ at (shown self.now) r (c + i) }
        ensures small { result < 2 ^ n }
    {
        take_bits(self.view.row(r as usize), c, n)
    }

    /// Word `w` of row `r`: bit `j` is the entry in column `64 w + j`, and 0 past the last column.
    #[inline]
    pub fn word(&self, r: u32, w: u32) -> u64
        requires in_rows { r < (shown self.now).rows }
        requires in_words { w < words_per_row (shown self.now).cols }
        ensures { (j : ℕ) → j < 64 → bit_at result j ≡ at (shown self.now) r (w * 64 + j) }
    {
        word_of(self.view.row(r as usize), self.cols, w)
    }

    /// The words of the row whose number stands at `k`.
    #[inline]
    pub(crate) fn numbered(&self, numbers: &[u32], k: usize) -> &'a [u64]
        requires listed { k < length numbers.now }
        requires in_rows { All (λ s. s < (shown self.now).rows) numbers.now }
        ensures words { result.now ≡ row_of (seen self.now.view) (slice_index numbers.now k) }
        ensures long { length result.now ≡ words_per_row self.now.cols }
    {
        self.view.row(numbers[k] as usize)
    }

    /// The first `r` rows, and those below.
    #[inline]
    pub fn split_rows(self, r: u32) -> (Win<'a>, Win<'a>)
        requires { r ≤ (shown self).rows }
        ensures above { shown result.0 ≡ record (shown self.entry) { rows = r; entries = take r (shown self.entry).entries } }
        ensures below { shown result.1 ≡ record (shown self.entry) { rows = (shown self.entry).rows - r; entries = drop r (shown self.entry).entries } }
    {
        let (above, below) = self.view.split_rows(r as usize);
        (
            Win {
                view: above,
                cols: self.cols,
            },
            Win {
                view: below,
                cols: self.cols,
            },
        )
    }

    /// The first `c` columns, and the others, where `c` is a multiple of 64.
    #[inline]
    pub fn split_cols(self, c: u32) -> (Win<'a>, Win<'a>)
        requires within { c ≤ (shown self).cols }
        requires whole_words { c % 64 ≡ 0 }
        ensures left { shown result.0 ≡ record (shown self.entry) { cols = c; entries = map (take c) (shown self.entry).entries } }
        ensures right { shown result.1 ≡ record (shown self.entry) { cols = (shown self.entry).cols - c; entries = map (drop c) (shown self.entry).entries } }
    {
        let (left, right) = self.view.split_words((c / 64) as usize);
        (
            Win {
                view: left,
                cols: c,
            },
            Win {
                view: right,
                cols: self.cols - c,
            },
        )
    }

    /// The first `cols` columns.
    #[inline]
    pub fn narrow(self, cols: u32) -> Win<'a>
        requires { cols ≤ (shown self).cols }
        ensures { shown result ≡ record (shown self.entry) { cols = cols; entries = map (take cols) (shown self.entry).entries } }
    {
        let (left, _) = self.view.split_words(words_for(cols) as usize);
        Win { view: left, cols }
    }
}
