//! A part of a rectangle, for reading.

ghost use Rattle.std.specs.Prelude.{◌≡◌, ◌+◌, ◌-◌, ◌<◌, ◌≤◌};
ghost use Rattle.m4_area.specs.Rectangle.{HasShape};

use crate::words::Words;

/// Some rows of a rectangle, and some words of each, for reading.
#[derive(Clone, Copy)]
pub struct View<'a> {
    words: &'a Words,
    first_row: usize,
    rows: usize,
    first_word: usize,
    width: usize,
    ghost whole: { HasShape words.now },
    ghost rows_within: { first_row + rows ≤ words.now.rows },
    ghost words_within: { first_word + width ≤ words.now.width },
}

impl<'a> View<'a> {
    ghost use Rattle.std.specs.Prelude.{take, drop, map, length};
    ghost use Rattle.m4_area.specs.Rows.{row_of};
    ghost use Rattle.m4_area.specs.View.{seen};

    /// The whole rectangle.
    #[inline]
    pub fn new(words: &'a Words) -> View<'a>
        ensures rows { result.rows ≡ words.now.rows }
        ensures width { result.width ≡ words.now.width }
        ensures words { seen result ≡ words.now.words }
    {
        View {
            words,
            first_row: 0,
            rows: words.rows(),
            first_word: 0,
            width: words.width(),
        }
    }

    /// How many rows there are.
    #[inline]
    pub fn rows(self) -> usize
        ensures { result ≡ self.entry.rows }
    {
        self.rows
    }

    /// How many words each row has.
    #[inline]
    pub fn width(self) -> usize
        ensures { result ≡ self.entry.width }
    {
        self.width
    }

    /// The words of row `r`.
    #[inline]
    pub fn row(self, r: usize) -> &'a [u64]
        requires { r < self.rows }
        ensures words { result.now ≡ row_of (seen self.entry) r }
        ensures long { length result.now ≡ self.entry.width }
    {
        let row = self.words.row(self.first_row + r);
        &row[self.first_word..self.first_word + self.width]
    }

    /// The first `r` rows, and those below.
    #[inline]
    pub fn split_rows(self, r: usize) -> (View<'a>, View<'a>)
        requires { r ≤ self.rows }
        ensures above { seen result.0 ≡ take r (seen self.entry) }
        ensures below { seen result.1 ≡ drop r (seen self.entry) }
        ensures above_rows { result.0.rows ≡ r }
        ensures below_rows { result.1.rows ≡ self.entry.rows - r }
        ensures above_width { result.0.width ≡ self.entry.width }
        ensures below_width { result.1.width ≡ self.entry.width }
    {
        let above = View {
            words: self.words,
            first_row: self.first_row,
            rows: r,
            first_word: self.first_word,
            width: self.width,
        };
        let below = View {
            words: self.words,
            first_row: self.first_row + r,
            rows: self.rows - r,
            first_word: self.first_word,
            width: self.width,
        };
        (above, below)
    }

    /// The first `w` words of each row, and the others.
    #[inline]
    pub fn split_words(self, w: usize) -> (View<'a>, View<'a>)
        requires { w ≤ self.width }
        ensures left { seen result.0 ≡ map (take w) (seen self.entry) }
        ensures right { seen result.1 ≡ map (drop w) (seen self.entry) }
        ensures left_rows { result.0.rows ≡ self.entry.rows }
        ensures right_rows { result.1.rows ≡ self.entry.rows }
        ensures left_width { result.0.width ≡ w }
        ensures right_width { result.1.width ≡ self.entry.width - w }
    {
        let left = View {
            words: self.words,
            first_row: self.first_row,
            rows: self.rows,
            first_word: self.first_word,
            width: w,
        };
        let right = View {
            words: self.words,
            first_row: self.first_row,
            rows: self.rows,
            first_word: self.first_word + w,
            width: self.width - w,
        };
        (left, right)
    }
}
