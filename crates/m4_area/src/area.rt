//! The words of a rectangle, as a token that takes no memory itself: whoever has it may reach them.

ghost use Rattle.std.specs.Prelude.{◌≡◌, ℕ, ◌+◌, ◌*◌, ◌^◌, ◌<◌, ◌≤◌, ◌⊎◌, List, [], ◌∷◌, length, take, drop, map, ◌++◌};
ghost use Rattle.std.specs.List.{All, concat};
ghost use Rattle.std.specs.Simd.Lanes.{zip2};
ghost use Rattle.m4_area.specs.Rows.{row_of};
ghost use Rattle.m4_area.specs.Storage.{rows_of};
ghost use Rattle.m4_area.specs.Strided.{strided_owns, strided_shares, IsRowAt};

use std::marker::Model;
use std::slice;

mod lends;

/// The words of a rectangle. Its rows lie `step` bytes apart in one block of memory, from the byte `first` on.
///
/// It is not `Drop`, so a part of a rectangle cannot be let go: it is joined with its neighbour again, or given back.
pub(crate) struct Area {
    ghost block: { ℕ },
    ghost first: { ℕ },
    ghost step: { ℕ },
    ghost rows: { List (List ℕ) },
}

impl Model for Area {
    ghost also_owns = { λ a. strided_owns a.block a.first a.step a.rows };

    ghost also_shares = { λ a _ κ. strided_shares a.block a.first a.step a.rows κ };
}

// What an area owns and shares names no thread.
unsafe impl Send for Area {}

unsafe impl Sync for Area {}

impl Area {
    /// An area at the same place with no rows.
    #[inline]
    pub(crate) fn emptied(&self) -> Area
        ensures { result ≡ record self.now { rows = [] } }
    {
        Area {}
    }

    /// Ends an area that has no rows.
    #[inline]
    pub(crate) fn end(self)
        requires { self.rows ≡ [] }
    {
        let Area {} = self;
    }

    /// The first `r` rows, and the others.
    #[inline]
    pub(crate) fn cut_rows(self, r: usize) -> (Area, Area)
        requires { r ≤ length self.rows }
        ensures above { result.0 ≡ record self { rows = take r self.rows } }
        ensures below { result.1 ≡ record self { first = self.first + r * self.step; rows = drop r self.rows } }
    {
        let Area {} = self;
        (Area {}, Area {})
    }

    /// The rows, and those of `below`, which begin where these end.
    #[inline]
    pub(crate) fn join_rows(self, below: Area) -> Area
        requires block { below.block ≡ self.block }
        requires step { below.step ≡ self.step }
        requires meets { below.first ≡ self.first + length self.rows * self.step }
        ensures { result ≡ record self { rows = self.rows ++ below.rows } }
    {
        let Area {} = self;
        let Area {} = below;
        Area {}
    }

    /// The first `w` words of each row, and the others.
    #[inline]
    pub(crate) fn cut_words(self, w: usize) -> (Area, Area)
        requires { All (λ row. w ≤ length row) self.rows }
        ensures left { result.0 ≡ record self { rows = map (take w) self.rows } }
        ensures right { result.1 ≡ record self { first = self.first + w * 8; rows = map (drop w) self.rows } }
    {
        let Area {} = self;
        (Area {}, Area {})
    }

    /// Each row, of `w` words, and the row of `right` that begins where it ends.
    #[inline]
    pub(crate) fn join_words(self, w: usize, right: Area) -> Area
        requires block { right.block ≡ self.block }
        requires step { right.step ≡ self.step }
        requires meets { right.first ≡ self.first + w * 8 }
        requires widths { All (λ row. length row ≡ w) self.rows }
        requires heights { length self.rows ≡ length right.rows }
        ensures { result ≡ record self { rows = zip2 (λ l r. l ++ r) self.rows right.rows } }
    {
        let Area {} = self;
        let Area {} = right;
        Area {}
    }

    /// The words of the first row, as `rows` rows of `width` words, whose first words lie `stride` words apart.
    #[inline]
    pub(crate) fn fold(self, rows: usize, width: usize, stride: usize) -> Area
        requires some { 0 < length self.rows }
        requires tight { (stride ≡ width) ⊎ (width ≡ 0) }
        ensures { result ≡ record self { step = stride * 8; rows = rows_of rows width (row_of self.rows 0) } }
    {
        let Area {} = self;
        Area {}
    }

    /// The words of all rows, which follow each other with no gap, as one row of an area whose rows lie `apart` words apart.
    #[inline]
    pub(crate) fn unfold(self, width: usize, stride: usize, apart: usize) -> Area
        requires step { self.step ≡ stride * 8 }
        requires tight { (stride ≡ width) ⊎ (width ≡ 0) }
        requires widths { All (λ row. length row ≡ width) self.rows }
        ensures { result ≡ record self { step = apart * 8; rows = concat self.rows ∷ [] } }
    {
        let Area {} = self;
        Area {}
    }

    /// Row `r`, of `width` words, which lies `start` words after `base`.
    #[inline]
    pub(crate) fn row(&self, base: *mut u64, start: usize, r: usize, width: usize) -> &[u64]
        requires in_rows { r < length self.now.rows }
        requires place { IsRowAt self.now.block self.now.first self.now.step base start r }
        requires width { length (row_of self.now.rows r) ≡ width }
        requires small { start + width < 2 ^ 60 }
        ensures words { result.now ≡ row_of self.now.rows r }
        ensures long { length result.now ≡ width }
    {
        unsafe { slice::from_raw_parts(base.add(start), width) }
    }
}
