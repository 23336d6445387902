//! A rectangle of words that may be read and written.

ghost use Rattle.std.specs.Prelude.{◌≡◌, ◌+◌, ◌-◌, ◌*◌, ◌<◌, ◌≤◌, ◌++◌, length, take, drop, map};
ghost use Rattle.std.specs.Simd.Lanes.{zip2};
ghost use Rattle.m4_area.specs.Rectangle.{HasShape};
ghost use Rattle.m4_area.specs.Rows.{row_of};

use crate::area::Area;
use std::marker::Model;

mod folds;
mod lends;
mod lent;
mod pairs;
mod vec;

/// A rectangle of words: `rows` rows of `width` words each, whose first words lie `stride` words apart.
///
/// It is cut into parts that can be written at the same time, and they are joined to it again. A rectangle is not
/// `Drop`, so no part can be let go.
pub struct Words {
    base: *mut u64,
    skip: usize,
    rows: usize,
    width: usize,
    stride: usize,
    area: Area,
}

impl Model for Words {
    ghost use Rattle.m4_area.specs.Rectangle.{Rectangle};

    ghost Value = { Rectangle };

    ghost use Rattle.m4_area.specs.Tied.{rectangle, IsTied};

    ghost view = { rectangle };

    ghost invariant = { IsTied };
}

// Its pointer is reached through its area alone.
unsafe impl Send for Words {}

unsafe impl Sync for Words {}

impl Words {
    /// How many rows the rectangle has.
    #[inline]
    pub fn rows(&self) -> usize
        ensures rows { result ≡ self.now.rows }
        ensures shape { HasShape self.now }
    {
        self.rows
    }

    /// How many words each row has.
    #[inline]
    pub fn width(&self) -> usize
        ensures width { result ≡ self.now.width }
        ensures shape { HasShape self.now }
    {
        self.width
    }

    /// How many words lie between the first words of one row and of the next.
    #[inline]
    pub fn stride(&self) -> usize
        ensures stride { result ≡ self.now.place.stride }
        ensures shape { HasShape self.now }
    {
        self.stride
    }

    /// The words of row `r`.
    #[inline]
    pub fn row(&self, r: usize) -> &[u64]
        requires { r < self.now.rows }
        ensures words { result.now ≡ row_of self.now.words r }
        ensures long { length result.now ≡ self.now.width }
    {
        self.area
            .row(self.base, self.skip + r * self.stride, r, self.width)
    }

    /// The first `r` rows, and those below.
    #[inline]
    pub fn split_rows(self, r: usize) -> (Words, Words)
        requires { r ≤ self.rows }
        ensures above { result.0 ≡ record self { rows = r; words = take r self.words } }
        ensures below { result.1 ≡ record self { skip = self.skip + r * self.place.stride; rows = self.rows - r; words = drop r self.words } }
    {
        let Words {
            base,
            skip,
            rows,
            width,
            stride,
            area,
        } = self;
        let (above, below) = area.cut_rows(r);
        (
            Words {
                base,
                skip,
                rows: r,
                width,
                stride,
                area: above,
            },
            Words {
                base,
                skip: skip + r * stride,
                rows: rows - r,
                width,
                stride,
                area: below,
            },
        )
    }

    /// The rows, and those of `below`, which lie right below them.
    #[inline]
    pub fn join_rows(self, below: Words) -> Words
        requires place { below.place ≡ self.place }
        requires width { below.width ≡ self.width }
        requires meets { below.skip ≡ self.skip + self.rows * self.place.stride }
        ensures { result ≡ record self { rows = self.rows + below.rows; words = self.words ++ below.words } }
    {
        let Words {
            base,
            skip,
            rows,
            width,
            stride,
            area,
        } = self;
        let Words {
            base: _,
            skip: _,
            rows: more,
            width: _,
            stride: _,
            area: lower,
        } = below;
        Words {
            base,
            skip,
            rows: rows + more,
            width,
            stride,
            area: area.join_rows(lower),
        }
    }

    /// The first `w` words of each row, and the others.
    #[inline]
    pub fn split_words(self, w: usize) -> (Words, Words)
        requires { w ≤ self.width }
        ensures left { result.0 ≡ record self { width = w; words = map (take w) self.words } }
        ensures right { result.1 ≡ record self { skip = self.skip + w; width = self.width - w; words = map (drop w) self.words } }
    {
        let Words {
            base,
            skip,
            rows,
            width,
            stride,
            area,
        } = self;
        let (left, right) = area.cut_words(w);
        (
            Words {
                base,
                skip,
                rows,
                width: w,
                stride,
                area: left,
            },
            Words {
                base,
                skip: skip + w,
                rows,
                width: width - w,
                stride,
                area: right,
            },
        )
    }

    /// Each row, and the row of `right`, which lies right beside it.
    #[inline]
    pub fn join_words(self, right: Words) -> Words
        requires place { right.place ≡ self.place }
        requires rows { right.rows ≡ self.rows }
        requires meets { right.skip ≡ self.skip + self.width }
        ensures { result ≡ record self { width = self.width + right.width; words = zip2 (λ l r. l ++ r) self.words right.words } }
    {
        let Words {
            base,
            skip,
            rows,
            width,
            stride,
            area,
        } = self;
        let Words {
            base: _,
            skip: _,
            rows: _,
            width: more,
            stride: _,
            area: beside,
        } = right;
        Words {
            base,
            skip,
            rows,
            width: width + more,
            stride,
            area: area.join_words(width, beside),
        }
    }
}
