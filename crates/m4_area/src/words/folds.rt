//! A row of words as several rows, and back.

ghost use Rattle.std.specs.Prelude.{◌≡◌, ◌+◌, ◌*◌, ◌^◌, ◌<◌, max, [], ◌∷◌};
ghost use Rattle.std.specs.List.{concat};
ghost use Rattle.m4_area.specs.Rows.{row_of};
ghost use Rattle.m4_area.specs.Storage.{rows_of};

use super::Words;

impl Words {
    /// The words of a rectangle of one row, as `rows` rows of `width` words that follow each other with no gap.
    #[inline]
    pub fn fold(self, rows: usize, width: usize) -> Words
        requires one_row { self.rows ≡ 1 }
        requires all_words { self.width ≡ rows * width }
        requires small { self.skip + self.width + rows + width < 2 ^ 60 }
        ensures { result ≡ record {
          place = record self.place { stride = max width 1 };
          skip = self.skip;
          rows = rows;
          width = width;
          words = rows_of rows width (row_of self.words 0);
        } }
    {
        let Words {
            base,
            skip,
            rows: _,
            width: _,
            stride: _,
            area,
        } = self;
        let stride = width.max(1);
        Words {
            base,
            skip,
            rows,
            width,
            stride,
            area: area.fold(rows, width, stride),
        }
    }

    /// The words of rows that follow each other with no gap, as one row of a rectangle whose rows lie `stride` words apart.
    #[inline]
    pub fn unfold(self, stride: usize) -> Words
        requires no_gap { self.place.stride ≡ max self.width 1 }
        requires some { 0 < stride }
        requires small { self.skip + stride + self.rows * self.width < 2 ^ 60 }
        ensures { result ≡ record {
          place = record self.place { stride = stride };
          skip = self.skip;
          rows = 1;
          width = self.rows * self.width;
          words = concat self.words ∷ [];
        } }
    {
        let Words {
            base,
            skip,
            rows,
            width,
            stride: own,
            area,
        } = self;
        Words {
            base,
            skip,
            rows: 1,
            width: rows * width,
            stride,
            area: area.unfold(width, own, stride),
        }
    }
}
