//! The parts of a window, and how they are joined to it again.

ghost use Rattle.std.specs.Prelude.{◌≡◌, ◌+◌, ◌-◌, ◌*◌, ◌/◌, ◌%◌, ◌≤◌, ◌++◌, [], take, drop, map};
ghost use Rattle.std.specs.List.{All};
ghost use Rattle.std.specs.Simd.Lanes.{zip2};
ghost use Rattle.m4_model.specs.Field.{width};
ghost use Rattle.m4_model.specs.Text.{words_per_row};
ghost use Rattle.m4_mzed.specs.EWindow.{IsBelow, IsBeside, AreQuarters};
ghost use Rattle.m4_mzed.specs.Packed.{packed, unpacked, IsPackedRow};

use super::EWinMut;

impl EWinMut {
    /// The first `r` rows, and those below.
    #[inline]
    pub fn split_rows(self, r: u32) -> (EWinMut, EWinMut)
        requires { r ≤ self.rows }
        ensures above { result.0 ≡ record self { rows = r; entries = take r self.entries; past = take r self.past } }
        ensures below { result.1 ≡ record self { skip = self.skip + r * self.place.stride; rows = self.rows - r; entries = drop r self.entries; past = drop r self.past } }
        ensures touch { IsBelow result.0 result.1 }
    {
        let EWinMut { field, cols, bits } = self;
        let (above, below) = bits.split_rows(r);
        (
            EWinMut {
                field,
                cols,
                bits: above,
            },
            EWinMut {
                field,
                cols,
                bits: below,
            },
        )
    }

    /// The rows, and those of `below`, which lie right below them.
    #[inline]
    pub fn join_rows(self, below: EWinMut) -> EWinMut
        requires { IsBelow self below }
        ensures { result ≡ record self { rows = self.rows + below.rows; entries = self.entries ++ below.entries; past = self.past ++ below.past } }
    {
        let EWinMut { field, cols, bits } = self;
        let EWinMut {
            field: _,
            cols: _,
            bits: lower,
        } = below;
        EWinMut {
            field,
            cols,
            bits: bits.join_rows(lower),
        }
    }

    /// The first `c` columns, and the others, where `c` columns fill whole words.
    #[inline]
    pub fn split_cols(self, c: u32) -> (EWinMut, EWinMut)
        requires within { c ≤ self.cols }
        requires whole_words { c * width self.field % 64 ≡ 0 }
        ensures left { result.0 ≡ record self { cols = c; entries = map (take c) self.entries; past = map (λ _. []) self.past } }
        ensures right { result.1 ≡ record self { skip = self.skip + c * width self.field / 64; cols = self.cols - c; entries = map (drop c) self.entries } }
        ensures touch { IsBeside result.0 result.1 }
    {
        let place = self.first_bit(c);
        let _bits = self.bits.cols();
        let EWinMut { field, cols, bits } = self;
        let (left, right) = bits.split_cols(place);
        (
            EWinMut {
                field,
                cols: c,
                bits: left,
            },
            EWinMut {
                field,
                cols: cols - c,
                bits: right,
            },
        )
    }

    /// Each row, and the row of `right`, which lies right beside it.
    #[inline]
    pub fn join_cols(self, right: EWinMut) -> EWinMut
        requires { IsBeside self right }
        ensures { result ≡ record self { cols = self.cols + right.cols; entries = zip2 (λ l r. l ++ r) self.entries right.entries; past = right.past } }
    {
        let EWinMut { field, cols, bits } = self;
        let EWinMut {
            field: _,
            cols: more,
            bits: beside,
        } = right;
        EWinMut {
            field,
            cols: cols + more,
            bits: bits.join_cols(beside),
        }
    }

    /// The parts at the top left, top right, bottom left and bottom right of row `r` and column `c`, where `c` columns fill
    /// whole words.
    #[inline]
    pub fn quarter(self, r: u32, c: u32) -> (EWinMut, EWinMut, EWinMut, EWinMut)
        requires in_rows { r ≤ self.rows }
        requires in_cols { c ≤ self.cols }
        requires whole_words { c * width self.field % 64 ≡ 0 }
        ensures top_left { result.0 ≡ record self { rows = r; cols = c; entries = map (take c) (take r self.entries); past = map (λ _. []) (take r self.past) } }
        ensures top_right { result.1 ≡ record self { skip = self.skip + c * width self.field / 64; rows = r; cols = self.cols - c; entries = map (drop c) (take r self.entries); past = take r self.past } }
        ensures bottom_left { result.2 ≡ record self { skip = self.skip + r * self.place.stride; rows = self.rows - r; cols = c; entries = map (take c) (drop r self.entries); past = map (λ _. []) (drop r self.past) } }
        ensures bottom_right { result.3 ≡ record self { skip = self.skip + r * self.place.stride + c * width self.field / 64; rows = self.rows - r; cols = self.cols - c; entries = map (drop c) (drop r self.entries); past = drop r self.past } }
        ensures touch { AreQuarters result.0 result.1 result.2 result.3 }
    {
        let (top, bottom) = self.split_rows(r);
        let (top_left, top_right) = top.split_cols(c);
        let (bottom_left, bottom_right) = bottom.split_cols(c);
        (top_left, top_right, bottom_left, bottom_right)
    }

    /// The window of four quarters, of which this is the one at the top left.
    #[inline]
    pub fn unquarter(
        self,
        top_right: EWinMut,
        bottom_left: EWinMut,
        bottom_right: EWinMut,
    ) -> EWinMut
        requires { AreQuarters self top_right bottom_left bottom_right }
        ensures { result ≡ record self {
          rows = self.rows + bottom_left.rows;
          cols = self.cols + top_right.cols;
          entries = zip2 (λ l r. l ++ r) self.entries top_right.entries ++ zip2 (λ l r. l ++ r) bottom_left.entries bottom_right.entries;
          past = top_right.past ++ bottom_right.past;
        } }
    {
        let top = self.join_cols(top_right);
        top.join_rows(bottom_left.join_cols(bottom_right))
    }

    /// The first `cols` columns, as long as they take as many words as all of them do. The bits of the others are past the
    /// window's end, until it is widened again. A window of any other width is split at whole words first.
    #[inline]
    pub fn narrow(self, cols: u32) -> EWinMut
        requires within { cols ≤ self.cols }
        requires same_words { words_per_row (cols * width self.field) ≡ words_per_row (self.cols * width self.field) }
        ensures { result ≡ record self { cols = cols; entries = map (take cols) self.entries; past = zip2 (λ row more. packed (width self.field) (drop cols row) ++ more) self.entries self.past } }
    {
        let place = self.first_bit(cols);
        let _rows = self.bits.rows();
        let EWinMut {
            field,
            cols: _,
            bits,
        } = self;
        EWinMut {
            field,
            cols,
            bits: bits.narrow(place),
        }
    }

    /// The window with more columns, whose bits were past its end, as long as it takes no more words.
    #[inline]
    pub fn widen(self, cols: u32) -> EWinMut
        requires more { self.cols ≤ cols }
        requires same_words { words_per_row (cols * width self.field) ≡ words_per_row (self.cols * width self.field) }
        requires elements { All (λ more. IsPackedRow self.field (cols - self.cols) (take ((cols - self.cols) * width self.field) more)) self.past }
        ensures { result ≡ record self { cols = cols; entries = zip2 (λ row more. row ++ unpacked (width self.field) (cols - self.cols) more) self.entries self.past; past = map (drop ((cols - self.cols) * width self.field)) self.past } }
    {
        let _rows = self.bits.rows();
        let EWinMut {
            field,
            cols: fewer,
            bits,
        } = self;
        let width = field.width();
        let place = fewer * width + (cols - fewer) * width;
        EWinMut {
            field,
            cols,
            bits: bits.widen(place),
        }
    }
}
