//! The parts of a window, and how they are joined to it again.

ghost use Rattle.std.specs.Prelude.{◌≡◌, ◌+◌, ◌-◌, ◌*◌, ◌/◌, ◌%◌, ◌≤◌, ◌++◌, [], take, drop, map};
ghost use Rattle.std.specs.Simd.Lanes.{zip2};
ghost use Rattle.m4_model.specs.Text.{words_per_row};
ghost use Rattle.m4_mzd.specs.Quarters.{IsBelow, IsBeside, AreQuarters};

use super::WinMut;

impl WinMut {
    /// The first `r` rows, and those below.
    #[inline]
    pub fn split_rows(self, r: u32) -> (WinMut, WinMut)
        requires { r ≤ self.rows }
        ensures above { result.0 ≡ record self { rows = r; bits = take r self.bits; past = take r self.past } }
        ensures below { result.1 ≡ record self { skip = self.skip + r * self.place.stride; rows = self.rows - r; bits = drop r self.bits; past = drop r self.past } }
        ensures touch { IsBelow result.0 result.1 }
    {
        let WinMut { words, cols } = self;
        let (above, below) = words.split_rows(r as usize);
        (WinMut { words: above, cols }, WinMut { words: below, cols })
    }

    /// The rows, and those of `below`, which lie right below them.
    #[inline]
    pub fn join_rows(self, below: WinMut) -> WinMut
        requires { IsBelow self below }
        ensures { result ≡ record self { rows = self.rows + below.rows; bits = self.bits ++ below.bits; past = self.past ++ below.past } }
    {
        let WinMut { words, cols } = self;
        let WinMut {
            words: lower,
            cols: _,
        } = below;
        WinMut {
            words: words.join_rows(lower),
            cols,
        }
    }

    /// The first `c` columns, and the others, where `c` is a multiple of 64. The left part has no bits past its columns.
    #[inline]
    pub fn split_cols(self, c: u32) -> (WinMut, WinMut)
        requires within { c ≤ self.cols }
        requires whole_words { c % 64 ≡ 0 }
        ensures left { result.0 ≡ record self { cols = c; bits = map (take c) self.bits; past = map (λ _. []) self.past } }
        ensures right { result.1 ≡ record self { skip = self.skip + c / 64; cols = self.cols - c; bits = map (drop c) self.bits } }
        ensures touch { IsBeside result.0 result.1 }
    {
        let WinMut { words, cols } = self;
        let (left, right) = words.split_words((c / 64) as usize);
        (
            WinMut {
                words: left,
                cols: c,
            },
            WinMut {
                words: right,
                cols: cols - c,
            },
        )
    }

    /// Each row, and the row of `right`, which lies right beside it.
    #[inline]
    pub fn join_cols(self, right: WinMut) -> WinMut
        requires { IsBeside self right }
        ensures { result ≡ record self { cols = self.cols + right.cols; bits = zip2 (λ l r. l ++ r) self.bits right.bits; past = right.past } }
    {
        let WinMut { words, cols } = self;
        let WinMut {
            words: beside,
            cols: more,
        } = right;
        WinMut {
            words: words.join_words(beside),
            cols: cols + more,
        }
    }

    /// The parts at the top left, top right, bottom left and bottom right of row `r` and column `c`, a multiple of 64.
    #[inline]
    pub fn quarter(self, r: u32, c: u32) -> (WinMut, WinMut, WinMut, WinMut)
        requires in_rows { r ≤ self.rows }
        requires in_cols { c ≤ self.cols }
        requires whole_words { c % 64 ≡ 0 }
        ensures top_left { result.0 ≡ record self { rows = r; cols = c; bits = map (take c) (take r self.bits); past = map (λ _. []) (take r self.past) } }
        ensures top_right { result.1 ≡ record self { skip = self.skip + c / 64; rows = r; cols = self.cols - c; bits = map (drop c) (take r self.bits); past = take r self.past } }
        ensures bottom_left { result.2 ≡ record self { skip = self.skip + r * self.place.stride; rows = self.rows - r; cols = c; bits = map (take c) (drop r self.bits); past = map (λ _. []) (drop r self.past) } }
        ensures bottom_right { result.3 ≡ record self { skip = self.skip + r * self.place.stride + c / 64; rows = self.rows - r; cols = self.cols - c; bits = map (drop c) (drop r self.bits); past = drop r self.past } }
        ensures touch { AreQuarters result.0 result.1 result.2 result.3 }
    {
        let (top, bottom) = self.split_rows(r);
        let (top_left, top_right) = top.split_cols(c);
        let (bottom_left, bottom_right) = bottom.split_cols(c);
        (top_left, top_right, bottom_left, bottom_right)
    }

    /// The window of four quarters, of which this is the one at the top left.
    #[inline]
    pub fn unquarter(self, top_right: WinMut, bottom_left: WinMut, bottom_right: WinMut) -> WinMut
        requires { AreQuarters self top_right bottom_left bottom_right }
        ensures { result ≡ record self {
          rows = self.rows + bottom_left.rows;
          cols = self.cols + top_right.cols;
          bits = zip2 (λ l r. l ++ r) self.bits top_right.bits ++ zip2 (λ l r. l ++ r) bottom_left.bits bottom_right.bits;
          past = top_right.past ++ bottom_right.past;
        } }
    {
        let top = self.join_cols(top_right);
        top.join_rows(bottom_left.join_cols(bottom_right))
    }

    /// The first `cols` columns, as long as they take as many words as all of them do. The others are past the window's
    /// end, until it is widened again. A window of any other width is split at a multiple of 64 first.
    #[inline]
    pub fn narrow(self, cols: u32) -> WinMut
        requires within { cols ≤ self.cols }
        requires same_words { words_per_row cols ≡ words_per_row self.cols }
        ensures { result ≡ record self { cols = cols; bits = map (take cols) self.bits; past = zip2 (λ row more. drop cols row ++ more) self.bits self.past } }
    {
        let WinMut { words, cols: _ } = self;
        WinMut { words, cols }
    }

    /// The window with more columns, that were past its end, as long as it takes no more words.
    #[inline]
    pub fn widen(self, cols: u32) -> WinMut
        requires more { self.cols ≤ cols }
        requires same_words { words_per_row cols ≡ words_per_row self.cols }
        ensures { result ≡ record self { cols = cols; bits = zip2 (λ row more. row ++ take (cols - self.cols) more) self.bits self.past; past = map (drop (cols - self.cols)) self.past } }
    {
        let WinMut {
            words,
            cols: _fewer,
        } = self;
        WinMut { words, cols }
    }
}
