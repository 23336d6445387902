//! The parts of a window for reading.

ghost use Rattle.std.specs.Prelude.{◌≡◌, ◌-◌, ◌*◌, ◌%◌, ◌≤◌, take, drop, map};
ghost use Rattle.m4_model.specs.Field.{width};
ghost use Rattle.m4_mzed.specs.ESeen.{e_shown};

use super::EWin;

impl<'a> EWin<'a> {
    /// The first `r` rows, and those below.
    #[inline]
    pub fn split_rows(self, r: u32) -> (EWin<'a>, EWin<'a>)
        requires { r ≤ (e_shown self).rows }
        ensures above { e_shown result.0 ≡ record (e_shown self.entry) { rows = r; entries = take r (e_shown self.entry).entries } }
        ensures below { e_shown result.1 ≡ record (e_shown self.entry) { rows = (e_shown self.entry).rows - r; entries = drop r (e_shown self.entry).entries } }
    {
        let (above, below) = self.bits.split_rows(r);
        (
            EWin {
                field: self.field,
                cols: self.cols,
                bits: above,
            },
            EWin {
                field: self.field,
                cols: self.cols,
                bits: below,
            },
        )
    }

    /// The first `c` columns, and the others, where `c` columns fill whole words.
    #[inline]
    pub fn split_cols(self, c: u32) -> (EWin<'a>, EWin<'a>)
        requires within { c ≤ (e_shown self).cols }
        requires whole_words { c * width (e_shown self).field % 64 ≡ 0 }
        ensures left { e_shown result.0 ≡ record (e_shown self.entry) { cols = c; entries = map (take c) (e_shown self.entry).entries } }
        ensures right { e_shown result.1 ≡ record (e_shown self.entry) { cols = (e_shown self.entry).cols - c; entries = map (drop c) (e_shown self.entry).entries } }
    {
        let (left, right) = self.bits.split_cols(self.first_bit(c));
        (
            EWin {
                field: self.field,
                cols: c,
                bits: left,
            },
            EWin {
                field: self.field,
                cols: self.cols - c,
                bits: right,
            },
        )
    }

    /// The first `cols` columns.
    #[inline]
    pub fn narrow(self, cols: u32) -> EWin<'a>
        requires { cols ≤ (e_shown self).cols }
        ensures { e_shown result ≡ record (e_shown self.entry) { cols = cols; entries = map (take cols) (e_shown self.entry).entries } }
    {
        EWin {
            field: self.field,
            cols,
            bits: self.bits.narrow(self.first_bit(cols)),
        }
    }
}
