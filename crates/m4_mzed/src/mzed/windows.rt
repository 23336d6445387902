//! Windows on a matrix, for reading and for writing.

ghost use Rattle.std.specs.Prelude.{◌≡◌, ◌*◌, ◌%◌};
ghost use Rattle.m4_model.specs.Field.{width};
ghost use Rattle.m4_model.specs.Shapes.{cut};
ghost use Rattle.m4_mzd.specs.Rectangles.{IsInside};
ghost use Rattle.m4_mzed.specs.EWindow.{content};
ghost use Rattle.m4_mzed.specs.ESeen.{e_shown};
ghost use Rattle.m4_mzed.specs.Owned.{IsHomeOf, IsPadded};

use super::Mzed;
use crate::win::EWin;
use crate::win_mut::EWinMut;
use m4_mzd::{Home, Rect};

impl Mzed {
    /// The whole matrix, for reading.
    #[inline]
    pub fn all(&self) -> EWin<'_>
        ensures { e_shown result ≡ self.now }
    {
        EWin {
            field: self.field,
            cols: self.cols,
            bits: self.bits.all(),
        }
    }

    /// A rectangle whose first column is at the beginning of a word, for reading.
    pub fn win(&self, rect: Rect) -> EWin<'_>
        requires inside { IsInside rect self.now.rows self.now.cols }
        requires whole_words { rect.c0 * width self.now.field % 64 ≡ 0 }
        ensures { e_shown result ≡ cut self.now rect.r0 rect.c0 rect.r1 rect.c1 }
    {
        let (top, _) = self.all().split_rows(rect.r1);
        let (_, rows) = top.split_rows(rect.r0);
        let (_, part) = rows.split_cols(rect.c0);
        part.narrow(rect.c1 - rect.c0)
    }

    /// Takes the whole matrix out as a window for writing, with the memory that its words go back to, and leaves a matrix
    /// of no rows and no columns. The window can't be let go: `put_all` takes it back.
    pub fn all_mut(&mut self) -> (EWinMut, Home)
        ensures content { content result.0 ≡ self.old }
        ensures home { IsHomeOf result.1 result.0 }
        ensures padded { IsPadded result.0 }
        ensures no_rows_left { self.new.rows ≡ 0 }
        ensures no_cols_left { self.new.cols ≡ 0 }
    {
        let field = self.field;
        let cols = self.cols;
        self.cols = 0;
        let (bits, home) = self.bits.all_mut();
        let _rows = self.bits.rows();
        (EWinMut { field, cols, bits }, home)
    }

    /// Takes a window back that was taken out whole, whatever its entries are by now. The matrix is then what the window
    /// holds.
    pub fn put_all(&mut self, all: EWinMut, home: Home)
        requires home { IsHomeOf home all }
        requires padded { IsPadded all }
        ensures { self.new ≡ content all }
    {
        let EWinMut { field, cols, bits } = all;
        self.field = field;
        self.cols = cols;
        self.bits.put_all(bits, home);
    }
}
