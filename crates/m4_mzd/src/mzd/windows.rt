//! Windows on a matrix, for reading and for writing.

ghost use Rattle.std.specs.Prelude.{◌≡◌, ◌%◌};
ghost use Rattle.m4_model.specs.Shapes.{cut};
ghost use Rattle.m4_mzd.specs.Window.{content};
ghost use Rattle.m4_mzd.specs.Seen.{shown};
ghost use Rattle.m4_mzd.specs.Held.{IsPadded};
ghost use Rattle.m4_mzd.specs.Home.{IsHomeOf};
ghost use Rattle.m4_mzd.specs.Rectangles.{IsInside};

use super::Mzd;
use crate::rect::Rect;
use crate::win::Win;
use crate::win_mut::WinMut;
use m4_area::{Storage, View};

/// The memory that the words of a matrix go back to, while the matrix is out as a window, or those of a scratch, while it
/// is out as room.
pub struct Home {
    pub(crate) storage: Storage,
}

impl Mzd {
    /// The whole matrix, for reading.
    #[inline]
    pub fn all(&self) -> Win<'_>
        ensures { shown result ≡ self.now }
    {
        Win {
            view: View::new(self.words.words()),
            cols: self.cols,
        }
    }

    /// A rectangle whose first column is a multiple of 64, for reading.
    pub fn win(&self, rect: Rect) -> Win<'_>
        requires inside { IsInside rect self.now.rows self.now.cols }
        requires whole_words { rect.c0 % 64 ≡ 0 }
        ensures { shown result ≡ cut self.now rect.r0 rect.c0 rect.r1 rect.c1 }
    {
        let (top, _) = self.all().split_rows(rect.r1);
        let (_, rows) = top.split_rows(rect.r0);
        let (_, part) = rows.split_cols(rect.c0);
        part.narrow(rect.c1 - rect.c0)
    }

    /// Takes the whole matrix out as a window for writing, with the memory that its words go back to, and leaves a matrix
    /// of no rows and no columns. The window can't be let go: `put_all` takes it back.
    pub fn all_mut(&mut self) -> (WinMut, Home)
        ensures content { content result.0 ≡ self.old }
        ensures home { IsHomeOf result.1 result.0 }
        ensures padded { IsPadded result.0 }
        ensures no_rows_left { self.new.rows ≡ 0 }
        ensures no_cols_left { self.new.cols ≡ 0 }
    {
        let (words, storage) = self.words.take();
        let cols = self.cols;
        self.cols = 0;
        let _rows = self.words.words().rows();
        (WinMut { words, cols }, Home { storage })
    }

    /// Takes a window back that was taken out whole, whatever its entries are by now. The matrix is then what the window
    /// holds.
    pub fn put_all(&mut self, all: WinMut, home: Home)
        requires home { IsHomeOf home all }
        requires padded { IsPadded all }
        ensures { self.new ≡ content all }
    {
        let WinMut { words, cols } = all;
        let Home { storage } = home;
        self.words.put(words, storage);
        self.cols = cols;
    }
}
