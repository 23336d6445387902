//! A rectangle of a matrix, out as a window for writing.

ghost use Rattle.std.specs.Prelude.{◌≡◌, ◌%◌};
ghost use Rattle.m4_model.specs.Matrix.{Matrix};
ghost use Rattle.m4_model.specs.Shapes.{cut, replace};
ghost use Rattle.m4_mzd.specs.declared.rect.Rect.{Rect};
ghost use Rattle.m4_mzd.specs.Window.{content, showing};
ghost use Rattle.m4_mzd.specs.Rectangles.{IsInside};
ghost use Rattle.m4_mzd.specs.Around.{IsAround, IsTakenOut};

use super::Mzd;
use super::around::Around;
use crate::rect::Rect;
use crate::win_mut::WinMut;
use m4_bits::words_for;

impl Mzd {
    /// Takes a rectangle out as a window for writing, with what lies around it, and leaves a matrix of no rows and no
    /// columns. The window can't be let go: `put_win` takes it back, whatever matrix it shows by then.
    pub fn win_mut(&mut self, rect: Rect) -> (WinMut, Around)
        requires inside { IsInside rect self.old.rows self.old.cols }
        requires whole_words { rect.c0 % 64 ≡ 0 }
        ensures content { content result.0 ≡ cut self.old rect.r0 rect.c0 rect.r1 rect.c1 }
        ensures around { IsAround result.1 result.0 rect self.old }
        ensures whatever_it_shows { (B : Matrix) → IsAround result.1 (showing result.0 B) rect self.old }
        ensures no_rows_left { self.new.rows ≡ 0 }
        ensures no_cols_left { self.new.cols ≡ 0 }
    {
        let cols = self.cols;
        let (words, storage) = self.words.take();
        self.cols = 0;
        let _rows = self.words.words().rows();
        let (top, below) = words.split_rows(rect.r1 as usize);
        let (above, rows) = top.split_rows(rect.r0 as usize);
        let (left, rest) = rows.split_words((rect.c0 / 64) as usize);
        let width = rect.c1 - rect.c0;
        let (part, right) = rest.split_words(words_for(width) as usize);
        (
            WinMut {
                words: part,
                cols: width,
            },
            Around {
                above,
                below,
                left,
                right,
                storage,
                cols,
            },
        )
    }

    /// Takes a rectangle's window back, whatever its entries are by now. The matrix is then the one that the window was
    /// taken from, with the rectangle replaced by what the window holds.
    pub fn put_win(&mut self, part: WinMut, around: Around)
        requires fits { IsTakenOut around part }
        ensures { (rect : Rect) (A : Matrix) → IsAround around part rect A → self.new ≡ replace A rect.r0 rect.c0 (content part) }
    {
        let WinMut { words, cols: _ } = part;
        let Around {
            above,
            below,
            left,
            right,
            storage,
            cols,
        } = around;
        let rows = left.join_words(words).join_words(right);
        self.words
            .put(above.join_rows(rows).join_rows(below), storage);
        self.cols = cols;
        let _rows = self.words.words().rows();
    }
}
