//! A rectangle of a matrix, out as a window for writing.

ghost use Rattle.std.specs.Prelude.{◌≡◌, ◌*◌, ◌%◌};
ghost use Rattle.m4_model.specs.Field.{width};
ghost use Rattle.m4_model.specs.Matrix.{Matrix};
ghost use Rattle.m4_model.specs.Shapes.{cut, replace};
ghost use Rattle.m4_mzd.specs.declared.rect.Rect.{Rect};
ghost use Rattle.m4_mzd.specs.Rectangles.{IsInside};
ghost use Rattle.m4_mzed.specs.EWindow.{content, showing};
ghost use Rattle.m4_mzed.specs.Taken.{IsAround, IsTakenOut};

use super::Mzed;
use crate::win_mut::EWinMut;
use m4_mzd::{Around, Rect};

impl Mzed {
    /// Takes a rectangle out as a window for writing, with what lies around it, and leaves a matrix of no rows and no
    /// columns. Its first column is at the beginning of a word. The window can't be let go: `put_win` takes it back.
    pub fn win_mut(&mut self, rect: Rect) -> (EWinMut, Around)
        requires inside { IsInside rect self.old.rows self.old.cols }
        requires whole_words { rect.c0 * width self.old.field % 64 ≡ 0 }
        ensures content { content result.0 ≡ cut self.old rect.r0 rect.c0 rect.r1 rect.c1 }
        ensures around { IsAround result.1 result.0 rect self.old }
        ensures whatever_it_shows { (B : Matrix) → IsAround result.1 (showing result.0 B) rect self.old }
        ensures no_rows_left { self.new.rows ≡ 0 }
        ensures no_cols_left { self.new.cols ≡ 0 }
    {
        let field = self.field;
        let width = field.width();
        let _all = self.bits.rows();
        self.cols = 0;
        let (bits, around) = self.bits.win_mut(Rect {
            r0: rect.r0,
            c0: rect.c0 * width,
            r1: rect.r1,
            c1: rect.c1 * width,
        });
        let _rows = self.bits.rows();
        let _part = bits.rows();
        (
            EWinMut {
                field,
                cols: rect.c1 - rect.c0,
                bits,
            },
            around,
        )
    }

    /// Takes a rectangle's window back, whatever its entries are by now. The matrix is then the one that the window was
    /// taken from, with the rectangle replaced by what the window holds.
    pub fn put_win(&mut self, part: EWinMut, around: Around)
        requires fits { IsTakenOut around part }
        ensures { (rect : Rect) (A : Matrix) → IsAround around part rect A → self.new ≡ replace A rect.r0 rect.c0 (content part) }
    {
        let EWinMut {
            field,
            cols: _,
            bits,
        } = part;
        let _part = bits.rows();
        self.field = field;
        self.bits.put_win(bits, around);
        self.cols = self.bits.cols() / field.width();
    }
}
