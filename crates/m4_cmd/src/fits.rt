//! Whether the operands' fields and shapes fit a command.

ghost use Rattle.std.specs.Prelude.{◌≡◌, ◌↔◌, IsTrue};
ghost use Rattle.m4_model.specs.Shapes.{HasRoom};
ghost use Rattle.m4_outcome.specs.Outcome.{AreOver, Fits, HasRectangle, ShareField};
ghost use Rattle.m4_field.specs.Fields.{the_field};

use m4_dense::{Field, Mzed, Rect};
use m4_outcome::Command;

/// Whether the matrices are over one field.
pub(crate) fn share_field(matrices: &[Mzed]) -> bool
    ensures { IsTrue result ↔ ShareField matrices.now }
{
    match matrices.split_first() {
        Some((first, others)) => are_over(first.field(), others),
        None => true,
    }
}

/// Whether the matrices are over this field.
fn are_over(field: Field, matrices: &[Mzed]) -> bool
    ensures { IsTrue result ↔ AreOver (the_field field) matrices.now }
{
    for matrix in matrices {
        if !are_same(matrix.field(), field) {
            return false;
        }
    }
    true
}

/// Whether two fields are the same: of one degree, and of one polynomial.
fn are_same(f: Field, g: Field) -> bool
    ensures { IsTrue result ↔ (the_field f ≡ the_field g) }
{
    f.e() == g.e() && f.poly() == g.poly()
}

/// Whether the operands are as many as the command takes, and their shapes fit it.
pub(crate) fn fits(command: Command, operands: &[Mzed]) -> bool
    ensures { IsTrue result ↔ Fits command operands.now }
{
    match (command, operands) {
        (Command::Mul, [a, b]) => a.cols() == b.rows(),
        (Command::Addmul { row, col }, [c, a, b]) => {
            a.cols() == b.rows() && has_room(c, row, col, a.rows(), b.cols())
        }
        (Command::Add, [a, b]) => a.rows() == b.rows() && a.cols() == b.cols(),
        (Command::Stack, [a, b]) => a.cols() == b.cols(),
        (Command::Augment | Command::Solve, [a, b]) => a.rows() == b.rows(),
        (
            Command::Sub {
                row,
                col,
                row_end,
                col_end,
            },
            [a],
        ) => {
            let rect = Rect {
                r0: row,
                c0: col,
                r1: row_end,
                c1: col_end,
            };
            has_rectangle(a, rect)
        }
        (Command::Inverse, [a]) => a.cols() == a.rows(),
        (Command::Transpose | Command::Convert | Command::Rank, [_]) => true,
        (Command::Echelon | Command::Kernel | Command::Ple | Command::Pluq, [_]) => true,
        (Command::Make(_) | Command::Trial(_), []) => true,
        _ => false,
    }
}

/// Whether a rectangle of so many rows and columns at this place of `c` begins at a word's first column, and lies within
/// `c`.
fn has_room(c: &Mzed, row: u32, col: u32, rows: u32, cols: u32) -> bool
    ensures { IsTrue result ↔ HasRoom c.now row col rows cols }
{
    let (high, wide) = (c.rows(), c.cols());
    row <= high
        && rows <= high - row
        && col <= wide
        && cols <= wide - col
        && col * c.field().width() % 64 == 0
}

/// Whether this is a rectangle of `a`.
fn has_rectangle(a: &Mzed, rect: Rect) -> bool
    ensures { IsTrue result ↔ HasRectangle a.now rect.r0 rect.c0 rect.r1 rect.c1 }
{
    rect.check(a.rows(), a.cols(), 1).is_ok()
}
