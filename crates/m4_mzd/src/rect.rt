//! A rectangle of a matrix.

/// Rows `r0` to `r1 - 1` and columns `c0` to `c1 - 1`.
#[derive(Clone, Copy, Debug, PartialEq, Eq)]
pub struct Rect {
    /// The first row.
    pub r0: u32,
    /// The first column.
    pub c0: u32,
    /// The row past the last one.
    pub r1: u32,
    /// The column past the last one.
    pub c1: u32,
}

/// Why a rectangle is refused.
#[derive(Clone, Copy, Debug, PartialEq, Eq)]
pub enum RectFault {
    /// The first column is not at a beginning of a word, or of what else the step counts.
    Unaligned,
    /// The rectangle does not lie inside the matrix.
    Outside,
}

impl Rect {
    ghost use Rattle.std.specs.Prelude.{◌<◌};
    ghost use Rattle.m4_mzd.specs.Rectangles.{CheckGives};

    /// Whether the rectangle lies in a matrix of so many rows and columns, and its first column is a multiple of `step`.
    pub fn check(&self, rows: u32, cols: u32, step: u32) -> Result<(), RectFault>
        requires { 0 < step }
        ensures { CheckGives self.now rows cols step result }
    {
        if self.c0 % step != 0 {
            Err(RectFault::Unaligned)
        } else if self.r0 <= self.r1 && self.c0 <= self.c1 && self.r1 <= rows && self.c1 <= cols {
            Ok(())
        } else {
            Err(RectFault::Outside)
        }
    }
}
