//! Answers that need not be a matrix.

use m4_mzed::Mzed;

/// What `invert` answers.
#[derive(Drop)]
pub enum Inverse {
    /// The inverse.
    Is(Mzed),
    /// There is none: the matrix takes a column that isn't zero to zero.
    Singular,
}

/// What `solve` answers.
#[derive(Drop)]
pub enum Solution {
    /// A solution.
    Is(Mzed),
    /// There is none.
    NoSolution,
}
