//! What can be asked for, and what stands in the places behind the word that names it.

/// A generated matrix: the degree and the polynomial of its field, its shape, and the seed that it is made from.
///
/// GF(2) is the field of degree 1 and of the polynomial x, which is the number 2.
#[derive(Clone, Copy, Debug, PartialEq, Eq)]
pub struct Seeded {
    /// The degree of the field, from 1 to 16.
    pub degree: u32,
    /// The polynomial of the field, whose bits are its coefficients.
    pub poly: u32,
    /// The rows.
    pub rows: u32,
    /// The columns.
    pub cols: u32,
    /// The seed of the generator.
    pub seed: u64,
}

impl Seeded {
    /// Zeros in all places, where none is filled yet.
    pub const NONE: Seeded = Seeded {
        degree: 0,
        poly: 0,
        rows: 0,
        cols: 0,
        seed: 0,
    };
}

/// A command, with its numbers.
#[derive(Clone, Copy, Debug, PartialEq, Eq)]
pub enum Command {
    /// The product of two matrices.
    Mul,
    /// A matrix, with the product of two others added to the rectangle of its shape at this row and column.
    Addmul {
        row: u32,
        col: u32,
    },
    /// The sum of two matrices.
    Add,
    /// The matrix with its rows as columns.
    Transpose,
    /// A matrix over another.
    Stack,
    /// A matrix left of another.
    Augment,
    /// Rows `row` to `row_end - 1` and columns `col` to `col_end - 1` of a matrix.
    Sub {
        row: u32,
        col: u32,
        row_end: u32,
        col_end: u32,
    },
    /// The matrix itself, which is read in one form and written in another.
    Convert,
    /// The rank of a matrix.
    Rank,
    /// The reduced row echelon form, with all its rows.
    Echelon,
    /// The inverse, or that the matrix is singular.
    Inverse,
    /// The solution X of A X = B whose rows at the free columns of A are zero, or that there is none.
    Solve,
    /// The basis of the kernel that is the identity at the free columns.
    Kernel,
    /// A PLE: the rows of the matrix, in some order, are those of L E.
    Ple,
    /// A PLUQ: the entries of the matrix, rows and columns in some order, are those of L U.
    Pluq,
    /// The matrix that a seed generates.
    Make(Seeded),
    /// The rank of the matrix that a seed generates, and how many entries of its reduced form aren't zero.
    Trial(Seeded),
}

/// What stands in a place behind the word that names the command.
#[derive(Clone, Copy, Debug, PartialEq, Eq)]
pub enum Kind {
    /// The name of a file.
    FileName,
    /// A number.
    Number,
    /// A field: `gf2`, or a degree in decimal and a polynomial in hexadecimal with a colon between them.
    FieldName,
    /// The seed of a generated matrix.
    Seed,
}
