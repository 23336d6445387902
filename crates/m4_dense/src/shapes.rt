//! Sums, the transpose, and matrices put together and cut out, over every field.

ghost use Rattle.std.specs.Prelude.{◌≡◌, ◌+◌, ◌*◌, ◌^◌, ◌≤◌, IfOk};
ghost use Rattle.m4_model.specs.Field.{width};
ghost use Rattle.m4_model.specs.Matrix.{added};
ghost use Rattle.m4_model.specs.Shapes.{above, beside, cut, transposed};
ghost use Rattle.m4_mzd.specs.Rectangles.{IsInside};

use m4_eshape::{eadd_into, eaugment, estack, esub, etranspose};
use m4_model::NoMemory;
use m4_mzd::{MOST_SIDE, Rect};
use m4_mzed::Mzed;
use std::alloc::Global;

/// The sum of two matrices over the same field and of the same shape. It takes memory for the sum.
pub fn sum(alloc: Global, a: &Mzed, b: &Mzed) -> Result<Mzed, NoMemory>
    requires same_field { b.now.field ≡ a.now.field }
    requires same_rows { b.now.rows ≡ a.now.rows }
    requires same_cols { b.now.cols ≡ a.now.cols }
    ensures { IfOk result (λ c. c ≡ added a.now b.now) }
{
    let mut c = a.copy(alloc)?;
    add_into(&mut c, b);
    Ok(c)
}

/// Adds `b` to a matrix over the same field and of the same shape, word by word. It takes no memory.
pub fn add_into(a: &mut Mzed, b: &Mzed)
    requires same_field { b.now.field ≡ a.old.field }
    requires same_rows { b.now.rows ≡ a.old.rows }
    requires same_cols { b.now.cols ≡ a.old.cols }
    ensures { a.new ≡ added a.old b.now }
{
    let (mut all, home) = a.all_mut();
    eadd_into(&mut all, &b.all());
    a.put_all(all, home);
}

/// The transpose of an m x n matrix: an n x m matrix, whose rows of m entries take at most 2^24 bits. It takes memory for
/// the transpose.
///
/// Over GF(2) the matrix is halved until its parts suit each cache, and turned there in blocks of 64 x 64 bits; over other
/// fields it is turned in square blocks that have one word a row.
pub fn transpose(alloc: Global, a: &Mzed) -> Result<Mzed, NoMemory>
    requires few_bits { a.now.rows * width a.now.field ≤ MOST_SIDE }
    ensures { IfOk result (λ m. m ≡ transposed a.now) }
{
    let _cols = a.cols();
    etranspose(alloc, &a.all())
}

/// `a` over `b`, a matrix over the same field and of as many columns. Both have at most 2^24 rows together. It takes memory
/// for the answer.
pub fn stack(alloc: Global, a: &Mzed, b: &Mzed) -> Result<Mzed, NoMemory>
    requires same_field { b.now.field ≡ a.now.field }
    requires same_cols { b.now.cols ≡ a.now.cols }
    requires few_rows { a.now.rows + b.now.rows ≤ MOST_SIDE }
    ensures { IfOk result (λ m. m ≡ above a.now b.now) }
{
    estack(alloc, &a.all(), &b.all())
}

/// `a` left of `b`, a matrix over the same field and of as many rows. The rows of the answer take at most 2^24 bits. It
/// takes memory for the answer.
pub fn augment(alloc: Global, a: &Mzed, b: &Mzed) -> Result<Mzed, NoMemory>
    requires same_field { b.now.field ≡ a.now.field }
    requires same_rows { b.now.rows ≡ a.now.rows }
    requires few_bits { (a.now.cols + b.now.cols) * width a.now.field ≤ MOST_SIDE }
    ensures { IfOk result (λ m. m ≡ beside a.now b.now) }
{
    eaugment(alloc, &a.all(), &b.all())
}

/// A rectangle of a matrix that lies inside of it, as a matrix of its own. It may begin at any column, and is copied by
/// shifted words. It takes memory for the answer.
pub fn rectangle(alloc: Global, a: &Mzed, rect: Rect) -> Result<Mzed, NoMemory>
    requires inside { IsInside rect a.now.rows a.now.cols }
    ensures { IfOk result (λ m. m ≡ cut a.now rect.r0 rect.c0 rect.r1 rect.c1) }
{
    esub(alloc, &a.all(), rect)
}
