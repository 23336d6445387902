//! The remainders of polynomials in slices, on division by a field's polynomial.

ghost use Rattle.std.specs.Prelude.{◌≡◌, ℕ, ◌+◌, ◌-◌, ◌*◌, ◌^◌, ◌<◌, ◌≤◌};
ghost use Rattle.std.specs.Int.{bit_at};
ghost use Rattle.m4_model.specs.Field.{rem};
ghost use Rattle.m4_model.specs.Matrix.{at};
ghost use Rattle.m4_field.specs.Fields.{the_field};
ghost use Rattle.m4_mzd.specs.Window.{content, showing};
ghost use Rattle.m4_mzd.specs.Seen.{shown};
ghost use Rattle.m4_karatsuba.specs.Factors.{HasSlices, IsAdded};
ghost use Rattle.m4_karatsuba.specs.Polynomials.{polynomial};
ghost use Rattle.m4_karatsuba.specs.Reduced.{terms_of};

use crate::sums::add_rows_from;
use m4_field::Field;
use m4_mzd::{Shape, Win, WinMut};

/// Reduces the polynomials in slices, as many as a product of elements has: the slices from the degree on are folded into those
/// below them, the highest first, and the others then hold the remainders.
pub(crate) fn reduce(c: &mut WinMut, field: Field, shape: Shape)
    requires { HasSlices (2 * (the_field field).degree - 1) shape c.old }
    ensures kept { c.new ≡ showing c.old (content c.new) }
    ensures remainders { (i j : ℕ) → i < shape.m → j < shape.n
        → polynomial (the_field field).degree shape.m (content c.new) i j ≡ rem (the_field field) (polynomial (2 * (the_field field).degree - 1) shape.m (content c.old) i j) }
{
    let degree = field.e();
    for v in (degree..2 * degree - 1).rev() {
        fold_slice(c, field, shape, v);
    }
    let _rows = c.rows();
}

/// Adds to the slices below slice `v` what it stands for there: x^v is, up to a multiple of the field's polynomial, the rest of
/// that polynomial times a power of x.
fn fold_slice(c: &mut WinMut, field: Field, shape: Shape, v: u32)
    requires high { (the_field field).degree ≤ v }
    requires few { v < 2 * (the_field field).degree }
    requires in_rows { (v + 1) * shape.m ≤ c.old.rows }
    requires cols { c.old.cols ≡ shape.n }
    ensures kept { c.new ≡ showing c.old (content c.new) }
    ensures remainders { (i j : ℕ) → i < shape.m → j < shape.n
        → rem (the_field field) (polynomial v shape.m (content c.new) i j) ≡ rem (the_field field) (polynomial (v + 1) shape.m (content c.old) i j) }
{
    let degree = field.e();
    let _rows = c.rows();
    let (mut low, high) = c.take().split_rows(v * shape.m);
    let (slice, _) = high.see().split_rows(shape.m);
    add_terms(&mut low, field, shape, v - degree, &slice);
    let _low_rows = low.rows();
    c.put_back(low.join_rows(high));
}

/// Adds a slice, times x^first and the terms of the field's polynomial but the highest, to slices.
fn add_terms(c: &mut WinMut, field: Field, shape: Shape, first: u32, slice: &Win)
    requires few { first < (the_field field).degree }
    requires slices { HasSlices (first + (the_field field).degree) shape c.old }
    requires rows { (shown slice.now).rows ≡ shape.m }
    requires cols { (shown slice.now).cols ≡ shape.n }
    ensures { IsAdded (first + (the_field field).degree) shape c.old c.new (λ i j. terms_of (the_field field) first (at (shown slice.now) i j)) }
{
    for t in 0..field.e() {
        add_term(c, field, shape, first, t, slice);
    }
}

/// Adds a slice, times x^first and the term of x^t of the field's polynomial, to slices.
fn add_term(c: &mut WinMut, field: Field, shape: Shape, first: u32, t: u32, slice: &Win)
    requires few { first < (the_field field).degree }
    requires term { t < (the_field field).degree }
    requires slices { HasSlices (first + (the_field field).degree) shape c.old }
    requires rows { (shown slice.now).rows ≡ shape.m }
    requires cols { (shown slice.now).cols ≡ shape.n }
    ensures { IsAdded (first + (the_field field).degree) shape c.old c.new (λ i j. bit_at (the_field field).poly t * (at (shown slice.now) i j * 2 ^ first * 2 ^ t)) }
{
    let _degree = field.e();
    let _rows = c.rows();
    if (field.poly() >> t) & 1 == 1 {
        add_rows_from(c, (first + t) * shape.m, slice);
    }
}
