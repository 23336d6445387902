//! Whether a certificate holds: products are made row by row, and entries are looked at.

ghost use Rattle.std.specs.Prelude.{◌≡◌, ◌↔◌, IfOk, IsTrue};
ghost use Rattle.m4_field.specs.Fields.{the_field};
ghost use Rattle.m4_cert.specs.Certificates.{CertNone, CertSingular};

use crate::products::product;
use crate::zeros::is_zero;
use m4_eshape::etranspose;
use m4_field::Field;
use m4_model::NoMemory;
use m4_mzed::Mzed;
use std::alloc::Global;

/// Whether the rows of `k` show that `a` is singular: `a` is square, the two have one field and as many columns, some entry of
/// `k` isn't zero, and `a` takes every row of `k` to zero. Matrices of other shapes show nothing.
///
/// It takes memory for the transpose of `a`, and for its product with `k`, which has a row for each row of `k`.
pub fn singular_holds(alloc: Global, a: &Mzed, k: &Mzed) -> Result<bool, NoMemory>
    ensures { IfOk result (λ holds. IsTrue holds ↔ CertSingular a.now k.now) }
{
    if a.cols() != a.rows() || k.cols() != a.cols() {
        return Ok(false);
    }
    if !are_same(k.field(), a.field()) || is_zero(k) {
        return Ok(false);
    }
    let turned = etranspose(alloc, &a.all())?;
    let killed = product(alloc, k, &turned)?;
    Ok(is_zero(&killed))
}

/// Whether the rows of `w` show that no X solves A X = B: the three have one field, `a` and `b` have as many rows as `w` has
/// columns, the product of `w` and `a` is zero, and some entry of that of `w` and `b` isn't. Matrices of other shapes show
/// nothing.
///
/// It takes memory for both products, one after the other.
pub fn none_holds(alloc: Global, a: &Mzed, b: &Mzed, w: &Mzed) -> Result<bool, NoMemory>
    ensures { IfOk result (λ holds. IsTrue holds ↔ CertNone a.now b.now w.now) }
{
    if !are_same(b.field(), a.field()) || !are_same(w.field(), a.field()) {
        return Ok(false);
    }
    if a.rows() != w.cols() || b.rows() != w.cols() {
        return Ok(false);
    }
    if !is_zero(&product(alloc, w, a)?) {
        return Ok(false);
    }
    Ok(!is_zero(&product(alloc, w, b)?))
}

/// Whether two fields are the same: of one degree, and of one polynomial.
fn are_same(f: Field, g: Field) -> bool
    ensures { IsTrue result ↔ (the_field f ≡ the_field g) }
{
    f.e() == g.e() && f.poly() == g.poly()
}
