//! Which polynomials make fields, by brute force, and worked products and inverses.

ghost use Rattle.std.specs.Prelude.{◌≡◌, ◌<◌};
ghost use Rattle.m4_field.specs.Fields.{the_field};

use crate::{Field, FieldFault, FieldTables};
use std::test::Fail;

// The product of two polynomials of at most 16 bits, bit by bit.
fn product(a: u32, b: u32) -> u32
    requires first { a < 65536 }
    requires second { b < 65536 }
{
    let mut sum = 0;
    for i in 0..16u32 {
        if (b >> i) & 1 == 1 {
            sum ^= a << i;
        }
    }
    sum
}

// Marks the products of `a` with the polynomials from x to `a`.
fn mark_products(reducible: &mut [bool], a: u32)
    requires { a < 1024 }
{
    for b in 2..a + 1 {
        let p = product(a, b) as usize;
        if p < reducible.len() {
            reducible[p] = true;
        }
    }
}

// Whether a degree and a polynomial make a field.
fn is_field(e: u32, poly: u32) -> bool {
    match Field::new(e, poly) {
        Ok(_) => true,
        Err(_) => false,
    }
}

#[test]
fn exactly_the_irreducible_polynomials_of_degree_2_to_10_make_fields(
    rt: HostRuntime,
) -> Result<(), Fail> {
    let mut reducible = vec![in rt.alloc(); false; 2048usize]?;
    for a in 2..1024 {
        mark_products(reducible.as_mut_slice(), a);
    }
    let mut wrong = 0;
    for poly in 4..2048u32 {
        if is_field(poly.ilog2(), poly) == reducible.as_slice()[poly as usize] {
            wrong = poly;
        }
    }
    assert_eq!(rt; wrong, 0);
    Ok(())
}

// Degrees, and ten irreducible polynomials of each.
const IRREDUCIBLE: [(u32, [u32; 10]); 6] = [
    (
        11,
        [
            0x805, 0x817, 0x82b, 0x82d, 0x847, 0xffb, 0xfe9, 0xfe5, 0xfd3, 0xfcd,
        ],
    ),
    (
        12,
        [
            0x1009, 0x1017, 0x1021, 0x1033, 0x1035, 0x1fff, 0x1fed, 0x1fe1, 0x1fc9, 0x1fc5,
        ],
    ),
    (
        13,
        [
            0x201b, 0x2027, 0x2035, 0x2053, 0x2065, 0x3ffd, 0x3ff7, 0x3fe3, 0x3fb5, 0x3fab,
        ],
    ),
    (
        14,
        [
            0x4021, 0x402b, 0x4033, 0x4039, 0x403f, 0x7fe7, 0x7fe1, 0x7fd7, 0x7fd1, 0x7fc5,
        ],
    ),
    (
        15,
        [
            0x8003, 0x8011, 0x8017, 0x802d, 0x8035, 0xfffd, 0xffef, 0xffe9, 0xffd9, 0xffc7,
        ],
    ),
    (
        16,
        [
            0x1002b, 0x1002d, 0x10039, 0x1003f, 0x10047, 0x1ffed, 0x1ffeb, 0x1ffb1, 0x1ffa5,
            0x1ff93,
        ],
    ),
];

#[test]
fn ten_irreducible_polynomials_of_each_degree_from_11_make_fields(
    rt: HostRuntime,
) -> Result<(), Fail> {
    for case in &IRREDUCIBLE {
        for poly in &case.1 {
            assert!(rt; is_field(case.0, *poly));
            assert!(rt; !is_field(case.0, *poly ^ 1));
        }
    }
    Ok(())
}

// A degree and a polynomial that make no field, and why.
const REFUSED: [(u32, u32, FieldFault); 7] = [
    (0, 1, FieldFault::BadDegree),
    (1, 2, FieldFault::BadDegree),
    (17, 0x20009, FieldFault::BadDegree),
    (0xffff_ffff, 7, FieldFault::BadDegree),
    (2, 5, FieldFault::Reducible),
    (2, 0xb, FieldFault::Reducible),
    (16, 0xffff_ffff, FieldFault::Reducible),
];

#[test]
fn degrees_and_polynomials_are_refused(rt: HostRuntime) -> Result<(), Fail> {
    for case in &REFUSED {
        let fault = match Field::new(case.0, case.1) {
            Ok(_) => None,
            Err(fault) => Some(fault),
        };
        assert_eq!(rt; fault, Some(case.2));
    }
    Ok(())
}

// A degree, its polynomial, two elements and their product.
const PRODUCTS: [(u32, u32, u32, u32, u32); 7] = [
    (2, 7, 2, 3, 1),
    (4, 0x1f, 2, 8, 0xf),
    (4, 0x13, 2, 8, 3),
    (4, 0x1f, 3, 1, 3),
    (8, 0x11b, 0x53, 0xca, 1),
    (9, 0x203, 0x100, 2, 3),
    (16, 0x1002b, 0x8000, 2, 0x2b),
];

// The product of the two elements in the field, if there is one.
fn multiplied(e: u32, poly: u32, a: u32, b: u32) -> Option<u32> {
    match Field::new(e, poly) {
        Ok(f) => {
            let _degree = f.e();
            let elements = 1 << f.e();
            if a < elements && b < elements {
                Some(f.mul(a, b))
            } else {
                None
            }
        }
        Err(_) => None,
    }
}

#[test]
fn elements_are_multiplied(rt: HostRuntime) -> Result<(), Fail> {
    for case in &PRODUCTS {
        assert_eq!(rt; multiplied(case.0, case.1, case.2, case.3), Some(case.4));
    }
    Ok(())
}

// The least element whose inverse is wrong, or 0.
fn wrong_inverse(f: &Field, tables: &FieldTables) -> u32
    requires { tables.now ≡ the_field f.now }
{
    let _degree = f.e();
    for a in 1..1 << f.e() {
        if f.mul(a, tables.inv(a)) != 1 || tables.inv(a) != f.inv(a) {
            return a;
        }
    }
    0
}

#[test]
fn inverses_are_looked_up(rt: HostRuntime) -> Result<(), Fail> {
    if let Ok(f) = Field::new(8, 0x11b) {
        let tables = FieldTables::new(rt.alloc(), &f)?;
        assert_eq!(rt; wrong_inverse(&f, &tables), 0);
        assert_eq!(rt; tables.inv(0x53), 0xca);
    }
    Ok(())
}
