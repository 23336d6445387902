//! Commands over extension fields: worked by hand, and products multiplied out.

ghost use Rattle.std.specs.Prelude.{◌<◌, ◌≤◌};

use super::{
    AMPLE, Case, MUL, add_to, assert_case, assert_ended, assert_past_a_limit, assert_product,
    repeated,
};
use m4_cmd::Status;
use m4_model::NoMemory;
use rand_core::{Rng, SeedableRng};
use rand_xoshiro::Xoshiro256PlusPlus;
use std::alloc::{AllocError, Global};
use std::process::Abort;
use std::test::Fail;

/// What is answered over extension fields, and what is refused.
const CASES: [Case<'static>; 16] = [
    (
        &MUL,
        "gf2e 4 1f 1 1\n2\n",
        "gf2e 4 1f 1 1\n8\n",
        Status::Done,
        "gf2e 4 1f 1 1\nf\n",
    ),
    (
        &MUL,
        "gf2e 4 13 1 1\n2\n",
        "gf2e 4 13 1 1\n8\n",
        Status::Done,
        "gf2e 4 13 1 1\n3\n",
    ),
    (
        &MUL,
        "gf2e 4 1f 1 1\n2\n",
        "gf2e 4 13 1 1\n8\n",
        Status::Shape,
        "",
    ),
    (&MUL, "gf2 1 1\n1\n", "gf2e 2 7 1 1\n1\n", Status::Shape, ""),
    (
        &MUL,
        "gf2e 2 7 1 1\n1\n",
        "gf2 1 1\n2\n",
        Status::Text { operand: 2, at: 8 },
        "",
    ),
    (
        &MUL,
        "gf2e 16 1002b 1 1\n8000\n",
        "gf2e 16 1002b 1 1\n0002\n",
        Status::Done,
        "gf2e 16 1002b 1 1\n002b\n",
    ),
    (
        &MUL,
        "gf2e 9 203 1 1\n100\n",
        "gf2e 9 203 1 1\n002\n",
        Status::Done,
        "gf2e 9 203 1 1\n003\n",
    ),
    (
        &MUL,
        "gf2e 9 203 1 1\n200\n",
        "",
        Status::Text { operand: 1, at: 15 },
        "",
    ),
    (
        &["rank", "A"],
        "gf2e 2 5 1 1\n1\n",
        "",
        Status::Text { operand: 1, at: 7 },
        "",
    ),
    (
        &["rank", "A"],
        "gf2e 17 3 1 1\n1\n",
        "",
        Status::Text { operand: 1, at: 5 },
        "",
    ),
    (
        &["add", "A", "B"],
        "gf2e 2 7 1 2\n12\n",
        "gf2e 2 7 1 2\n30\n",
        Status::Done,
        "gf2e 2 7 1 2\n22\n",
    ),
    (
        &["add", "A", "B"],
        "gf2e 2 7 1 2\n12\n",
        "gf2e 2 7 1 1\n3\n",
        Status::Shape,
        "",
    ),
    (
        &["transpose", "A"],
        "gf2e 2 7 2 3\n110\n011\n",
        "",
        Status::Done,
        "gf2e 2 7 3 2\n10\n11\n01\n",
    ),
    (
        &["stack", "A", "B"],
        "gf2e 2 7 1 2\n10\n",
        "gf2e 2 7 1 2\n01\n",
        Status::Done,
        "gf2e 2 7 2 2\n10\n01\n",
    ),
    (
        &["augment", "A", "B"],
        "gf2e 2 7 1 2\n10\n",
        "gf2e 2 7 1 2\n01\n",
        Status::Done,
        "gf2e 2 7 1 4\n1001\n",
    ),
    (
        &["sub", "A", "0", "1", "2", "3"],
        "gf2e 2 7 2 3\n110\n011\n",
        "",
        Status::Done,
        "gf2e 2 7 2 2\n10\n11\n",
    ),
];

#[test]
fn commands_over_extension_fields(rt: HostRuntime) -> Result<(), Fail> {
    for case in &CASES {
        assert_case(&rt, rt.alloc(), *case)?;
    }
    Ok(())
}

#[test]
fn products_that_are_added_over_an_extension_field(rt: HostRuntime) -> Result<(), Fail> {
    let c = b"gf2e 8 11b 1 10\n00000000000000000000\n";
    let (a, b) = ("gf2e 8 11b 1 1\n01\n", "gf2e 8 11b 1 2\n0203\n");
    let ended = add_to(rt.alloc(), c, "0", "8", a, b)?;
    let sum = b"gf2e 8 11b 1 10\n00000000000000000203\n";
    assert_ended(&rt, &ended, Status::Done, sum, "");
    let ended = add_to(rt.alloc(), c, "0", "4", a, b)?;
    assert_ended(
        &rt,
        &ended,
        Status::Shape,
        b"",
        "m4lin: shapes do not fit\n",
    );
    Ok(())
}

#[test]
fn a_product_past_a_limit_for_its_width(rt: HostRuntime) -> Result<(), Fail> {
    let tall = repeated(rt.alloc(), "gf2e 16 1002b 65536 0\n", "\n", 65535)?;
    assert_past_a_limit(&rt, rt.alloc(), &MUL, &tall, "gf2e 16 1002b 0 257\n")?;
    Ok(())
}

/// A degree, and an irreducible polynomial of that degree.
pub(super) type Field = (u32, u32);

/// A field of each degree.
pub(super) const FIELDS: [Field; 15] = [
    (2, 0x7),
    (3, 0xb),
    (4, 0x13),
    (5, 0x25),
    (6, 0x43),
    (7, 0x83),
    (8, 0x11b),
    (9, 0x203),
    (10, 0x409),
    (11, 0x805),
    (12, 0x1053),
    (13, 0x201b),
    (14, 0x4443),
    (15, 0x8003),
    (16, 0x1002b),
];

/// The rows of the products, the columns of their first factors, and their columns.
const ROWS: usize = 3;

const INNER: usize = 70;

const COLS: usize = 9;

/// So many random elements of a field.
pub(super) fn elements(
    alloc: Global,
    source: &mut Xoshiro256PlusPlus,
    degree: u32,
    count: usize,
) -> Result<Vec<u32>, AllocError>
    requires { degree ≤ 16 }
{
    let mut elements = Vec::new(alloc);
    for _ in 0..count {
        elements.push((source.next_u32() % 65536) >> (16 - degree))?;
    }
    Ok(elements)
}

/// The product of two elements: that of the polynomials, and what it leaves when it is divided by the field's.
fn times(a: u32, b: u32, field: Field) -> u32
    requires { field.0 ≤ 16 }
{
    let mut product = 0;
    for i in 0..field.0 {
        if (b >> i) & 1 == 1 {
            product ^= a << i;
        }
    }
    for i in (0..field.0).rev() {
        if (product >> (field.0 + i)) & 1 == 1 {
            product ^= field.1 << i;
        }
    }
    product
}

/// The sum of the products of a row's elements and those in a column of `b`, which has so many columns.
fn entry(rt: &impl Abort, row: &[u32], b: &[u32], cols: usize, col: usize, field: Field) -> u32
    requires field { field.0 ≤ 16 }
    requires some { 0 < cols }
{
    let mut sum = 0;
    for (x, others) in row.iter().zip(b.chunks(cols)) {
        sum ^= times(*x, *others.get(col).expect(rt, "an entry"), field);
    }
    sum
}

/// The product of a matrix of `inner` columns and one of `cols` columns, by its definition.
pub(super) fn multiplied_out(
    rt: &impl Abort,
    alloc: Global,
    a: &[u32],
    inner: usize,
    b: &[u32],
    cols: usize,
    field: Field,
) -> Result<Vec<u32>, AllocError>
    requires field { field.0 ≤ 16 }
    requires some_inner { 0 < inner }
    requires some { 0 < cols }
{
    let mut product = Vec::new(alloc);
    for row in a.chunks(inner) {
        for col in 0..cols {
            product.push(entry(rt, row, b, cols, col, field))?;
        }
    }
    Ok(product)
}

/// The digits of an element, the highest first.
fn digits_of(alloc: Global, element: u32, degree: u32) -> Result<String, AllocError> {
    if degree > 12 {
        format!(in alloc; "{element:04x}")
    } else if degree > 8 {
        format!(in alloc; "{element:03x}")
    } else if degree > 4 {
        format!(in alloc; "{element:02x}")
    } else {
        format!(in alloc; "{element:x}")
    }
}

/// The text of a matrix of so many columns.
pub(super) fn text_of(
    alloc: Global,
    elements: &[u32],
    cols: usize,
    field: Field,
) -> Result<String, AllocError>
    requires { 0 < cols }
{
    let (degree, poly) = field;
    let rows = elements.len() / cols;
    let mut text = format!(in alloc; "gf2e {degree} {poly:x} {rows} {cols}\n")?;
    for row in elements.chunks(cols) {
        for element in row {
            text.push_str(digits_of(alloc, *element, degree)?.as_str())?;
        }
        text.push('\n')?;
    }
    Ok(text)
}

/// Sees that the product of two random matrices is the one of the definition, however it is computed.
fn assert_multiplied(
    rt: &impl Abort,
    alloc: Global,
    source: &mut Xoshiro256PlusPlus,
    field: Field,
) -> Result<(), NoMemory>
    requires { field.0 ≤ 16 }
{
    let a = elements(alloc, source, field.0, ROWS * INNER)?;
    let b = elements(alloc, source, field.0, INNER * COLS)?;
    let product = multiplied_out(rt, alloc, &a, INNER, &b, COLS, field)?;
    let left = text_of(alloc, &a, INNER, field)?;
    let right = text_of(alloc, &b, COLS, field)?;
    let answer = text_of(alloc, &product, COLS, field)?;
    assert_product(
        rt,
        alloc,
        left.as_bytes(),
        right.as_bytes(),
        answer.as_bytes(),
    )
}

#[test]
fn products_over_fields_of_each_degree(rt: HostRuntime) -> Result<(), Fail> {
    let mut source = Xoshiro256PlusPlus::seed_from_u64(7);
    for &field in &FIELDS {
        if field.0 <= 16 {
            assert_multiplied(&rt, rt.alloc(), &mut source, field)?;
        }
    }
    Ok(())
}
