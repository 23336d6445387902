//! Sums and copies over a field whose elements don't fill their places, and over GF(2).

ghost use Rattle.std.specs.Prelude.{◌≡◌, ◌^◌, ◌<◌, ◌≤◌, IfOk};
ghost use Rattle.m4_field.specs.Fields.{the_field};

use crate::{eadd_into, eaugment, estack, esub, etranspose};
use m4_field::Field;
use m4_model::NoMemory;
use m4_mzd::Rect;
use m4_mzed::Mzed;
use std::alloc::Global;
use std::test::Fail;

// A matrix of 3 rows and 5 columns whose entries tell their places, as far as the field has elements.
fn counted(alloc: Global, field: Field) -> Result<Mzed, NoMemory>
    ensures { IfOk result (λ m. (m.rows ≡ 3) × (m.cols ≡ 5) × (m.field ≡ the_field field)) }
{
    let _degree = field.e();
    let mut m = Mzed::zeros(alloc, field, 3, 5)?;
    for c in 0..5u32 {
        put_column(&mut m, c);
    }
    Ok(m)
}

// Writes a column of numbers that tell their places.
fn put_column(m: &mut Mzed, c: u32)
    requires in_cols { c < m.old.cols }
    requires few { m.old.cols ≤ 5 }
    ensures rows { m.new.rows ≡ m.old.rows }
    ensures cols { m.new.cols ≡ m.old.cols }
    ensures field { m.new.field ≡ m.old.field }
{
    let field = m.field();
    let _degree = field.e();
    let elements = 1u32 << field.e();
    for r in 0..m.rows() {
        m.put(r, c, (r * 5 + c) % elements);
    }
}

// Whether the entries of a matrix that is turned, and of others made of it, are where they belong.
fn is_in_place(alloc: Global, field: Field) -> Result<bool, NoMemory> {
    let m = counted(alloc, field)?;
    let _width = field.width();
    let turned = etranspose(alloc, &m.all())?;
    let doubled = estack(alloc, &m.all(), &m.all())?;
    let wide = eaugment(alloc, &m.all(), &m.all())?;
    let rect = Rect {
        r0: 1,
        c0: 2,
        r1: 3,
        c1: 5,
    };
    let part = esub(alloc, &m.all(), rect)?;
    let x = m.get(2, 3);
    Ok(
        turned.get(3, 2) == x
            && doubled.get(5, 3) == x
            && wide.get(2, 8) == x
            && part.get(1, 1) == x,
    )
}

// Whether the sum of a matrix and itself is zero where it was not.
fn is_cancelled(alloc: Global, field: Field) -> Result<bool, NoMemory> {
    let m = counted(alloc, field)?;
    let mut sum = m.copy(alloc)?;
    let (mut all, home) = sum.all_mut();
    eadd_into(&mut all, &m.all());
    sum.put_all(all, home);
    Ok(m.get(0, 1) == 1 && sum.get(0, 1) == 0)
}

// A matrix of elements without an order.
fn mixed(alloc: Global, field: Field, rows: u32, cols: u32) -> Result<Mzed, NoMemory>
    requires few_rows { rows ≤ 1024 }
    requires few_cols { cols ≤ 1024 }
    ensures { IfOk result (λ m. (m.rows ≡ rows) × (m.cols ≡ cols) × (m.field ≡ the_field field)) }
{
    let _degree = field.e();
    let mut m = Mzed::zeros(alloc, field, rows, cols)?;
    for r in 0..rows {
        mix_row(&mut m, r);
    }
    Ok(m)
}

// Writes elements without an order into a row.
fn mix_row(m: &mut Mzed, r: u32)
    requires { r < m.old.rows }
    ensures rows { m.new.rows ≡ m.old.rows }
    ensures cols { m.new.cols ≡ m.old.cols }
    ensures field { m.new.field ≡ m.old.field }
{
    let field = m.field();
    let _degree = field.e();
    let elements = 1u32 << field.e();
    let mut word = 0x9E37_79B9_7F4A_7C15u64 ^ u64::from(r);
    for c in 0..m.cols() {
        word ^= word << 13;
        word ^= word >> 7;
        word ^= word << 17;
        m.put(r, c, (word >> 40) as u32 % elements);
    }
}

// Whether each entry of a matrix of this shape is in its place in the transpose.
fn is_turned(alloc: Global, field: Field, rows: u32, cols: u32) -> Result<bool, NoMemory>
    requires few_rows { rows ≤ 1024 }
    requires few_cols { cols ≤ 1024 }
{
    let _width = field.width();
    let m = mixed(alloc, field, rows, cols)?;
    let turned = etranspose(alloc, &m.all())?;
    for r in 0..rows {
        if !is_row_turned(&m, &turned, r) {
            return Ok(false);
        }
    }
    Ok(true)
}

// Whether a row is a column of the other matrix.
fn is_row_turned(m: &Mzed, turned: &Mzed, r: u32) -> bool
    requires in_rows { r < m.now.rows }
    requires cols { turned.now.cols ≡ m.now.rows }
    requires rows { turned.now.rows ≡ m.now.cols }
{
    for c in 0..m.cols() {
        if turned.get(c, r) != m.get(r, c) {
            return false;
        }
    }
    true
}

// A degree of each width, and its polynomial.
const FIELDS: [(u32, u32); 4] = [(2, 7), (3, 0xb), (5, 0x25), (13, 0x201b)];

// Shapes of one block, of several blocks, and such as are halved over and beside each other.
const SHAPES: [(u32, u32); 6] = [(0, 3), (3, 0), (1, 70), (70, 131), (300, 3), (270, 40)];

#[test]
fn matrices_are_turned_by_blocks(rt: HostRuntime) -> Result<(), Fail> {
    for case in &FIELDS {
        if let Ok(field) = Field::new(case.0, case.1) {
            for shape in &SHAPES {
                if shape.0 <= 1024 && shape.1 <= 1024 {
                    assert!(rt; is_turned(rt.alloc(), field, shape.0, shape.1)?);
                }
            }
        }
    }
    Ok(())
}

#[test]
fn matrices_are_made_of_others(rt: HostRuntime) -> Result<(), Fail> {
    assert!(rt; is_in_place(rt.alloc(), Field::gf2())?);
    assert!(rt; is_cancelled(rt.alloc(), Field::gf2())?);
    if let Ok(field) = Field::new(5, 0x25) {
        assert!(rt; is_in_place(rt.alloc(), field)?);
        assert!(rt; is_cancelled(rt.alloc(), field)?);
    }
    Ok(())
}
