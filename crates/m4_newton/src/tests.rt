//! Products over fields of every width, into a window inside a matrix, by an engine for bits, and by a product over GF(2), and
//! multiples of a row by a table.

ghost use Rattle.std.specs.Prelude.{◌≡◌, ◌+◌, ◌^◌, ◌<◌, ◌≤◌, IfOk, length};
ghost use Rattle.m4_model.specs.Field.{gf2};
ghost use Rattle.m4_field.specs.Fields.{the_field};
ghost use Rattle.m4_mzd.specs.Reach.{IsReached};

use crate::{EAddMul, EPlain, Newton, NjTable, OverBits};
use m4_field::Field;
use m4_model::NoMemory;
use m4_mul::{Plain, Table};
use m4_mzd::{Rect, Steps};
use m4_mzed::Mzed;
use std::alloc::Global;
use std::marker::Brand;
use std::sync::ledger::{Blank, Ledger};
use std::test::Fail;

// The matrix of one entry.
fn one_entry(alloc: Global, field: Field, x: u32) -> Result<Mzed, NoMemory>
    requires { x < 2 ^ (the_field field).degree }
    ensures shape { IfOk result (λ m. (m.rows ≡ 1) × (m.cols ≡ 1)) }
    ensures field { IfOk result (λ m. m.field ≡ the_field field) }
{
    let _width = field.width();
    let mut m = Mzed::zeros(alloc, field, 1, 1)?;
    m.put(0, 0, x);
    Ok(m)
}

// The product of two matrices of one entry.
fn product(alloc: Global, field: Field, x: u32, y: u32) -> Result<u32, NoMemory>
    requires first { x < 2 ^ (the_field field).degree }
    requires second { y < 2 ^ (the_field field).degree }
{
    let a = one_entry(alloc, field, x)?;
    let b = one_entry(alloc, field, y)?;
    let mut c = one_entry(alloc, field, 0)?;
    let (mut all, home) = c.all_mut();
    EPlain.addmul(&mut all, &a.all(), &b.all());
    c.put_all(all, home);
    Ok(c.get(0, 0))
}

// The product of two matrices of one entry over the field of this degree and polynomial, if there is one with such elements.
fn multiplied(alloc: Global, e: u32, poly: u32, x: u32, y: u32) -> Result<Option<u32>, NoMemory> {
    match Field::new(e, poly) {
        Ok(f) => {
            let _degree = f.e();
            let elements = 1 << f.e();
            if x < elements && y < elements {
                Ok(Some(product(alloc, f, x, y)?))
            } else {
                Ok(None)
            }
        }
        Err(_) => Ok(None),
    }
}

// A degree, its polynomial, two elements and their product.
const PRODUCTS: [(u32, u32, u32, u32, u32); 5] = [
    (2, 7, 2, 3, 1),
    (4, 0x1f, 2, 8, 0xf),
    (4, 0x13, 2, 8, 3),
    (9, 0x203, 0x100, 2, 3),
    (16, 0x1002b, 0x8000, 2, 0x2b),
];

#[test]
fn matrices_of_one_entry_are_multiplied(rt: HostRuntime) -> Result<(), Fail> {
    for case in &PRODUCTS {
        assert_eq!(rt;
            multiplied(rt.alloc(), case.0, case.1, case.2, case.3)?,
            Some(case.4)
        );
    }
    Ok(())
}

// Adds the product of an entry 1 and a row of the entries 2 and 3 to columns 8 and 9 of a row of zeros.
fn added_inside(alloc: Global, field: Field) -> Result<Mzed, NoMemory>
    requires { (the_field field).degree ≡ 8 }
    ensures { IfOk result (λ m. (m.rows ≡ 1) × (m.cols ≡ 10)) }
{
    let a = one_entry(alloc, field, 1)?;
    let mut b = Mzed::zeros(alloc, field, 1, 2)?;
    b.put(0, 0, 2);
    b.put(0, 1, 3);
    let mut c = Mzed::zeros(alloc, field, 1, 10)?;
    let (mut part, around) = c.win_mut(Rect {
        r0: 0,
        c0: 8,
        r1: 1,
        c1: 10,
    });
    EPlain.addmul(&mut part, &a.all(), &b.all());
    c.put_win(part, around);
    Ok(c)
}

#[test]
fn a_product_is_added_inside_a_matrix(rt: HostRuntime) -> Result<(), Fail> {
    if let Ok(f) = Field::new(8, 0x11b) {
        let c = added_inside(rt.alloc(), f)?;
        assert_eq!(rt; (c.get(0, 7), c.get(0, 8), c.get(0, 9)), (0, 2, 3));
    }
    Ok(())
}

// The product of two matrices of one entry over GF(2) by an engine for bits.
fn multiplied_by_bits(alloc: Global, x: u32, y: u32) -> Result<u32, NoMemory>
    requires first { x < 2 }
    requires second { y < 2 }
{
    let a = one_entry(alloc, Field::gf2(), x)?;
    let b = one_entry(alloc, Field::gf2(), y)?;
    let mut c = one_entry(alloc, Field::gf2(), 0)?;
    let (mut all, home) = c.all_mut();
    let mut engine = OverBits { engine: Plain };
    engine.addmul(&mut all, &a.all(), &b.all());
    c.put_all(all, home);
    Ok(c.get(0, 0))
}

#[test]
fn an_engine_for_bits_multiplies_over_gf2(rt: HostRuntime) -> Result<(), Fail> {
    assert_eq!(rt; multiplied_by_bits(rt.alloc(), 1, 1)?, 1);
    assert_eq!(rt; multiplied_by_bits(rt.alloc(), 1, 0)?, 0);
    Ok(())
}

// A matrix of elements without an order.
fn mixed(alloc: Global, field: Field, rows: u32, cols: u32) -> Result<Mzed, NoMemory>
    requires few_rows { rows ≤ 1024 }
    requires few_cols { cols ≤ 1024 }
    ensures { IfOk result (λ m. (m.rows ≡ rows) × (m.cols ≡ cols) × (m.field ≡ the_field field)) }
{
    let _degree = field.e();
    let mut m = Mzed::zeros(alloc, field, rows, cols)?;
    for r in 0..rows {
        mix_row(&mut m, r);
    }
    Ok(m)
}

// Writes elements without an order into a row.
fn mix_row(m: &mut Mzed, r: u32)
    requires { r < m.old.rows }
    ensures rows { m.new.rows ≡ m.old.rows }
    ensures cols { m.new.cols ≡ m.old.cols }
    ensures field { m.new.field ≡ m.old.field }
{
    let field = m.field();
    let _degree = field.e();
    let elements = 1u32 << field.e();
    let mut word = 0x9E37_79B9_7F4A_7C15u64 ^ u64::from(r);
    for c in 0..m.cols() {
        word ^= word << 13;
        word ^= word >> 7;
        word ^= word << 17;
        m.put(r, c, (word >> 40) as u32 % elements);
    }
}

// Adds the product of two matrices to a third.
fn add<E: EAddMul>(engine: &mut E, c: &mut Mzed, a: &Mzed, b: &Mzed)
    requires for_field { E.IsFor engine.old c.old.field }
    requires a_field { a.now.field ≡ c.old.field }
    requires b_field { b.now.field ≡ c.old.field }
    requires rows { a.now.rows ≡ c.old.rows }
    requires inner { a.now.cols ≡ b.now.rows }
    requires cols { b.now.cols ≡ c.old.cols }
    requires reached { IsReached (E.limits engine.old) c.old.rows a.now.cols c.old.cols }
{
    let (mut all, home) = c.all_mut();
    engine.addmul(&mut all, &a.all(), &b.all());
    c.put_all(all, home);
}

// Whether the engine over tables for bits makes the same product as the plain one, of so many columns of the first factor that
// those over the wider fields take several strips.
fn products_agree(alloc: Global, field: Field) -> Result<bool, NoMemory> {
    let _degree = field.e();
    let a = mixed(alloc, field, 3, 530)?;
    let b = mixed(alloc, field, 530, 5)?;
    let mut c = mixed(alloc, field, 3, 5)?;
    let mut d = c.copy(alloc)?;
    let table = Table::new(alloc, 80, 8, 8)?;
    let mut newton = Newton::new(alloc, field, 5, table)?;
    add(&mut newton, &mut c, &a, &b);
    add(&mut EPlain, &mut d, &a, &b);
    Ok(c == d)
}

// A degree and a polynomial of each kind of field.
const FIELDS: [(u32, u32); 15] = [
    (2, 7),
    (3, 0xb),
    (4, 0x13),
    (5, 0x25),
    (6, 0x43),
    (7, 0x83),
    (8, 0x11b),
    (9, 0x203),
    (10, 0x409),
    (11, 0x805),
    (12, 0x1053),
    (13, 0x201b),
    (14, 0x4021),
    (15, 0x8003),
    (16, 0x1002b),
];

// A degree of a field that is none, or over which the products don't agree, or 0.
fn wrong_fields(alloc: Global) -> Result<u32, NoMemory> {
    let mut wrong = 0;
    for case in &FIELDS {
        let right = match Field::new(case.0, case.1) {
            Ok(field) => products_agree(alloc, field)?,
            Err(_) => false,
        };
        if !right {
            wrong = case.0;
        }
    }
    Ok(wrong)
}

#[test]
fn products_by_tables_are_the_plain_ones(rt: HostRuntime) -> Result<(), Fail> {
    assert_eq!(rt; wrong_fields(rt.alloc())?, 0);
    Ok(())
}

// A matrix whose entries are all the element f.
fn full(alloc: Global, field: Field, rows: u32, cols: u32) -> Result<Mzed, NoMemory>
    requires few_rows { rows ≤ 8 }
    requires few_cols { cols ≤ 8 }
    requires degree { (the_field field).degree ≡ 4 }
    ensures { IfOk result (λ m. (m.rows ≡ rows) × (m.cols ≡ cols) × (m.field ≡ the_field field)) }
{
    let _degree = field.e();
    let mut m = Mzed::zeros(alloc, field, rows, cols)?;
    for r in 0..rows {
        fill_row(&mut m, r);
    }
    Ok(m)
}

fn fill_row(m: &mut Mzed, r: u32)
    requires in_rows { r < m.old.rows }
    requires degree { m.old.field.degree ≡ 4 }
    ensures rows { m.new.rows ≡ m.old.rows }
    ensures cols { m.new.cols ≡ m.old.cols }
    ensures field { m.new.field ≡ m.old.field }
{
    for c in 0..m.cols() {
        m.put(r, c, 0xf);
    }
}

// The product of a 3 x 5 and a 5 x 2 matrix of entries f, which takes five steps.
fn counted<L: Ledger>(alloc: Global, field: Field, steps: &mut Steps<L>) -> Result<Mzed, NoMemory>
    requires { (the_field field).degree ≡ 4 }
    ensures steps { IfOk result (λ _. steps.new ≡ steps.old + 5) }
    ensures shape { IfOk result (λ m. (m.rows ≡ 3) × (m.cols ≡ 2)) }
{
    let _degree = field.e();
    let a = full(alloc, field, 3, 5)?;
    let b = full(alloc, field, 5, 2)?;
    let mut c = Mzed::zeros(alloc, field, 3, 2)?;
    let mut newton = Newton::new(alloc, field, 2, Plain)?;
    let (mut all, home) = c.all_mut();
    newton.addmul_counted(&mut all, &a.all(), &b.all(), steps);
    c.put_all(all, home);
    Ok(c)
}

// An entry of that product.
fn entry_of_counted<L: Ledger>(alloc: Global, field: Field, blank: Blank) -> Result<u32, NoMemory>
    requires name { blank.name ≡ L.name }
    requires parts { blank.parts ≡ L.parts }
    requires one { blank.parts ≡ 1 }
    requires degree { (the_field field).degree ≡ 4 }
{
    let mut steps = Steps::<L>::new(blank);
    Ok(counted(alloc, field, &mut steps)?.get(2, 1))
}

#[test]
fn each_row_of_the_second_factor_is_a_step(rt: HostRuntime) -> Result<(), Fail> {
    if let Ok(field) = Field::new(4, 0x1f) {
        let entry = entry_of_counted::<Brand>(rt.alloc(), field, Blank::new(1))?;
        assert_eq!(rt; entry, field.mul(0xf, 0xf));
    }
    Ok(())
}

// Whether a table adds `x` times the row that it is filled from, the second of `b`.
fn adds_multiple(alloc: Global, table: &NjTable, b: &Mzed, x: u32) -> Result<bool, NoMemory>
    requires field { b.now.field ≡ table.now.field }
    requires rows { b.now.rows ≡ 2 }
    requires cols { b.now.cols ≡ 70 }
    requires long { length table.now.row ≡ 70 }
    requires element { x < 2 ^ b.now.field.degree }
{
    let mut c = mixed(alloc, b.field(), 1, 70)?;
    let mut d = c.copy(alloc)?;
    let (mut all, home) = c.all_mut();
    table.add_multiple(&mut all, 0, x);
    c.put_all(all, home);
    let (mut whole, place) = d.all_mut();
    whole.add_multiple(0, &b.all(), 1, x);
    d.put_all(whole, place);
    Ok(c == d)
}

// Whether a table adds 64 multiples of a row.
fn table_agrees<L: Ledger>(alloc: Global, field: Field, blank: Blank) -> Result<bool, NoMemory>
    requires name { blank.name ≡ L.name }
    requires parts { blank.parts ≡ L.parts }
    requires one { blank.parts ≡ 1 }
{
    let mut steps = Steps::<L>::new(blank);
    let _degree = field.e();
    let elements = 1u32 << field.e();
    let b = mixed(alloc, field, 2, 70)?;
    let _rows = b.rows();
    let mut table = NjTable::new(alloc, field, 70)?;
    table.fill(&b.all(), 1, &mut steps);
    for k in 0..64u32 {
        if !adds_multiple(alloc, &table, &b, k * 1021 % elements)? {
            return Ok(false);
        }
    }
    Ok(true)
}

// Degrees with one part of a table, and with two, and a polynomial of each.
const TABLED: [(u32, u32); 5] = [(2, 7), (8, 0x11b), (9, 0x203), (13, 0x201b), (16, 0x1002b)];

#[test]
fn tables_add_each_multiple_of_a_row(rt: HostRuntime) -> Result<(), Fail> {
    for case in &TABLED {
        let right = match Field::new(case.0, case.1) {
            Ok(field) => table_agrees::<Brand>(rt.alloc(), field, Blank::new(1))?,
            Err(_) => false,
        };
        assert!(rt; right);
    }
    Ok(())
}
