//! Matrices taken apart into slices and put together again, at each width and at borders of words.

ghost use Rattle.std.specs.Prelude.{◌≡◌, ◌^◌, ◌<◌, ◌≤◌, IfOk};
ghost use Rattle.m4_field.specs.Fields.{the_field};

use crate::{Slices, gather, spread};
use m4_field::Field;
use m4_gen::generate;
use m4_model::NoMemory;
use m4_mzed::Mzed;
use std::alloc::Global;
use std::test::Fail;

// A matrix of elements without an order.
fn mixed(alloc: Global, field: Field, rows: u32, cols: u32) -> Result<Mzed, NoMemory>
    requires few_rows { rows ≤ 1024 }
    requires few_cols { cols ≤ 1024 }
    ensures { IfOk result (λ m. (m.rows ≡ rows) × (m.cols ≡ cols) × (m.field ≡ the_field field)) }
{
    let _width = field.width();
    generate(alloc, field, rows, cols, 1)
}

// Writes the matrix over one of its shape.
fn write(slices: &Slices, m: &mut Mzed)
    requires field { m.old.field ≡ slices.now.field }
    requires rows { m.old.rows ≡ slices.now.rows }
    requires cols { m.old.cols ≡ slices.now.cols }
{
    let (mut all, home) = m.all_mut();
    slices.to_packed(&mut all);
    m.put_all(all, home);
}

// Adds the matrix to one of its shape.
fn add(slices: &Slices, m: &mut Mzed)
    requires field { m.old.field ≡ slices.now.field }
    requires rows { m.old.rows ≡ slices.now.rows }
    requires cols { m.old.cols ≡ slices.now.cols }
{
    let (mut all, home) = m.all_mut();
    slices.add_to(&mut all);
    m.put_all(all, home);
}

// Whether a matrix that is taken apart and put together again is itself, and zero where it is added to itself.
fn is_put_together(alloc: Global, field: Field, rows: u32, cols: u32) -> Result<bool, NoMemory>
    requires few_rows { rows ≤ 1024 }
    requires few_cols { cols ≤ 1024 }
{
    let _degree = field.e();
    let _width = field.width();
    let mut m = mixed(alloc, field, rows, cols)?;
    let slices = Slices::from_packed(alloc, &m.all())?;
    let zeros = Mzed::zeros(alloc, field, rows, cols)?;
    let mut whole = zeros.copy(alloc)?;
    write(&slices, &mut whole);
    let same = whole == m;
    add(&slices, &mut m);
    Ok(same && m == zeros)
}

// A polynomial for each degree.
const FIELDS: [(u32, u32); 15] = [
    (2, 7),
    (3, 0xb),
    (4, 0x13),
    (5, 0x25),
    (6, 0x43),
    (7, 0x83),
    (8, 0x11b),
    (9, 0x203),
    (10, 0x409),
    (11, 0x805),
    (12, 0x1053),
    (13, 0x201b),
    (14, 0x4443),
    (15, 0x8003),
    (16, 0x1_002b),
];

// Shapes with no entries, and such as end beside a border of a word of slices and of packed elements.
const SHAPES: [(u32, u32); 7] = [(0, 3), (3, 0), (1, 1), (2, 63), (2, 64), (3, 65), (2, 130)];

#[test]
fn matrices_are_their_slices(rt: HostRuntime) -> Result<(), Fail> {
    for case in &FIELDS {
        if let Ok(field) = Field::new(case.0, case.1) {
            for shape in &SHAPES {
                if shape.0 <= 1024 && shape.1 <= 1024 {
                    assert!(rt; is_put_together(rt.alloc(), field, shape.0, shape.1)?);
                }
            }
        }
    }
    assert!(rt; is_put_together(rt.alloc(), Field::gf2(), 3, 65)?);
    Ok(())
}

#[test]
fn two_elements_of_two_bits(rt: HostRuntime) -> Result<(), Fail> {
    if let Ok(field) = Field::new(2, 7) {
        let mut m = Mzed::zeros(rt.alloc(), field, 1, 2)?;
        if field.e() == 2 {
            m.put(0, 0, 2);
            m.put(0, 1, 3);
        }
        let slices = Slices::from_packed(rt.alloc(), &m.all())?;
        if slices.rows() == 1 && slices.cols() == 2 && slices.field().e() == 2 {
            let (low, high) = (slices.slice(0), slices.slice(1));
            assert!(rt; !low.get(0, 0) && low.get(0, 1));
            assert!(rt; high.get(0, 0) && high.get(0, 1));
        }
    }
    Ok(())
}

// A word, what is gathered of it at a width, and what that is spread.
const WORDS: [(u32, u64, u64, u64); 5] = [
    (
        1,
        0x9E37_79B9_7F4A_7C15,
        0x9E37_79B9_7F4A_7C15,
        0x9E37_79B9_7F4A_7C15,
    ),
    (2, 0x9E37_79B9_7F4A_7C15, 0x67D5_F8E7, 0x1415_5111_5540_5415),
    (4, 0x9E37_79B9_7F4A_7C15, 0xBFCB, 0x1011_1111_1100_1011),
    (8, 0x9E37_79B9_7F4A_7C15, 0x79, 0x0001_0101_0100_0001),
    (16, 0x9E37_79B9_7F4A_7C15, 0xD, 0x0001_0001_0000_0001),
];

#[test]
fn bits_are_gathered_and_spread(rt: HostRuntime) {
    for case in &WORDS {
        let width = case.0;
        if width == 1 || width == 2 || width == 4 || width == 8 || width == 16 {
            assert_eq!(rt; gather(case.1, width), case.2);
            assert_eq!(rt; spread(case.2, width), case.3);
        }
    }
}
