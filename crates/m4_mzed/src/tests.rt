//! Words and rows multiplied over fields of every width, windows taken out and put back, and matrices compared and told.

ghost use Rattle.std.specs.Prelude.{◌≡◌, ◌^◌, ◌<◌, ◌≤◌, ◌*◌, ◌%◌, ◌==◌, ◌||◌, IfOk, IsTrue};
ghost use Rattle.m4_model.specs.Field.{width};
ghost use Rattle.m4_field.specs.Fields.{the_field};

use crate::{Mzed, mul_word};
use m4_field::Field;
use m4_model::NoMemory;
use m4_mzd::{Mzd, Rect};
use std::alloc::Global;
use std::test::Fail;

// A word multiplied over a field whose elements fill their places.
fn times<const W: usize>(f: &Field, word: u64, x: u32) -> u64
    requires full { (the_field f.now).degree ≡ W }
    requires wide { IsTrue (W == 1 || W == 2 || W == 4 || W == 8 || W == 16) }
    requires element { x < 2 ^ W }
{
    mul_word::<W>(f, word, x)
}

#[test]
fn words_are_multiplied(rt: HostRuntime) -> Result<(), Fail> {
    if let Ok(f) = Field::new(2, 7) {
        assert_eq!(rt; times::<2>(&f, 0xe, 2), 7);
    }
    if let Ok(f) = Field::new(4, 0x13) {
        assert_eq!(rt; times::<4>(&f, 0x21, 9), 0x19);
    }
    if let Ok(f) = Field::new(8, 0x11b) {
        assert_eq!(rt; times::<8>(&f, 0x5301, 0xca), 0x1ca);
    }
    if let Ok(f) = Field::new(16, 0x1002b) {
        assert_eq!(rt;
            times::<16>(&f, 0x8000_0001_0000_8001, 2),
            0x002b_0002_0000_0029
        );
    }
    assert_eq!(rt; times::<1>(&Field::gf2(), 0xe, 1), 0xe);
    Ok(())
}

// Writes elements without an order to a row.
fn mix_row(m: &mut Mzed, r: u32, seed: u64)
    requires { r < m.old.rows }
    ensures rows { m.new.rows ≡ m.old.rows }
    ensures cols { m.new.cols ≡ m.old.cols }
    ensures field { m.new.field ≡ m.old.field }
{
    let field = m.field();
    let _degree = field.e();
    let elements = 1u64 << field.e();
    let mut word = seed;
    for c in 0..m.cols() {
        word ^= word << 13;
        word ^= word >> 7;
        word ^= word << 17;
        m.put(r, c, (word % elements) as u32);
    }
}

// Whether the second row is what it was with `x` times the first added to it from column `c` on.
fn is_sum(before: &Mzed, after: &Mzed, x: u32, c: u32) -> bool
    requires rows { 2 ≤ before.now.rows }
    requires same_rows { after.now.rows ≡ before.now.rows }
    requires same_cols { after.now.cols ≡ before.now.cols }
    requires same_field { after.now.field ≡ before.now.field }
    requires element { x < 2 ^ before.now.field.degree }
{
    let field = before.field();
    let mut right = true;
    for j in 0..before.cols() {
        let more = if j < c {
            0
        } else {
            field.mul(before.get(0, j), x)
        };
        right = right && after.get(1, j) == before.get(1, j) ^ more;
    }
    right
}

// Whether adding a multiple of a row to another from each of some columns on is right over this field.
fn rows_are_added(alloc: Global, field: Field) -> Result<bool, NoMemory> {
    let _degree = field.e();
    let mut m = Mzed::zeros(alloc, field, 2, 131)?;
    mix_row(&mut m, 0, 0x9E37_79B9_7F4A_7C15);
    mix_row(&mut m, 1, 0xD1B5_4A32_D192_ED03);
    let x = (1u32 << field.e()) - 1;
    let mut right = true;
    for c in 0..131 {
        let mut copy = m.copy(alloc)?;
        let (mut all, home) = copy.all_mut();
        all.add_own(1, 0, x, c);
        copy.put_all(all, home);
        right = right && is_sum(&m, &copy, x, c);
    }
    Ok(right)
}

// Degrees and polynomials of fields of every width, with places that are full and that are not.
const FIELDS: [(u32, u32); 8] = [
    (2, 7),
    (3, 0xb),
    (4, 0x13),
    (5, 0x25),
    (8, 0x11b),
    (9, 0x203),
    (12, 0x1053),
    (16, 0x1002b),
];

#[test]
fn rows_are_added_over_every_width(rt: HostRuntime) -> Result<(), Fail> {
    assert!(rt; rows_are_added(rt.alloc(), Field::gf2())?);
    for case in &FIELDS {
        if let Ok(field) = Field::new(case.0, case.1) {
            assert!(rt; rows_are_added(rt.alloc(), field)?);
        }
    }
    Ok(())
}

#[test]
fn matrices_are_compared_and_told(rt: HostRuntime) -> Result<(), Fail> {
    if let Ok(field) = Field::new(9, 0x203) {
        let mut m = Mzed::zeros(rt.alloc(), field, 2, 2)?;
        let other = m.copy(rt.alloc())?;
        assert!(rt; m == other);
        m.put(0, 1, 0x1ca);
        assert!(rt; m != other);
        let text = format!(in rt.alloc(); "{m:?}")?;
        assert_eq!(rt; text.as_str(), "[0001ca, 000000]");
    }
    Ok(())
}
