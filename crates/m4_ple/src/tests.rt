//! A PLE in place, on a window too, and the factors that stand there.

ghost use Rattle.std.specs.Prelude.{◌≡◌, ◌<◌, IfOk};
ghost use Rattle.m4_field.specs.Fields.{the_field};

use crate::{exchange_columns, keep_echelon, ple_factors, ple_plain, pluq_factors};
use m4_field::Field;
use m4_model::NoMemory;
use m4_mzd::{Mzd, Rect};
use m4_mzed::Mzed;
use std::alloc::Global;
use std::test::Fail;

// A matrix over GF(2) of these digits.
fn of_digits(alloc: Global, rows: &[[u8; 3]; 3]) -> Result<Mzed, NoMemory>
    ensures { IfOk result (λ m. (m.rows ≡ 3) × (m.cols ≡ 3)) }
{
    Ok(Mzed::of_bits(Mzd::from_digits(alloc, rows)?))
}

const ROWS_OVER_GF2: [[u8; 3]; 3] = [*b"010", *b"011", *b"001"];

#[test]
fn factors_of_a_ple(rt: HostRuntime) -> Result<(), Fail> {
    let alloc = rt.alloc();
    let mut m = of_digits(alloc, &ROWS_OVER_GF2)?;
    let mut p = [7u32; 3];
    let mut q = [7u32; 3];
    let (mut all, home) = m.all_mut();
    let rank = ple_plain(&mut all, &mut p, &mut q);
    m.put_all(all, home);
    assert_eq!(rt; rank, 2);
    assert_eq!(rt; p, [0, 1, 2]);
    assert_eq!(rt; q, [1, 2, 7]);
    assert_eq!(rt; m, of_digits(alloc, &[*b"010", *b"101", *b"010"])?);
    let _cols = m.cols();
    let factors = ple_factors(alloc, &m.all(), &q[..rank as usize])?;
    assert_eq!(rt; factors.l, of_digits(alloc, &[*b"100", *b"110", *b"011"])?);
    assert_eq!(rt; factors.e, of_digits(alloc, &[*b"010", *b"001", *b"000"])?);
    Ok(())
}

#[test]
fn factors_of_a_pluq(rt: HostRuntime) -> Result<(), Fail> {
    let alloc = rt.alloc();
    let m = of_digits(alloc, &ROWS_OVER_GF2)?;
    let _cols = m.cols();
    let factors = pluq_factors(alloc, &m.all(), 1)?;
    assert_eq!(rt; factors.l, of_digits(alloc, &[*b"100", *b"010", *b"001"])?);
    assert_eq!(rt; factors.e, of_digits(alloc, &[*b"010", *b"000", *b"000"])?);
    Ok(())
}

#[test]
fn ple_of_a_window(rt: HostRuntime) -> Result<(), Fail> {
    let full = [u64::MAX; 4];
    let mut m = Mzed::of_bits(Mzd::from_words(rt.alloc(), 200, &[full; 5])?);
    let mut p = [7u32; 3];
    let mut q = [7u32; 3];
    let (mut part, around) = m.win_mut(Rect {
        r0: 1,
        c0: 64,
        r1: 4,
        c1: 130,
    });
    let rank = ple_plain(&mut part, &mut p, &mut q);
    m.put_win(part, around);
    assert_eq!(rt; rank, 1);
    let cut = [u64::MAX, 1, u64::MAX << 2, u64::MAX];
    let wanted = Mzd::from_words(rt.alloc(), 200, &[full, full, cut, cut, full])?;
    assert_eq!(rt; m, Mzed::of_bits(wanted));
    Ok(())
}

// A matrix over GF(4), x^2 + x + 1, what its PLE leaves in its place, and the factors: 3 and 2 are inverse to each other.
const ROWS_OVER_GF4: [[u32; 3]; 3] = [[0, 2, 1], [3, 1, 2], [2, 3, 3]];

const PLE_OVER_GF4: [[u32; 3]; 3] = [[3, 1, 2], [0, 2, 1], [3, 0, 2]];

const LOWER_OVER_GF4: [[u32; 3]; 3] = [[1, 0, 0], [0, 1, 0], [3, 0, 1]];

const ECHELON_OVER_GF4: [[u32; 3]; 3] = [[3, 1, 2], [0, 2, 1], [0, 0, 2]];

fn over_gf4(alloc: Global, field: Field, rows: &[[u32; 3]; 3]) -> Result<Mzed, NoMemory>
    ensures shape { IfOk result (λ m. (m.rows ≡ 3) × (m.cols ≡ 3)) }
    ensures field { IfOk result (λ m. m.field ≡ the_field field) }
{
    let _width = field.width();
    let mut m = Mzed::zeros(alloc, field, 3, 3)?;
    put_row(&mut m, 0, &rows[0]);
    put_row(&mut m, 1, &rows[1]);
    put_row(&mut m, 2, &rows[2]);
    Ok(m)
}

// Writes row `r`.
fn put_row(m: &mut Mzed, r: u32, row: &[u32; 3])
    requires { r < m.old.rows }
    ensures rows { m.new.rows ≡ m.old.rows }
    ensures cols { m.new.cols ≡ m.old.cols }
    ensures field { m.new.field ≡ m.old.field }
{
    let field = m.field();
    let _degree = field.e();
    let elements = 1u32 << field.e();
    for c in 0..m.cols() {
        m.put(r, c, row[c as usize % 3] % elements);
    }
}

#[test]
fn ple_over_gf4(rt: HostRuntime) -> Result<(), Fail> {
    let field = Field::new(2, 7)?;
    let mut m = over_gf4(rt.alloc(), field, &ROWS_OVER_GF4)?;
    let mut p = [7u32; 3];
    let mut q = [7u32; 3];
    let (mut all, home) = m.all_mut();
    let rank = ple_plain(&mut all, &mut p, &mut q);
    m.put_all(all, home);
    assert_eq!(rt; rank, 3);
    assert_eq!(rt; p, [1, 1, 2]);
    assert_eq!(rt; q, [0, 1, 2]);
    assert_eq!(rt; m, over_gf4(rt.alloc(), field, &PLE_OVER_GF4)?);
    Ok(())
}

#[test]
fn factors_over_gf4(rt: HostRuntime) -> Result<(), Fail> {
    let field = Field::new(2, 7)?;
    let m = over_gf4(rt.alloc(), field, &PLE_OVER_GF4)?;
    let _cols = m.cols();
    let factors = pluq_factors(rt.alloc(), &m.all(), 3)?;
    assert_eq!(rt; factors.l, over_gf4(rt.alloc(), field, &LOWER_OVER_GF4)?);
    assert_eq!(rt; factors.e, over_gf4(rt.alloc(), field, &ECHELON_OVER_GF4)?);
    Ok(())
}

// The first two pivots of this matrix stand in its columns 1 and 2.
const PIVOTS: [u32; 2] = [1, 2];

const ECHELON_HELD: [[u32; 3]; 3] = [[1, 3, 2], [2, 1, 3], [3, 2, 1]];

const ECHELON_KEPT: [[u32; 3]; 3] = [[0, 3, 2], [0, 0, 3], [0, 0, 0]];

const COLUMNS_EXCHANGED: [[u32; 3]; 3] = [[3, 2, 1], [2, 3, 1], [3, 2, 1]];

#[test]
fn echelon_form_over_gf4(rt: HostRuntime) -> Result<(), Fail> {
    let field = Field::new(2, 7)?;
    let mut m = over_gf4(rt.alloc(), field, &ECHELON_HELD)?;
    let _width = field.width();
    let mut row = Mzed::zeros(rt.alloc(), field, 1, 3)?;
    let (mut all, home) = m.all_mut();
    let (mut spare, spare_home) = row.all_mut();
    keep_echelon(&mut all, &PIVOTS, &mut spare);
    m.put_all(all, home);
    row.put_all(spare, spare_home);
    assert_eq!(rt; m, over_gf4(rt.alloc(), field, &ECHELON_KEPT)?);
    Ok(())
}

#[test]
fn columns_over_gf4(rt: HostRuntime) -> Result<(), Fail> {
    let field = Field::new(2, 7)?;
    let mut m = over_gf4(rt.alloc(), field, &ECHELON_HELD)?;
    let (mut all, home) = m.all_mut();
    exchange_columns(&mut all, &PIVOTS);
    m.put_all(all, home);
    assert_eq!(rt; m, over_gf4(rt.alloc(), field, &COLUMNS_EXCHANGED)?);
    Ok(())
}
