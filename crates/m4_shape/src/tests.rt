//! Worked cases, and parts at the borders of words beside the same entry by entry.

ghost use Rattle.std.specs.Prelude.{◌≡◌, ◌<◌, ◌≤◌};

use crate::{add_into, augment, stack, sub, transpose};
use m4_model::NoMemory;
use m4_mzd::{Mzd, Rect, mixed};
use std::alloc::Global;
use std::test::Fail;

#[test]
fn worked_cases(rt: HostRuntime) -> Result<(), Fail> {
    let alloc = rt.alloc();
    let a = Mzd::from_digits(alloc, &[*b"110", *b"011"])?;
    let turned = Mzd::from_digits(alloc, &[*b"10", *b"11", *b"01"])?;
    assert_eq!(rt; transpose(alloc, &a.all())?, turned);
    let cut = Rect {
        r0: 0,
        c0: 1,
        r1: 2,
        c1: 3,
    };
    let right = Mzd::from_digits(alloc, &[*b"10", *b"11"])?;
    assert_eq!(rt; sub(alloc, &a.all(), cut)?, right);
    let first = Mzd::from_digits(alloc, &[*b"10"])?;
    let second = Mzd::from_digits(alloc, &[*b"01"])?;
    let above = Mzd::from_digits(alloc, &[*b"10", *b"01"])?;
    assert_eq!(rt; stack(alloc, &first.all(), &second.all())?, above);
    let beside = Mzd::from_digits(alloc, &[*b"1001"])?;
    assert_eq!(rt; augment(alloc, &first.all(), &second.all())?, beside);
    Ok(())
}

// The sum of a matrix and another of its shape, over a copy of the first.
fn sum(alloc: Global, a: &Mzd, b: &Mzd) -> Result<Mzd, NoMemory>
    requires rows { b.now.rows ≡ a.now.rows }
    requires cols { b.now.cols ≡ a.now.cols }
{
    let mut m = Mzd::zeros(alloc, a.rows(), a.cols())?;
    let (mut whole, home) = m.all_mut();
    whole.copy_rows(&a.all());
    add_into(&mut whole, &b.all());
    m.put_all(whole, home);
    Ok(m)
}

#[test]
fn sums(rt: HostRuntime) -> Result<(), Fail> {
    let alloc = rt.alloc();
    let a = Mzd::from_digits(alloc, &[*b"11"])?;
    let b = Mzd::from_digits(alloc, &[*b"01"])?;
    assert_eq!(rt; sum(alloc, &a, &b)?, Mzd::from_digits(alloc, &[*b"10"])?);
    Ok(())
}

// Whether a transpose has each entry in its other place, and is turned back by a second one.
fn turns(alloc: Global, rows: u32, cols: u32) -> Result<bool, NoMemory>
    requires few_rows { rows ≤ 1024 }
    requires few_cols { cols ≤ 1024 }
{
    let a = mixed(alloc, rows, cols, 7)?;
    let turned = transpose(alloc, &a.all())?;
    let mut right = true;
    for r in 0..a.rows() {
        right = right && is_column(&a, &turned, r);
    }
    Ok(right && transpose(alloc, &turned.all())? == a)
}

// Whether a row of a matrix is the column of another.
fn is_column(a: &Mzd, turned: &Mzd, r: u32) -> bool
    requires row { r < a.now.rows }
    requires rows { turned.now.rows ≡ a.now.cols }
    requires cols { turned.now.cols ≡ a.now.rows }
{
    let mut equal = true;
    for c in 0..a.cols() {
        equal = equal && a.get(r, c) == turned.get(c, r);
    }
    equal
}

#[test]
fn transposes(rt: HostRuntime) -> Result<(), Fail> {
    let alloc = rt.alloc();
    let table: [(u32, u32); 9] = [
        (1, 1),
        (63, 65),
        (64, 64),
        (130, 1),
        (0, 5),
        (5, 0),
        (65, 130),
        (600, 70),
        (70, 1000),
    ];
    for (rows, cols) in table {
        if rows <= 1024 && cols <= 1024 {
            assert!(rt; turns(alloc, rows, cols)?);
        }
    }
    Ok(())
}

// Whether columns of a matrix that are cut out at `first` are those of the matrix, and beside those before them make it
// again.
fn cuts(alloc: Global, first: u32, cols: u32) -> Result<bool, NoMemory>
    requires inside { first ≤ cols }
    requires few { cols ≤ 1024 }
{
    let a = mixed(alloc, 3, cols, 11)?;
    let left = sub(alloc, &a.all(), columns(0, first))?;
    let right = sub(alloc, &a.all(), columns(first, cols))?;
    let mut equal = true;
    for c in first..cols {
        equal = equal && a.get(2, c) == right.get(2, c - first);
    }
    Ok(equal && augment(alloc, &left.all(), &right.all())? == a)
}

// Columns of three rows.
fn columns(c0: u32, c1: u32) -> Rect
    ensures { result ≡ record { r0 = 0; c0 = c0; r1 = 3; c1 = c1 } }
{
    Rect {
        r0: 0,
        c0,
        r1: 3,
        c1,
    }
}

#[test]
fn parts_at_any_column(rt: HostRuntime) -> Result<(), Fail> {
    let alloc = rt.alloc();
    let table: [(u32, u32); 9] = [
        (1, 65),
        (63, 200),
        (64, 130),
        (65, 66),
        (130, 300),
        (0, 70),
        (70, 70),
        (1, 64),
        (127, 255),
    ];
    for (first, cols) in table {
        if first <= cols && cols <= 1024 {
            assert!(rt; cuts(alloc, first, cols)?);
        }
    }
    Ok(())
}
