//! Worked cases on windows, and columns beside the same entry by entry.

ghost use Rattle.std.specs.Prelude.{◌≡◌, ◌<◌, ◌≤◌, IfOk};

use crate::{Perm, swap_rows_back, swap_rows_by};
use m4_model::NoMemory;
use m4_mzd::Mzd;
use std::alloc::Global;
use std::test::Fail;

// The rows 10, 01 and 11.
fn sample(alloc: Global) -> Result<Mzd, NoMemory>
    ensures { IfOk result (λ m. (m.rows ≡ 3) × (m.cols ≡ 2)) }
{
    Mzd::from_digits(alloc, &[*b"10", *b"01", *b"11"])
}

// Its rows in the order 2, 0, 1.
fn moved_sample(alloc: Global) -> Result<Mzd, NoMemory> {
    Mzd::from_digits(alloc, &[*b"11", *b"10", *b"01"])
}

#[test]
fn rows_and_columns_in_an_order(rt: HostRuntime) -> Result<(), Fail> {
    let alloc = rt.alloc();
    let order = Perm::from_swaps(alloc, 3, &[2, 2, 2])?;
    let moved = order.permute_rows(alloc, &sample(alloc)?.all())?;
    assert_eq!(rt; moved, moved_sample(alloc)?);
    let same = Perm::identity(alloc, 2)?.permute_cols(alloc, &sample(alloc)?.all())?;
    assert_eq!(rt; same, sample(alloc)?);
    Ok(())
}

// Exchanges rows of the sample by 2, 2, 2.
fn exchange(m: &mut Mzd)
    requires rows { m.old.rows ≡ 3 }
    ensures rows { m.new.rows ≡ 3 }
    ensures cols { m.new.cols ≡ m.old.cols }
{
    let (mut whole, home) = m.all_mut();
    swap_rows_by(&mut whole, &[2, 2, 2]);
    m.put_all(whole, home);
}

// Exchanges them back.
fn exchange_back(m: &mut Mzd)
    requires rows { m.old.rows ≡ 3 }
    ensures rows { m.new.rows ≡ 3 }
    ensures cols { m.new.cols ≡ m.old.cols }
{
    let (mut whole, home) = m.all_mut();
    swap_rows_back(&mut whole, &[2, 2, 2]);
    m.put_all(whole, home);
}

#[test]
fn rows_are_exchanged_and_back(rt: HostRuntime) -> Result<(), Fail> {
    let mut m = sample(rt.alloc())?;
    exchange(&mut m);
    assert_eq!(rt; m, moved_sample(rt.alloc())?);
    exchange_back(&mut m);
    assert_eq!(rt; m, sample(rt.alloc())?);
    Ok(())
}

#[test]
fn a_column_moves_past_words(rt: HostRuntime) -> Result<(), Fail> {
    let alloc = rt.alloc();
    let mut order = Perm::identity(alloc, 130)?;
    order.swap(1, 129);
    let mut m = Mzd::zeros(alloc, 2, 130)?;
    m.put(1, 129, true);
    m.put(0, 63, true);
    let moved = order.permute_cols(alloc, &m.all())?;
    assert!(rt; moved.get(1, 1) && !moved.get(1, 129));
    assert!(rt; moved.get(0, 63) && !moved.get(0, 1));
    Ok(())
}
