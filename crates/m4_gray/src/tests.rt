//! A table of two rows, and rows with entries added.

ghost use Rattle.std.specs.Prelude.{◌≡◌, ◌+◌, ◌<◌};

use crate::Tables;
use m4_model::NoMemory;
use m4_mzd::{Mzd, Steps};
use std::alloc::Global;
use std::marker::Brand;
use std::sync::ledger::{Blank, Ledger};
use std::test::Fail;

// Adds entry `x` of the only table to row `x`.
fn add_entry<L: Ledger>(sums: &mut Mzd, tables: &Tables, x: u32, steps: &mut Steps<L>)
    requires one { tables.now.count ≡ 1 }
    requires two_bits { tables.now.k ≡ 2 }
    requires small { x < 4 }
    requires rows { sums.old.rows ≡ 4 }
    requires cols { sums.old.cols ≡ tables.now.entries.cols }
    ensures rows { sums.new.rows ≡ sums.old.rows }
    ensures cols { sums.new.cols ≡ sums.old.cols }
    ensures ticks { steps.new ≡ steps.old + 1 }
{
    let (mut window, home) = sums.all_mut();
    tables.combine(&mut window, x, &[x], steps);
    sums.put_all(window, home);
}

// Whether a table of the rows 10 and 01 adds its entry of each number to a row of zeros.
fn adds_entries<L: Ledger>(alloc: Global, blank: Blank) -> Result<bool, NoMemory>
    requires name { blank.name ≡ L.name }
    requires parts { blank.parts ≡ L.parts }
    requires one { blank.parts ≡ 1 }
{
    let mut steps = Steps::<L>::new(blank);
    let rows = Mzd::identity(alloc, 2)?;
    let mut sums = Mzd::zeros(alloc, 4, 2)?;
    let mut tables = Tables::new(alloc, 2, 2, 1)?;
    tables.fill(0, &rows.all(), 0, 2, &mut steps);
    add_entry(&mut sums, &tables, 0, &mut steps);
    add_entry(&mut sums, &tables, 1, &mut steps);
    add_entry(&mut sums, &tables, 2, &mut steps);
    add_entry(&mut sums, &tables, 3, &mut steps);
    let first = !sums.get(0, 0) && !sums.get(0, 1) && sums.get(1, 0) && !sums.get(1, 1);
    Ok(first && !sums.get(2, 0) && sums.get(2, 1) && sums.get(3, 0) && sums.get(3, 1))
}

#[test]
fn entries_of_two_rows(rt: HostRuntime) -> Result<(), Fail> {
    assert!(rt; adds_entries::<Brand>(rt.alloc(), Blank::new(1))?);
    Ok(())
}
