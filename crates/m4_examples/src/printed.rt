//! Matrices over GF(2) as they are printed.

ghost use Rattle.std.specs.Prelude.{◌<◌};

use anyhow::Result;
use m4_dense::Mzed;
use std::alloc::{AllocError, Global};

/// Prints a line of digits for each row.
pub fn print_rows(rt: &impl Print, alloc: Global, matrix: &Mzed) -> Result<()> {
    for r in 0..matrix.rows() {
        let line = row_text(alloc, matrix, r)?;
        println!(rt; "{line}")?;
    }
    Ok(())
}

/// The digits of row `r`.
fn row_text(alloc: Global, matrix: &Mzed, r: u32) -> Result<String, AllocError>
    requires { r < matrix.now.rows }
{
    let mut line = String::new(alloc);
    for c in 0..matrix.cols() {
        line.push(if matrix.get(r, c) == 1 { '1' } else { '0' })?;
    }
    Ok(line)
}
