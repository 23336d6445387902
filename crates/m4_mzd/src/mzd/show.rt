//! A matrix in messages: its rows as digits.

ghost use Rattle.std.specs.Prelude.{◌<◌};

use super::Mzd;
use std::fmt;

/// Its rows as digits, as in `[101, 011]`.
impl fmt::Debug for Mzd {
    fn fmt<W: fmt::Write>(&self, f: &mut fmt::Formatter<W>) -> fmt::Result {
        f.write_str("[")?;
        for r in 0..self.rows() {
            if r > 0 {
                f.write_str(", ")?;
            }
            write_row(self, r, f)?;
        }
        f.write_str("]")
    }
}

// Writes the digits of a row.
fn write_row<W: fmt::Write>(m: &Mzd, r: u32, f: &mut fmt::Formatter<W>) -> fmt::Result
    requires { r < m.now.rows }
{
    for c in 0..m.cols() {
        f.write_str(if m.get(r, c) { "1" } else { "0" })?;
    }
    Ok(())
}
