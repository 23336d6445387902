//! A matrix in messages: its rows, each element as hexadecimal digits.

ghost use Rattle.std.specs.Prelude.{◌<◌};

use super::Mzed;
use std::fmt;

/// The hexadecimal digits.
const DIGITS: [&str; 16] = [
    "0", "1", "2", "3", "4", "5", "6", "7", "8", "9", "a", "b", "c", "d", "e", "f",
];

/// Its rows, each element as so many hexadecimal digits as the field's elements take, as in `[01ca, 5300]` over a field of
/// degree 8.
impl fmt::Debug for Mzed {
    fn fmt<W: fmt::Write>(&self, f: &mut fmt::Formatter<W>) -> fmt::Result {
        f.write_str("[")?;
        for r in 0..self.rows() {
            if r > 0 {
                f.write_str(", ")?;
            }
            write_row(self, r, f)?;
        }
        f.write_str("]")
    }
}

// Writes the elements of a row.
fn write_row<W: fmt::Write>(m: &Mzed, r: u32, f: &mut fmt::Formatter<W>) -> fmt::Result
    requires { r < m.now.rows }
{
    let _degree = m.field.e();
    let digits = m.field.e().div_ceil(4);
    for c in 0..m.cols() {
        write_element(m.get(r, c), digits, f)?;
    }
    Ok(())
}

// Writes the lowest `digits` hexadecimal digits of a number.
fn write_element<W: fmt::Write>(x: u32, digits: u32, f: &mut fmt::Formatter<W>) -> fmt::Result
    requires { digits < 8 }
{
    for place in (0..digits).rev() {
        f.write_str(DIGITS[(x >> (4 * place) & 15) as usize])?;
    }
    Ok(())
}
