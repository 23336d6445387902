ghost use Rattle.std.specs.Prelude.{◌≡◌, ◌↔◌, IsTrue, ◌<◌, ◌≤◌, if◌then◌else◌, length};
ghost use Rattle.m4_model.specs.Matrix.{row};
ghost use Rattle.m4_model.specs.Jcf.{jcf_text, jcf_header, jcf_lines, line_of_columns, nonzero_columns, nonzeros, IsZeroRow};
ghost use Rattle.m4_io.specs.Outside.{WritesAll};
ghost use Rattle.m4_text.specs.Pending.{Puts};

use crate::WriteFault;
use crate::pending::Pending;
use m4_io::{Failed, Sink};
use m4_mzd::Mzd;

/// Writes the JCF text of the matrix: its header, and then the columns of the ones, row by row. It takes no memory.
pub fn write_jcf<O: Sink>(m: &Mzd, sink: &mut O) -> Result<(), WriteFault>
    ensures { WritesAll (O.taken sink.old) (O.taken sink.new) (O.faults sink.old) (O.faults sink.new) result
        (jcf_text m.now) }
{
    let mut pending = Pending::new();
    put_jcf_header(m, &mut pending, sink)?;
    put_rows(m, &mut pending, sink)?;
    pending.finish(sink)?;
    Ok(())
}

/// Puts the header of the matrix.
fn put_jcf_header<O: Sink>(m: &Mzd, pending: &mut Pending, sink: &mut O) -> Result<(), Failed>
    ensures { Puts (O.taken sink.old) (O.taken sink.new) (O.faults sink.old) (O.faults sink.new)
        pending.old pending.new result (jcf_header m.now.rows m.now.cols (nonzeros m.now)) }
{
    pending.put_number(u64::from(m.rows()), b' ', sink)?;
    pending.put_number(u64::from(m.cols()), b' ', sink)?;
    pending.put(b"2\n", sink)?;
    pending.put_number(count_ones(m), b'\n', sink)
}

/// Puts the lines of the matrix's rows.
fn put_rows<O: Sink>(m: &Mzd, pending: &mut Pending, sink: &mut O) -> Result<(), Failed>
    ensures { Puts (O.taken sink.old) (O.taken sink.new) (O.faults sink.old) (O.faults sink.new)
        pending.old pending.new result (jcf_lines m.now) }
{
    for r in 0..m.rows() {
        put_columns(m, r, pending, sink)?;
    }
    Ok(())
}

/// Puts the line of row `r`: nothing where it has no ones.
fn put_columns<O: Sink>(m: &Mzd, r: u32, pending: &mut Pending, sink: &mut O) -> Result<(), Failed>
    requires { r < m.now.rows }
    ensures { Puts (O.taken sink.old) (O.taken sink.new) (O.faults sink.old) (O.faults sink.new)
        pending.old pending.new result (line_of_columns (nonzero_columns 1 (row m.now r))) }
{
    let mut first = true;
    for c in 0..m.cols() {
        if m.get(r, c) {
            pending.put_behind(byte_before(first), c + 1, sink)?;
            first = false;
        }
    }
    if first {
        Ok(())
    } else {
        pending.put(b"\n", sink)
    }
}

/// The byte before the number of a column: a minus sign where it is the first of its row, and else a space.
fn byte_before(first: bool) -> u8
    ensures { result ≡ (if first then 45 else 32) }
{
    if first { b'-' } else { b' ' }
}

/// How many entries of the matrix are 1.
fn count_ones(m: &Mzd) -> u64
    ensures { result ≡ nonzeros m.now }
{
    let mut count = 0;
    for r in 0..m.rows() {
        count += u64::from(count_ones_in(m, r));
    }
    count
}

/// Whether row `r` has only zeros.
pub fn is_zero_row(m: &Mzd, r: u32) -> bool
    requires { r < m.now.rows }
    ensures { IsTrue result ↔ IsZeroRow m.now r }
{
    count_ones_in(m, r) == 0
}

/// How many entries of row `r` are 1.
fn count_ones_in(m: &Mzd, r: u32) -> u32
    requires { r < m.now.rows }
    ensures ones { result ≡ length (nonzero_columns 1 (row m.now r)) }
    ensures few { result ≤ m.now.cols }
{
    let mut count = 0;
    for c in 0..m.cols() {
        if m.get(r, c) {
            count += 1;
        }
    }
    count
}
