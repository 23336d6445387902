ghost use Rattle.std.specs.Prelude.{◌≡◌, ◌<◌};
ghost use Rattle.m4_model.specs.Matrix.{row};
ghost use Rattle.m4_model.specs.Text.{header, line, text};
ghost use Rattle.m4_model.specs.Bare.{bare_text};
ghost use Rattle.m4_io.specs.Outside.{WritesAll};
ghost use Rattle.m4_text.specs.Pending.{Puts};
ghost use Rattle.m4_text.specs.Reading.{digits_from};

use crate::WriteFault;
use crate::pending::Pending;
use m4_bits::words_for;
use m4_io::{Failed, Sink};
use m4_mzd::Mzd;

/// Writes the text of the matrix: its header line, and then row by row. It takes no memory.
pub fn write_text<O: Sink>(m: &Mzd, sink: &mut O) -> Result<(), WriteFault>
    ensures { WritesAll (O.taken sink.old) (O.taken sink.new) (O.faults sink.old) (O.faults sink.new) result
        (text m.now) }
{
    let mut pending = Pending::new();
    put_header(m.rows(), m.cols(), &mut pending, sink)?;
    put_lines(m, &mut pending, sink)?;
    pending.finish(sink)?;
    Ok(())
}

/// Writes the lines of the matrix's rows. It takes no memory.
pub fn write_bare<O: Sink>(m: &Mzd, sink: &mut O) -> Result<(), WriteFault>
    ensures { WritesAll (O.taken sink.old) (O.taken sink.new) (O.faults sink.old) (O.faults sink.new) result
        (bare_text m.now) }
{
    let mut pending = Pending::new();
    put_lines(m, &mut pending, sink)?;
    pending.finish(sink)?;
    Ok(())
}

/// Puts the header line of a matrix of these sizes.
fn put_header<O: Sink>(
    rows: u32,
    cols: u32,
    pending: &mut Pending,
    sink: &mut O,
) -> Result<(), Failed>
    ensures { Puts (O.taken sink.old) (O.taken sink.new) (O.faults sink.old) (O.faults sink.new)
        pending.old pending.new result (header rows cols) }
{
    pending.put(b"gf2 ", sink)?;
    pending.put_number(u64::from(rows), b' ', sink)?;
    pending.put_number(u64::from(cols), b'\n', sink)
}

/// Puts the lines of the matrix's rows.
fn put_lines<O: Sink>(m: &Mzd, pending: &mut Pending, sink: &mut O) -> Result<(), Failed>
    ensures { Puts (O.taken sink.old) (O.taken sink.new) (O.faults sink.old) (O.faults sink.new)
        pending.old pending.new result (bare_text m.now) }
{
    for r in 0..m.rows() {
        put_row(m, r, pending, sink)?;
        pending.put(b"\n", sink)?;
    }
    Ok(())
}

/// Puts the digits of row `r`, word by word.
fn put_row<O: Sink>(m: &Mzd, r: u32, pending: &mut Pending, sink: &mut O) -> Result<(), Failed>
    requires { r < m.now.rows }
    ensures { Puts (O.taken sink.old) (O.taken sink.new) (O.faults sink.old) (O.faults sink.new)
        pending.old pending.new result (digits_from (row m.now r)) }
{
    let entries = m.all();
    let cols = m.cols();
    for w in 0..words_for(cols) {
        let count = (cols - 64 * w).min(64);
        pending.put_word(entries.word(r, w), count as usize, sink)?;
    }
    Ok(())
}
