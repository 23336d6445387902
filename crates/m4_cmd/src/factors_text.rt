//! The text of factors: the rank, the orders of rows and columns, and the two factors. It is written without memory.

ghost use Rattle.std.specs.Prelude.{◌≤◌, ◌++◌, length};
ghost use Rattle.m4_model.specs.NumberLines.{numbers_line};
ghost use Rattle.m4_outcome.specs.Outcome.{factors_text};
ghost use Rattle.m4_outcome.specs.RankLines.{rank_line};
ghost use Rattle.m4_model.specs.Headed.{headed_text};
ghost use Rattle.m4_io.specs.Outside.{WritesAll};
ghost use Rattle.m4_cmd.specs.Factors.{ple_text, pluq_text, rows_line};

use crate::line::rank_line;
use m4_dense::{Mzed, PleFactors, PluqFactors};
use m4_etext::{Form, WriteFault, write_numbers, write_text};
use m4_io::{Sink, write_whole};

/// Writes the text of a PLE.
pub(crate) fn write_ple<O: Sink>(ple: PleFactors, out: &mut O) -> Result<(), WriteFault>
    ensures { WritesAll (O.taken out.old) (O.taken out.new) (O.faults out.old) (O.faults out.new) result
        (ple_text ple) }
{
    let pivots = ple.pivots.as_slice();
    write_heading(
        pivots.len() as u64,
        ple.rows.as_list(),
        "pivots",
        pivots,
        out,
    )?;
    write_both(ple.l, ple.e, out)
}

/// Writes the text of a PLUQ.
pub(crate) fn write_pluq<O: Sink>(pluq: PluqFactors, out: &mut O) -> Result<(), WriteFault>
    ensures { WritesAll (O.taken out.old) (O.taken out.new) (O.faults out.old) (O.faults out.new) result
        (pluq_text pluq) }
{
    let columns = pluq.columns.as_list();
    write_heading(
        u64::from(pluq.rank),
        pluq.rows.as_list(),
        "columns",
        columns,
        out,
    )?;
    write_both(pluq.l, pluq.u, out)
}

/// Writes what stands before the factors: the rank, the order of the rows, and under this name what is told of columns.
fn write_heading<O: Sink>(
    rank: u64,
    rows: &[u32],
    name: &str,
    columns: &[u32],
    out: &mut O,
) -> Result<(), WriteFault>
    requires { length name.now ≤ 64 }
    ensures { WritesAll (O.taken out.old) (O.taken out.new) (O.faults out.old) (O.faults out.new) result
        (rank_line rank ++ (rows_line rows.now ++ numbers_line name.now columns.now)) }
{
    write_whole(out, rank_line(rank).as_bytes())?;
    write_orders(rows, name, columns, out)
}

/// Writes the line of the rows' order, and under this name the one of columns.
fn write_orders<O: Sink>(
    rows: &[u32],
    name: &str,
    columns: &[u32],
    out: &mut O,
) -> Result<(), WriteFault>
    requires { length name.now ≤ 64 }
    ensures { WritesAll (O.taken out.old) (O.taken out.new) (O.faults out.old) (O.faults out.new) result
        (rows_line rows.now ++ numbers_line name.now columns.now) }
{
    write_numbers("rows", rows, out)?;
    write_numbers(name, columns, out)
}

/// Writes the two factors as headed texts.
fn write_both<O: Sink>(first: Mzed, second: Mzed, out: &mut O) -> Result<(), WriteFault>
    ensures { WritesAll (O.taken out.old) (O.taken out.new) (O.faults out.old) (O.faults out.new) result
        (headed_text first ++ headed_text second) }
{
    write_text(&first, Form::Headed, out)?;
    write_text(&second, Form::Headed, out)
}
