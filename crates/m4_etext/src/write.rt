//! Headed text over any field, written.

ghost use Rattle.std.specs.Prelude.{◌≡◌, ℕ, ◌<◌, flat_map};
ghost use Rattle.m4_model.specs.Matrix.{row};
ghost use Rattle.m4_model.specs.Headed.{Bits, Fours, Elements, opening, header, line, text_in, headed_text, hex_text, first_version, second_version};
ghost use Rattle.m4_model.specs.Field.{gf2};
ghost use Rattle.m4_field.specs.Fields.{the_field};
ghost use Rattle.m4_io.specs.Outside.{WritesAll};
ghost use Rattle.m4_etext.specs.Pending.{Puts};
ghost use Rattle.m4_etext.specs.Pieces.{glyphs};
ghost use Rattle.m4_etext.specs.Kinds.{spelled_by, Suits};

use crate::WriteFault;
use crate::hex::hex_number;
use crate::kind::{Kind, element_digits};
use crate::pending::Pending;
use m4_bits::words_for;
use m4_field::Field;
use m4_io::{Failed, Sink};
use m4_mzed::Mzed;

/// Writes the headed text of the matrix, in version 1. It takes no memory.
pub fn write_headed<O: Sink>(m: &Mzed, sink: &mut O) -> Result<(), WriteFault>
    ensures { WritesAll (O.taken sink.old) (O.taken sink.new) (O.faults sink.old) (O.faults sink.new) result
        (headed_text m.now) }
{
    let _rows = m.rows();
    write_spelled(m, kind_of(&m.field(), Kind::OfBits), sink)
}

/// Writes the headed text of the matrix, in version 2: over GF(2) a digit for each four entries. It takes no memory.
pub fn write_hex<O: Sink>(m: &Mzed, sink: &mut O) -> Result<(), WriteFault>
    ensures { WritesAll (O.taken sink.old) (O.taken sink.new) (O.faults sink.old) (O.faults sink.new) result
        (hex_text m.now) }
{
    let _rows = m.rows();
    write_spelled(m, kind_of(&m.field(), Kind::OfFours), sink)
}

/// How entries over this field are spelled, where those over GF(2) are as it is told.
fn kind_of(field: &Field, over_gf2: Kind) -> Kind
    requires { Suits over_gf2 gf2 }
    ensures suits { Suits result (the_field field.now) }
    ensures first { over_gf2 ≡ Kind.OfBits → spelled_by result (the_field field.now) ≡ first_version (the_field field.now) }
    ensures second { over_gf2 ≡ Kind.OfFours → spelled_by result (the_field field.now) ≡ second_version (the_field field.now) }
{
    if field.e() == 1 {
        over_gf2
    } else {
        Kind::OfElements
    }
}

/// Writes the text of the matrix in this spelling.
fn write_spelled<O: Sink>(m: &Mzed, kind: Kind, sink: &mut O) -> Result<(), WriteFault>
    requires { Suits kind m.now.field }
    ensures { WritesAll (O.taken sink.old) (O.taken sink.new) (O.faults sink.old) (O.faults sink.new) result
        (text_in (spelled_by kind m.now.field) m.now) }
{
    let mut pending = Pending::new();
    put_header(kind, &m.field(), m.rows(), m.cols(), &mut pending, sink)?;
    put_lines(m, kind, &mut pending, sink)?;
    pending.finish(sink)?;
    Ok(())
}

/// Puts the header line of a matrix of these sizes over this field.
fn put_header<O: Sink>(
    kind: Kind,
    field: &Field,
    rows: u32,
    cols: u32,
    pending: &mut Pending,
    sink: &mut O,
) -> Result<(), Failed>
    ensures { Puts (O.taken sink.old) (O.taken sink.new) (O.faults sink.old) (O.faults sink.new)
        pending.old pending.new result (header (spelled_by kind (the_field field.now)) rows cols) }
{
    put_opening(kind, field, pending, sink)?;
    pending.put_number(u64::from(rows), b' ', sink)?;
    pending.put_number(u64::from(cols), b'\n', sink)
}

/// Puts what stands before the numbers of rows and columns.
fn put_opening<O: Sink>(
    kind: Kind,
    field: &Field,
    pending: &mut Pending,
    sink: &mut O,
) -> Result<(), Failed>
    ensures { Puts (O.taken sink.old) (O.taken sink.new) (O.faults sink.old) (O.faults sink.new)
        pending.old pending.new result (opening (spelled_by kind (the_field field.now))) }
{
    match kind {
        Kind::OfBits => pending.put(b"gf2 ", sink),
        Kind::OfFours => pending.put(b"gf2x ", sink),
        Kind::OfElements => put_field(field, pending, sink),
    }
}

/// Puts the letters of an extension field, its degree and its polynomial.
fn put_field<O: Sink>(field: &Field, pending: &mut Pending, sink: &mut O) -> Result<(), Failed>
    ensures { Puts (O.taken sink.old) (O.taken sink.new) (O.faults sink.old) (O.faults sink.new)
        pending.old pending.new result (opening (Elements (the_field field.now))) }
{
    pending.put(b"gf2e ", sink)?;
    pending.put_number(u64::from(field.e()), b' ', sink)?;
    let poly = hex_number(field.poly());
    pending.put(&poly.bytes[poly.start..], sink)?;
    pending.put(b" ", sink)
}

/// Puts the lines of the matrix's rows.
fn put_lines<O: Sink>(
    m: &Mzed,
    kind: Kind,
    pending: &mut Pending,
    sink: &mut O,
) -> Result<(), Failed>
    requires { Suits kind m.now.field }
    ensures { Puts (O.taken sink.old) (O.taken sink.new) (O.faults sink.old) (O.faults sink.new)
        pending.old pending.new result (flat_map (line (spelled_by kind m.now.field)) m.now.entries) }
{
    for r in 0..m.rows() {
        put_row(m, kind, r, pending, sink)?;
        pending.put(b"\n", sink)?;
    }
    Ok(())
}

/// Puts the digits of row `r`.
fn put_row<O: Sink>(
    m: &Mzed,
    kind: Kind,
    r: u32,
    pending: &mut Pending,
    sink: &mut O,
) -> Result<(), Failed>
    requires suits { Suits kind m.now.field }
    requires in_rows { r < m.now.rows }
    ensures { Puts (O.taken sink.old) (O.taken sink.new) (O.faults sink.old) (O.faults sink.new)
        pending.old pending.new result (glyphs (spelled_by kind m.now.field) (row m.now r)) }
{
    match kind {
        Kind::OfBits => put_bits(m, r, pending, sink),
        Kind::OfFours => put_fours(m, r, pending, sink),
        Kind::OfElements => put_elements(m, r, pending, sink),
    }
}

/// Puts the digits of row `r` over GF(2), word by word.
fn put_bits<O: Sink>(m: &Mzed, r: u32, pending: &mut Pending, sink: &mut O) -> Result<(), Failed>
    requires over_gf2 { m.now.field ≡ gf2 }
    requires in_rows { r < m.now.rows }
    ensures { Puts (O.taken sink.old) (O.taken sink.new) (O.faults sink.old) (O.faults sink.new)
        pending.old pending.new result (glyphs Bits (row m.now r)) }
{
    let entries = m.all().into_bits();
    let cols = m.cols();
    for w in 0..words_for(cols) {
        let count = (cols - 64 * w).min(64);
        pending.put_word(entries.word(r, w), count as usize, sink)?;
    }
    Ok(())
}

/// Puts the digits of row `r` over GF(2), four entries a digit, word by word.
fn put_fours<O: Sink>(m: &Mzed, r: u32, pending: &mut Pending, sink: &mut O) -> Result<(), Failed>
    requires over_gf2 { m.now.field ≡ gf2 }
    requires in_rows { r < m.now.rows }
    ensures { Puts (O.taken sink.old) (O.taken sink.new) (O.faults sink.old) (O.faults sink.new)
        pending.old pending.new result (glyphs Fours (row m.now r)) }
{
    let entries = m.all().into_bits();
    let cols = m.cols();
    for w in 0..words_for(cols) {
        let count = (cols - 64 * w).div_ceil(4).min(16);
        pending.put_fours(entries.word(r, w), count as usize, sink)?;
    }
    Ok(())
}

/// Puts the digits of row `r` element by element, word by word.
fn put_elements<O: Sink>(
    m: &Mzed,
    r: u32,
    pending: &mut Pending,
    sink: &mut O,
) -> Result<(), Failed>
    requires in_rows { r < m.now.rows }
    ensures { Puts (O.taken sink.old) (O.taken sink.new) (O.faults sink.old) (O.faults sink.new)
        pending.old pending.new result (glyphs (Elements m.now.field) (row m.now r)) }
{
    let entries = m.all().packed();
    let _rows = entries.rows();
    let width = m.field().width();
    let count = element_digits(&m.field());
    let side = 64 / width;
    let cols = m.cols();
    for w in 0..words_for(entries.cols()) {
        let elements = (cols - side * w).min(side);
        let len = (elements * count) as usize;
        pending.put_elements(entries.word(r, w), width, count, len, sink)?;
    }
    Ok(())
}
