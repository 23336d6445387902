//! The forms of a text: what each can hold, and how a matrix is written in it.

ghost use Rattle.std.specs.Prelude.{◌↔◌, IsTrue};
ghost use Rattle.m4_model.specs.FormTexts.{can_hold, text_as};
ghost use Rattle.m4_model.specs.Texts.{can_hold as can_hold_bits, text_as as text_of_bits};
ghost use Rattle.m4_io.specs.Outside.{WritesAll};

use crate::WriteFault;
use crate::write::{write_headed, write_hex};
use m4_io::Sink;
use m4_model::Form;
use m4_mzd::Mzd;
use m4_mzed::Mzed;
use m4_text::write_as;

/// Whether the form can hold the matrix: bare text and JCF hold matrices over GF(2) alone, bare text none of columns without a
/// row, JCF none with a row of zeros before another row.
pub fn can_write(m: &Mzed, form: Form) -> bool
    ensures { IsTrue result ↔ can_hold form m.now }
{
    match form {
        Form::Headed | Form::Hex => true,
        Form::Bare => m.is_over_gf2() && m4_text::can_write(m.as_bits(), Form::Bare),
        Form::Jcf => m.is_over_gf2() && m4_text::can_write(m.as_bits(), Form::Jcf),
    }
}

/// Writes the text of the matrix in this form. It takes no memory.
pub fn write_text<O: Sink>(m: &Mzed, form: Form, sink: &mut O) -> Result<(), WriteFault>
    requires { can_hold form m.now }
    ensures { WritesAll (O.taken sink.old) (O.taken sink.new) (O.faults sink.old) (O.faults sink.new) result
        (text_as form m.now) }
{
    match form {
        Form::Headed => write_headed(m, sink),
        Form::Hex => write_hex(m, sink),
        Form::Bare => write_bits(m.as_bits(), Form::Bare, sink),
        Form::Jcf => write_bits(m.as_bits(), Form::Jcf, sink),
    }
}

/// Writes the text of a matrix of bits in this form.
fn write_bits<O: Sink>(bits: &Mzd, form: Form, sink: &mut O) -> Result<(), WriteFault>
    requires { can_hold_bits form bits.now }
    ensures { WritesAll (O.taken sink.old) (O.taken sink.new) (O.faults sink.old) (O.faults sink.new) result
        (text_of_bits form bits.now) }
{
    write_as(bits, form, sink)?;
    Ok(())
}
