ghost use Rattle.std.specs.Prelude.{◌≡◌, ◌⊎◌, ◌↔◌, ◌<◌, IsTrue, Err, IfOk, IfErr};
ghost use Rattle.m4_model.specs.Jcf.{IsZeroRow, CanBeJcf};
ghost use Rattle.m4_model.specs.Text.{PastLimit};
ghost use Rattle.m4_model.specs.Texts.{can_hold, text_as, ReadsAs, RefusalAs};
ghost use Rattle.m4_io.specs.Outside.{WritesAll};
ghost use Rattle.m4_text.specs.Refused.{IsRefusedIn};

use crate::bare::read_bare;
use crate::jcf_read::read_jcf;
use crate::jcf_write::{is_zero_row, write_jcf};
use crate::read::read_text;
use crate::write::{write_bare, write_text};
use crate::{TextFault, WriteFault};
use m4_io::Sink;
use m4_model::Form;
use m4_mzd::Mzd;
use std::alloc::Global;

/// Reads the bytes as the text of one matrix in this form.
///
/// A fault is that of the bytes. Where more than 2^29 of them are given, it is that of every file that begins with them. A
/// passed limit is told as such, unless memory is wanting.
pub fn read_as(alloc: Global, form: Form, bytes: &[u8]) -> Result<Mzd, TextFault>
    ensures ok { IfOk result (ReadsAs form bytes.now) }
    ensures err { IfErr result (IsRefusedIn form bytes.now) }
    ensures limit { RefusalAs form bytes.now PastLimit → (result ≡ Err TextFault.Limit) ⊎ (result ≡ Err TextFault.NoMemory) }
{
    match form {
        Form::Headed => read_text(alloc, bytes),
        Form::Bare => read_bare(alloc, bytes),
        Form::Jcf => read_jcf(alloc, bytes),
        Form::Hex => read_text(alloc, bytes),
    }
}

/// Whether the form can hold the matrix: bare text no matrix of columns without a row, JCF no row of zeros before
/// another row, version 2 of headed text none yet.
pub fn can_write(m: &Mzd, form: Form) -> bool
    ensures { IsTrue result ↔ can_hold form m.now }
{
    match form {
        Form::Headed => true,
        Form::Bare => m.rows() > 0 || m.cols() == 0,
        Form::Jcf => zero_rows_stand_last(m),
        Form::Hex => false,
    }
}

/// Writes the text of the matrix in this form. It takes no memory.
pub fn write_as<O: Sink>(m: &Mzd, form: Form, sink: &mut O) -> Result<(), WriteFault>
    requires { can_hold form m.now }
    ensures { WritesAll (O.taken sink.old) (O.taken sink.new) (O.faults sink.old) (O.faults sink.new) result
        (text_as form m.now) }
{
    match form {
        Form::Headed => write_text(m, sink),
        Form::Bare => write_bare(m, sink),
        Form::Jcf => write_jcf(m, sink),
        Form::Hex => write_text(m, sink),
    }
}

/// Whether no row of zeros stands before another row.
fn zero_rows_stand_last(m: &Mzd) -> bool
    ensures { IsTrue result ↔ CanBeJcf m.now }
{
    let mut zero_before = false;
    for r in 0..m.rows() {
        let zero = is_zero_row(m, r);
        if zero_before && !zero {
            return false;
        }
        zero_before = zero;
    }
    true
}
