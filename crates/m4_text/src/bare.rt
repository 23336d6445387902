ghost use Rattle.std.specs.Prelude.{◌≡◌, ◌≤◌, ◌<◌, ◌↔◌, [], ◌∷◌, length, IsTrue, IfOk, IfErr, MatchResult};
ghost use Rattle.m4_model.specs.Text.{Begins};
ghost use Rattle.m4_model.specs.Bare.{ReadsBare};
ghost use Rattle.m4_model.specs.declared.form.Form.TheVariants.{Bare};
ghost use Rattle.m4_text.specs.Place.{IsLine, HasLine};
ghost use Rattle.m4_text.specs.Reading.{AreRowsToRead};
ghost use Rattle.m4_text.specs.Refused.{IsRefusedIn};

use crate::TextFault;
use crate::body::{binary_digit, ends_at, read_lines};
use crate::limits::{MOST_COLS, most_rows};
use m4_mzd::Mzd;
use std::alloc::Global;

/// Reads the bytes as the bare text of one matrix.
pub fn read_bare(alloc: Global, bytes: &[u8]) -> Result<Mzd, TextFault>
    ensures ok { IfOk result (ReadsBare bytes.now) }
    ensures err { IfErr result (IsRefusedIn Bare bytes.now) }
{
    if bytes.is_empty() {
        return Ok(Mzd::zeros(alloc, 0, 0)?);
    }
    let cols = first_line(bytes)?;
    let rows = rows_to_read(bytes.len(), cols);
    let mut m = Mzd::zeros(alloc, rows, cols)?;
    match read_lines(bytes, &mut m) {
        Ok(end) => {
            if end == bytes.len() {
                Ok(m)
            } else if begins_row(bytes[end], cols) {
                Err(TextFault::Limit)
            } else {
                Err(TextFault::Bad { at: end as u64 })
            }
        }
        Err(place) => Err(TextFault::Bad { at: place as u64 }),
    }
}

/// The columns that the first line tells.
fn first_line(bytes: &[u8]) -> Result<u32, TextFault>
    requires { 0 < length bytes.now }
    ensures line { IfOk result (HasLine bytes.now) }
    ensures few { IfOk result (λ cols. cols ≤ MOST_COLS) }
    ensures err { IfErr result (IsRefusedIn Bare bytes.now) }
{
    let mut cols = 0;
    while binary_digit(bytes, cols as usize).is_some() {
        if cols == MOST_COLS {
            return Err(TextFault::Limit);
        }
        cols += 1;
    }
    let end = cols as usize;
    if ends_at(bytes, end) {
        Ok(cols)
    } else {
        Err(TextFault::Bad { at: end as u64 })
    }
}

/// How many rows of so many columns are to be read of `len` bytes: those that the bytes begin, or the most within the
/// limits.
fn rows_to_read(len: usize, cols: u32) -> u32
    requires some { 0 < len }
    requires few_cols { cols ≤ MOST_COLS }
    ensures { AreRowsToRead len cols result }
{
    let most = most_rows(cols);
    let begun = len.div_ceil(cols as usize + 1);
    begun.min(most as usize) as u32
}

/// Whether the line of a row of so many columns may begin with this byte.
fn begins_row(byte: u8, cols: u32) -> bool
    ensures { IsTrue result ↔ Begins (IsLine cols) (byte ∷ []) }
{
    if cols == 0 {
        byte == b'\n'
    } else {
        byte == b'0' || byte == b'1'
    }
}
