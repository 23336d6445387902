ghost use Rattle.std.specs.Prelude.{IfOk, IfErr};
ghost use Rattle.m4_model.specs.Text.{Reads};
ghost use Rattle.m4_text.specs.Refused.{IsRefusedAs};

use crate::body::read_rows;
use crate::header::header_of;
use crate::{TextFault, within_limits};
use m4_mzd::Mzd;
use std::alloc::Global;

/// Reads the bytes as the headed text of one matrix.
///
/// A fault is that of the bytes. Where more than 2^29 of them are given, it is that of every file that begins with them.
pub fn read_text(alloc: Global, bytes: &[u8]) -> Result<Mzd, TextFault>
    ensures ok { IfOk result (Reads bytes.now) }
    ensures err { IfErr result (IsRefusedAs bytes.now) }
{
    let header = match header_of(bytes) {
        Ok(header) => header,
        Err(place) => return Err(TextFault::Bad { at: place as u64 }),
    };
    if !within_limits(1, header.rows, header.cols) {
        return Err(TextFault::Limit);
    }
    let mut m = Mzd::zeros(alloc, header.rows, header.cols)?;
    match read_rows(bytes, header.len, &mut m) {
        Ok(()) => Ok(m),
        Err(place) => Err(TextFault::Bad { at: place as u64 }),
    }
}
