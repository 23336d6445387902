//! The header line of a headed text, of each of its kinds.

ghost use Rattle.std.specs.Prelude.{MatchResult};
ghost use Rattle.m4_model.specs.Headed.{IsHeader};
ghost use Rattle.m4_etext.specs.Place.{GoesWrong, IsHeaderOf};
ghost use Rattle.m4_etext.specs.Parsed.{spelling_of};

use crate::opening::{Opening, opening_of};
use crate::radix::{Radix, number_at};

/// What a header line tells, and how many bytes it has.
#[derive(Clone, Copy)]
pub struct Header {
    pub opening: Opening,
    pub rows: u32,
    pub cols: u32,
    pub len: usize,
}

/// The header line that the bytes begin with, or the place where they go wrong in it.
pub fn header_of(bytes: &[u8]) -> Result<Header, usize>
    ensures { MatchResult result (λ header. IsHeaderOf bytes.now (spelling_of header.opening) header.rows header.cols header.len)
        (GoesWrong IsHeader bytes.now) }
{
    let opened = opening_of(bytes)?;
    let rows = number_at(bytes, opened.end, Radix::Decimal, b' ')?;
    let cols = number_at(bytes, rows.end, Radix::Decimal, b'\n')?;
    Ok(Header {
        opening: opened.opening,
        rows: rows.value,
        cols: cols.value,
        len: cols.end,
    })
}
