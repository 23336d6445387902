ghost use Rattle.std.specs.Prelude.{◌≡◌, ◌≤◌, false, length, MatchOption, MatchResult, OnOk, IfOk, IfErr};
ghost use Rattle.m4_model.specs.Jcf.{ReadsJcf};
ghost use Rattle.m4_model.specs.declared.form.Form.TheVariants.{Jcf};
ghost use Rattle.m4_text.specs.Refused.{IsRefusedIn};
ghost use Rattle.m4_text.specs.Tokens.{IsNextNumber, LacksNumber, IsHeaderBefore, IsHeaderFault, IsCell, LacksCell, ReadsEntries, RefusesEntry};

use crate::TextFault;
use crate::limits::{MOST_BYTES, are_within_limits};
use crate::tokens::{entry_of, next_token, number};
use m4_mzd::{MOST_SIDE, Mzd};
use std::alloc::Global;

/// The modulus of a matrix over GF(2).
const MODULUS: u64 = 2;

/// The sizes that a header tells, and the place behind it.
#[derive(Clone, Copy)]
struct Sizes {
    rows: u64,
    cols: u64,
    end: usize,
}

/// A number, and where it stands.
#[derive(Clone, Copy)]
struct Number {
    value: u64,
    start: usize,
    end: usize,
}

/// A place in a matrix, counted from 0.
#[derive(Clone, Copy)]
struct Cell {
    row: u32,
    column: u32,
}

/// Reads the bytes as the JCF text of one matrix.
pub fn read_jcf(alloc: Global, bytes: &[u8]) -> Result<Mzd, TextFault>
    ensures ok { IfOk result (ReadsJcf bytes.now) }
    ensures err { IfErr result (IsRefusedIn Jcf bytes.now) }
{
    let long = bytes.len() > MOST_BYTES;
    let first = &bytes[..bytes.len().min(MOST_BYTES)];
    let sizes = sizes_of(first, long)?;
    if !are_within_limits(sizes.rows, sizes.cols) {
        return Err(TextFault::Limit);
    }
    let mut m = Mzd::zeros(alloc, sizes.rows as u32, sizes.cols as u32)?;
    match read_entries(first, long, sizes.end, &mut m) {
        Ok(()) => { if long { Err(TextFault::Limit) } else { Ok(m) } }
        Err(place) => Err(TextFault::Bad { at: place as u64 }),
    }
}

/// The sizes that the header tells with which the bytes begin.
fn sizes_of(bytes: &[u8], long: bool) -> Result<Sizes, TextFault>
    ensures { MatchResult result (λ sizes. IsHeaderBefore bytes.now long sizes.rows sizes.cols sizes.end)
        (IsHeaderFault bytes.now long) }
{
    let rows = next_number(bytes, long, 0)?;
    let cols = next_number(bytes, long, rows.end)?;
    let modulus = next_number(bytes, long, cols.end)?;
    if modulus.value != MODULUS {
        return Err(TextFault::Bad {
            at: modulus.start as u64,
        });
    }
    let unused = next_number(bytes, long, modulus.end)?;
    Ok(Sizes {
        rows: rows.value,
        cols: cols.value,
        end: unused.end,
    })
}

/// The number that the first token from this place on spells.
fn next_number(bytes: &[u8], long: bool, from: usize) -> Result<Number, TextFault>
    requires { from ≤ length bytes.now }
    ensures { MatchResult result (λ found. IsNextNumber bytes.now long from found.value found.start found.end)
        (LacksNumber bytes.now long from) }
{
    match next_token(bytes, long, from) {
        Some(token) => match number(&bytes[token.start..token.end]) {
            Some(value) => Ok(Number {
                value,
                start: token.start,
                end: token.end,
            }),
            None => Err(TextFault::Bad {
                at: token.start as u64,
            }),
        },
        None => {
            if long {
                Err(TextFault::Limit)
            } else {
                Err(TextFault::Bad {
                    at: bytes.len() as u64,
                })
            }
        }
    }
}

/// Reads the tokens from this place on as entries into the matrix. An error is the place of the first that is refused.
fn read_entries(bytes: &[u8], long: bool, start: usize, m: &mut Mzd) -> Result<(), usize>
    requires { start ≤ length bytes.now }
    ensures ok { OnOk result (ReadsEntries bytes.now long start m.old m.new) }
    ensures err { IfErr result (RefusesEntry bytes.now long start m.old.rows m.old.cols) }
{
    let rows = m.rows();
    let cols = m.cols();
    let mut begun = 0;
    let mut place = start;
    while let Some(token) = next_token(bytes, long, place) {
        let Some(cell) = cell_of(&bytes[token.start..token.end], begun, rows, cols) else {
            return Err(token.start);
        };
        m.put(cell.row, cell.column, true);
        begun = cell.row + 1;
        place = token.end;
    }
    Ok(())
}

/// Where the entry stands that the token spells, in a matrix of so many rows and columns of which so many rows have
/// begun.
fn cell_of(token: &[u8], begun: u32, rows: u32, cols: u32) -> Option<Cell>
    requires { begun ≤ MOST_SIDE }
    ensures { MatchOption result (LacksCell token.now begun rows cols)
        (λ cell. IsCell token.now begun rows cols cell.row cell.column) }
{
    let entry = entry_of(token)?;
    let row = begun + u32::from(entry.next_row);
    if row == 0 || row > rows || entry.column == 0 || entry.column > u64::from(cols) {
        return None;
    }
    Some(Cell {
        row: row - 1,
        column: (entry.column - 1) as u32,
    })
}
