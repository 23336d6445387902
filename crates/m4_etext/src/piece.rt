//! Rows that are fed in pieces, into a matrix that is there from the start.

ghost use Rattle.std.specs.Prelude.{◌≡◌, ℕ, ◌+◌, ◌%◌, ◌<◌, ◌≤◌, List, ◌++◌, length, take, drop, slice_index};
ghost use Rattle.m4_mzed.specs.EWindow.{content, showing};
ghost use Rattle.m4_etext.specs.Pieces.{BodySoFar, Stops, ReadsDigits, IsDigitAt, digits_in};
ghost use Rattle.m4_etext.specs.Kinds.{spelled_by, Suits};

use crate::bits::{take_bits, take_fours};
use crate::elements::take_elements;
use crate::kind::{Kind, line_digits};
use m4_mzed::{EWinMut, Mzed};

/// The row and the place in its line of the next digit, and how many bytes of a piece were taken.
#[derive(Clone, Copy)]
pub struct Taken {
    pub row: u32,
    pub place: u32,
    pub len: usize,
}

/// Takes bytes of the piece as the next ones of the matrix's lines, up to the first that can't go on with them.
pub fn take_lines(piece: &[u8], m: &mut Mzed, kind: Kind, row: u32, place: u32) -> Taken
    requires suits { Suits kind m.old.field }
    requires in_rows { row ≤ m.old.rows }
    requires in_line { place ≤ digits_in (spelled_by kind m.old.field) m.old.cols }
    ensures field { m.new.field ≡ m.old.field }
    ensures shape_rows { m.new.rows ≡ m.old.rows }
    ensures shape_cols { m.new.cols ≡ m.old.cols }
    ensures within { result.len ≤ length piece.now }
    ensures next_row { result.row ≤ m.old.rows }
    ensures next_place { result.place ≤ digits_in (spelled_by kind m.old.field) m.old.cols }
    ensures read { (body : List ℕ) → BodySoFar (spelled_by kind m.old.field) m.old row place body
        → BodySoFar (spelled_by kind m.old.field) m.new result.row result.place (body ++ take result.len piece.now) }
    ensures stops { result.len < length piece.now
        → Stops (spelled_by kind m.old.field) m.old.rows m.old.cols result.row result.place (drop result.len piece.now) }
{
    let (mut whole, home) = m.all_mut();
    let taken = take_window(piece, &mut whole, kind, row, place);
    m.put_all(whole, home);
    taken
}

/// The same of a window.
fn take_window(piece: &[u8], whole: &mut EWinMut, kind: Kind, row: u32, place: u32) -> Taken
    requires suits { Suits kind whole.old.field }
    requires in_rows { row ≤ whole.old.rows }
    requires in_line { place ≤ digits_in (spelled_by kind whole.old.field) whole.old.cols }
    ensures within { result.len ≤ length piece.now }
    ensures next_row { result.row ≤ whole.old.rows }
    ensures next_place { result.place ≤ digits_in (spelled_by kind whole.old.field) whole.old.cols }
    ensures read { (body : List ℕ) → BodySoFar (spelled_by kind whole.old.field) (content whole.old) row place body
        → BodySoFar (spelled_by kind whole.old.field) (content whole.new) result.row result.place (body ++ take result.len piece.now) }
    ensures stops { result.len < length piece.now
        → Stops (spelled_by kind whole.old.field) whole.old.rows whole.old.cols result.row result.place (drop result.len piece.now) }
    ensures stays { whole.new ≡ showing whole.old (content whole.new) }
{
    let rows = whole.rows();
    let width = line_digits(kind, &whole.field(), whole.cols());
    let mut next = Taken { row, place, len: 0 };
    while next.len < piece.len() && next.row < rows {
        if next.place < width {
            let count = take_digits(&piece[next.len..], whole, kind, next.row, next.place);
            if count == 0 {
                return next;
            }
            next.place += count;
            next.len += count as usize;
        } else if piece[next.len] == b'\n' {
            next.row += 1;
            next.place = 0;
            next.len += 1;
        } else {
            return next;
        }
    }
    next
}

/// Takes digits from the front of the bytes into row `r` from place `t` of its line on, and answers how many: none only where
/// the first byte is no digit that may stand there.
#[inline]
fn take_digits(bytes: &[u8], whole: &mut EWinMut, kind: Kind, r: u32, t: u32) -> u32
    requires suits { Suits kind whole.old.field }
    requires in_rows { r < whole.old.rows }
    requires in_line { t < digits_in (spelled_by kind whole.old.field) whole.old.cols }
    requires some { 0 < length bytes.now }
    ensures read { 0 < result → ReadsDigits (spelled_by kind whole.old.field) bytes.now (content whole.old) (content whole.new) r t result }
    ensures none { result ≡ 0 → IsDigitAt (spelled_by kind whole.old.field) whole.old.cols t (slice_index bytes.now 0) → ⊥ }
    ensures same { result ≡ 0 → whole.new ≡ whole.old }
    ensures stays { whole.new ≡ showing whole.old (content whole.new) }
{
    match kind {
        Kind::OfBits => take_bits(bytes, whole, r, t),
        Kind::OfFours => take_fours(bytes, whole, r, t),
        Kind::OfElements => take_elements(bytes, whole, r, t),
    }
}
