//! The lines of a bare text whose first line has ended, fed in pieces to a matrix that grows.

ghost use Rattle.std.specs.Prelude.{◌≡◌, ◌↔◌, ℕ, ◌+◌, ◌*◌, ◌<◌, ◌≤◌, List, [], ◌∷◌, ◌++◌, length, take, drop, slice_index, IsTrue, OnOk, IfOk, IfErr};
ghost use Rattle.m4_model.specs.Field.{gf2};
ghost use Rattle.m4_model.specs.Shapes.{above, cut};
ghost use Rattle.m4_model.specs.Text.{IsWithinLimits, Begins};
ghost use Rattle.m4_model.specs.Headed.{Bits};
ghost use Rattle.m4_model.specs.Bare.{ReadsBare};
ghost use Rattle.m4_model.specs.declared.form.Form.TheVariants.{Bare};
ghost use Rattle.m4_text.specs.Place.{IsLine};
ghost use Rattle.m4_etext.specs.Pieces.{Stops};
ghost use Rattle.m4_etext.specs.BareRows.{KeptRows, StandsForRows};
ghost use Rattle.m4_etext.specs.FormFaults.{IsFaultIn, IsFaultOfAllIn};

use crate::TextFault;
use crate::kind::Kind;
use crate::limits::{MOST_ROWS, most_rows};
use crate::piece::take_lines;
use m4_eshape::{estack, esub};
use m4_model::NoMemory;
use m4_mzd::{MOST_SIDE, Rect};
use m4_mzed::Mzed;
use std::alloc::Global;
use std::marker::Model;

/// A matrix whose first rows are the lines so far, and the place of the next digit.
#[derive(Drop)]
pub struct BareRows {
    m: Mzed,
    row: u32,
    place: u32,
}

impl Model for BareRows {
    ghost use Rattle.std.specs.Prelude.{◌≡◌, ◌<◌, ◌≤◌};
    ghost use Rattle.m4_model.specs.Field.{gf2};
    ghost use Rattle.m4_model.specs.Text.{IsWithinLimits};
    ghost use Rattle.m4_etext.specs.BareRows.{KeptRows};

    ghost Value = { KeptRows };

    ghost view = { λ b. record { matrix = b.m; row_next = b.row; place_next = b.place } };

    ghost invariant = { λ b. (b.row ≤ b.m.rows) × (b.place ≤ b.m.cols) × (0 < b.m.rows) × (b.m.field ≡ gf2) × IsWithinLimits 1 b.m.rows b.m.cols };
}

impl BareRows {
    /// The first line, which is the one row of the matrix.
    pub fn of_line(line: Mzed) -> BareRows
        requires over { line.field ≡ gf2 }
        requires one { line.rows ≡ 1 }
        requires limits { IsWithinLimits 1 line.rows line.cols }
        ensures { result ≡ record { matrix = line; row_next = 1; place_next = 0 } }
    {
        let _rows = line.rows();
        BareRows {
            m: line,
            row: 1,
            place: 0,
        }
    }

    /// Feeds the next bytes. A fault other than `NoMemory` is that of every file that begins with the bytes fed so far.
    pub fn feed(&mut self, alloc: Global, piece: &[u8]) -> Result<(), TextFault>
        ensures ok { OnOk result ((bytes : List ℕ) → StandsForRows self.old bytes → StandsForRows self.new (bytes ++ piece.now)) }
        ensures err { IfErr result (λ fault. (bytes : List ℕ) → StandsForRows self.old bytes → IsFaultOfAllIn Bare (bytes ++ piece.now) fault) }
    {
        let mut len = self.take(piece);
        while len < piece.len() {
            self.make_room(alloc, &piece[len..])?;
            len += self.take(&piece[len..]);
        }
        Ok(())
    }

    /// The matrix of the lines, where the last one has ended.
    pub fn finish(self, alloc: Global) -> Result<Mzed, TextFault>
        ensures ok { IfOk result (λ m. (bytes : List ℕ) → StandsForRows self bytes → ReadsBare bytes m) }
        ensures err { IfErr result (λ fault. (bytes : List ℕ) → StandsForRows self bytes → IsFaultIn Bare bytes fault) }
    {
        if self.place > 0 {
            return Err(TextFault::Bad { at: self.place() });
        }
        let rect = Rect {
            r0: 0,
            c0: 0,
            r1: self.row,
            c1: self.m.cols(),
        };
        Ok(esub(alloc, &self.m.all(), rect)?)
    }

    /// Takes as many bytes as go on with the rows that are there.
    fn take(&mut self, piece: &[u8]) -> usize
        ensures within { result ≤ length piece.now }
        ensures rows { self.new.matrix.rows ≡ self.old.matrix.rows }
        ensures read { (bytes : List ℕ) → StandsForRows self.old bytes → StandsForRows self.new (bytes ++ take result piece.now) }
        ensures stops { result < length piece.now
            → Stops Bits self.new.matrix.rows self.new.matrix.cols self.new.row_next self.new.place_next (drop result piece.now) }
    {
        let taken = take_lines(piece, &mut self.m, Kind::OfBits, self.row, self.place);
        self.row = taken.row;
        self.place = taken.place;
        taken.len
    }

    /// Makes room for a row that the rest of a piece begins, where all rows are there and one more is within the limits.
    fn make_room(&mut self, alloc: Global, rest: &[u8]) -> Result<(), TextFault>
        requires some { 0 < length rest.now }
        requires stops { Stops Bits self.old.matrix.rows self.old.matrix.cols self.old.row_next self.old.place_next rest.now }
        ensures ok { OnOk result ((bytes : List ℕ) → StandsForRows self.old bytes → StandsForRows self.new bytes) }
        ensures more { OnOk result (self.old.matrix.rows < self.new.matrix.rows) }
        ensures few { OnOk result (self.new.matrix.rows ≤ MOST_ROWS) }
        ensures err { IfErr result (λ fault. (bytes : List ℕ) → StandsForRows self.old bytes → IsFaultOfAllIn Bare (bytes ++ rest.now) fault) }
    {
        let rows = self.m.rows();
        let most = most_rows(self.m.cols());
        if self.row < rows {
            return Err(TextFault::Bad { at: self.place() });
        }
        if rows >= most {
            return Err(self.past_rows(rest[0]));
        }
        self.m = lengthened(alloc, &self.m, rows.min(most - rows))?;
        Ok(())
    }

    /// How many bytes were fed.
    fn place(&self) -> u64
        ensures { result ≡ self.now.row_next * (self.now.matrix.cols + 1) + self.now.place_next }
    {
        let _rows = self.m.rows();
        u64::from(self.row) * (u64::from(self.m.cols()) + 1) + u64::from(self.place)
    }

    /// Why no row begins with this byte where all rows that the limits allow are there.
    fn past_rows(&self, byte: u8) -> TextFault
        requires all { self.now.row_next ≡ self.now.matrix.rows }
        requires most { IsWithinLimits 1 (self.now.matrix.rows + 1) self.now.matrix.cols → ⊥ }
        ensures { (bytes rest : List ℕ) → StandsForRows self.now bytes → 0 < length rest → slice_index rest 0 ≡ byte
            → IsFaultOfAllIn Bare (bytes ++ rest) result }
    {
        if begins_row(byte, self.m.cols()) {
            TextFault::Limit
        } else {
            TextFault::Bad { at: self.place() }
        }
    }
}

/// The matrix, and below it so many of its first rows once more.
fn lengthened(alloc: Global, m: &Mzed, more: u32) -> Result<Mzed, NoMemory>
    requires there { more ≤ m.now.rows }
    requires few { m.now.rows + more ≤ MOST_SIDE }
    ensures { IfOk result (λ longer. longer ≡ above m.now (cut m.now 0 0 more m.now.cols)) }
{
    let rect = Rect {
        r0: 0,
        c0: 0,
        r1: more,
        c1: m.cols(),
    };
    estack(alloc, &m.all(), &m.win(rect))
}

/// Whether the line of a row of so many columns may begin with this byte.
fn begins_row(byte: u8, cols: u32) -> bool
    ensures { IsTrue result ↔ Begins (IsLine cols) (byte ∷ []) }
{
    if cols == 0 {
        byte == b'\n'
    } else {
        byte == b'0' || byte == b'1'
    }
}
