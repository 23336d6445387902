//! A headed text whose header is there, fed in pieces.

ghost use Rattle.std.specs.Prelude.{◌≡◌, ℕ, ◌+◌, ◌*◌, ◌<◌, ◌≤◌, List, ◌++◌, length, OnOk, IfOk, IfErr};
ghost use Rattle.m4_model.specs.Field.{width};
ghost use Rattle.m4_model.specs.Matrix.{zero_matrix};
ghost use Rattle.m4_model.specs.Text.{IsWithinLimits};
ghost use Rattle.m4_model.specs.Headed.{Reads, Refusal, BadAt, HasField, AreHeaderNumbers, header};
ghost use Rattle.m4_etext.specs.Pieces.{Kept, StandsForLines, digits_in};
ghost use Rattle.m4_etext.specs.Kinds.{spelled_by, Suits};

use crate::kind::{Kind, line_digits};
use crate::piece::take_lines;
use m4_mzed::Mzed;
use std::marker::Model;

/// The matrix, and the place of the next digit.
#[derive(Drop)]
pub struct Lines {
    kind: Kind,
    head: u32,
    m: Mzed,
    row: u32,
    place: u32,
}

impl Model for Lines {
    ghost use Rattle.std.specs.Prelude.{◌≤◌};
    ghost use Rattle.m4_etext.specs.Pieces.{Kept, digits_in};
    ghost use Rattle.m4_etext.specs.Kinds.{spelled_by, Suits};

    ghost Value = { Kept };

    ghost view = { λ l. record { spelling = spelled_by l.kind l.m.field; head = l.head; matrix = l.m; row_next = l.row; place_next = l.place } };

    ghost invariant = { λ l. (l.row ≤ l.m.rows) × (l.place ≤ digits_in (spelled_by l.kind l.m.field) l.m.cols) × Suits l.kind l.m.field };
}

impl Lines {
    /// No lines yet, of the matrix of zeros behind a header of so many bytes.
    pub fn new(m: Mzed, kind: Kind, head: u32) -> Lines
        requires { Suits kind m.field }
        ensures stands { HasField (spelled_by kind m.field) → AreHeaderNumbers (spelled_by kind m.field) m.rows m.cols
            → IsWithinLimits (width m.field) m.rows m.cols → head ≡ length (header (spelled_by kind m.field) m.rows m.cols)
            → StandsForLines result (header (spelled_by kind m.field) m.rows m.cols) }
    {
        let _rows = m.rows();
        Lines {
            kind,
            head,
            m,
            row: 0,
            place: 0,
        }
    }

    /// Feeds the next bytes. An error is the place of the byte that can't follow.
    pub fn feed(&mut self, piece: &[u8]) -> Result<(), u64>
        ensures ok { OnOk result ((bytes : List ℕ) → StandsForLines self.old bytes → StandsForLines self.new (bytes ++ piece.now)) }
        ensures err { IfErr result (λ place. (bytes : List ℕ) → StandsForLines self.old bytes
            → (more : List ℕ) → Refusal ((bytes ++ piece.now) ++ more) (BadAt place)) }
    {
        let taken = take_lines(piece, &mut self.m, self.kind, self.row, self.place);
        self.row = taken.row;
        self.place = taken.place;
        if taken.len < piece.len() {
            return Err(self.place());
        }
        Ok(())
    }

    /// The matrix, where all its lines are there. An error is the place where the text ends too early.
    pub fn finish(self) -> Result<Mzed, u64>
        ensures ok { IfOk result (λ m. (bytes : List ℕ) → StandsForLines self bytes → Reads bytes m) }
        ensures err { IfErr result (λ place. (bytes : List ℕ) → StandsForLines self bytes → Refusal bytes (BadAt place)) }
    {
        if self.row < self.m.rows() {
            return Err(self.place());
        }
        Ok(self.m)
    }

    /// How many bytes were fed, with the header.
    fn place(&self) -> u64
        ensures { result ≡ self.now.head + self.now.row_next * (digits_in self.now.spelling self.now.matrix.cols + 1) + self.now.place_next }
    {
        let _rows = self.m.rows();
        let width = line_digits(self.kind, &self.m.field(), self.m.cols());
        u64::from(self.head) + u64::from(self.row) * (u64::from(width) + 1) + u64::from(self.place)
    }
}
