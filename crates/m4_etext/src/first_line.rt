//! The first line of a bare text, fed in pieces.

ghost use Rattle.std.specs.Prelude.{◌≡◌, ℕ, ◌<◌, ◌≤◌, List, [], ◌++◌, IfOk, IfErr, MatchOption};
ghost use Rattle.m4_model.specs.Text.{most_cols};
ghost use Rattle.m4_model.specs.Shapes.{cut};
ghost use Rattle.m4_model.specs.declared.form.Form.TheVariants.{Bare};
ghost use Rattle.m4_etext.specs.BareRows.{KeptRows, HasRoomForLine, StandsForFirst, StandsForRows};
ghost use Rattle.m4_etext.specs.FormFaults.{IsFaultOfAllIn};

use crate::TextFault;
use crate::bare_rows::BareRows;
use crate::kind::Kind;
use crate::limits::MOST_COLS;
use crate::piece::take_lines;
use m4_eshape::esub;
use m4_field::Field;
use m4_model::NoMemory;
use m4_mzd::Rect;
use m4_mzed::Mzed;
use std::alloc::Global;
use std::marker::Model;

/// A row of the most columns and one more, and how many digits of the first line it holds.
#[derive(Drop)]
pub struct FirstLine {
    digits: Mzed,
    cols: u32,
}

impl Model for FirstLine {
    ghost use Rattle.std.specs.Prelude.{◌≤◌};
    ghost use Rattle.m4_model.specs.Text.{most_cols};
    ghost use Rattle.m4_etext.specs.BareRows.{KeptRows, HasRoomForLine};

    ghost Value = { KeptRows };

    ghost view = { λ l. record { matrix = l.digits; row_next = 0; place_next = l.cols } };

    ghost invariant = { λ l. (l.cols ≤ most_cols) × HasRoomForLine l.digits };
}

impl FirstLine {
    /// No digits yet.
    pub fn new(alloc: Global) -> Result<FirstLine, NoMemory>
        ensures { IfOk result (λ line. StandsForFirst line []) }
    {
        Ok(FirstLine {
            digits: Mzed::zeros(alloc, Field::gf2(), 1, MOST_COLS + 1)?,
            cols: 0,
        })
    }

    /// Feeds the next bytes. Where the line ends among them, the lines that they make are answered. A fault other than `NoMemory`
    /// is that of every file that begins with the bytes fed so far.
    pub fn feed(&mut self, alloc: Global, piece: &[u8]) -> Result<Option<BareRows>, TextFault>
        ensures more { IfOk result (λ ended. MatchOption ended
            ((bytes : List ℕ) → StandsForFirst self.old bytes → StandsForFirst self.new (bytes ++ piece.now))
            (λ rows. (bytes : List ℕ) → StandsForFirst self.old bytes → StandsForRows rows (bytes ++ piece.now))) }
        ensures err { IfErr result (λ fault. (bytes : List ℕ) → StandsForFirst self.old bytes → IsFaultOfAllIn Bare (bytes ++ piece.now) fault) }
    {
        let taken = take_lines(piece, &mut self.digits, Kind::OfBits, 0, self.cols);
        if taken.row > 0 || taken.place > MOST_COLS {
            return Err(TextFault::Limit);
        }
        self.cols = taken.place;
        if taken.len == piece.len() {
            return Ok(None);
        }
        if piece[taken.len] != b'\n' {
            return Err(TextFault::Bad {
                at: u64::from(taken.place),
            });
        }
        let mut rows = self.ended(alloc)?;
        rows.feed(alloc, &piece[taken.len + 1..])?;
        Ok(Some(rows))
    }

    /// The lines, where the first one ends here.
    fn ended(&self, alloc: Global) -> Result<BareRows, NoMemory>
        ensures { IfOk result (λ rows. rows ≡ record { matrix = cut self.now.matrix 0 0 1 self.now.place_next; row_next = 1; place_next = 0 }) }
    {
        let rect = Rect {
            r0: 0,
            c0: 0,
            r1: 1,
            c1: self.cols,
        };
        let _rows = self.digits.rows();
        Ok(BareRows::of_line(esub(alloc, &self.digits.all(), rect)?))
    }

    /// How many bytes were fed.
    pub fn place(&self) -> u64
        ensures { result ≡ self.now.place_next }
    {
        u64::from(self.cols)
    }
}
