//! A reader of bare text that keeps no bytes of it.

ghost use Rattle.std.specs.Prelude.{◌≡◌, ℕ, ◌<◌, ◌≤◌, List, [], ◌++◌, length, Some, None, Err, OnOk, IfOk, IfErr};
ghost use Rattle.m4_model.specs.Headed.{Fault};
ghost use Rattle.m4_model.specs.FormTexts.{RefusalAs};
ghost use Rattle.m4_model.specs.Bare.{ReadsBare};
ghost use Rattle.m4_model.specs.declared.form.Form.TheVariants.{Bare};
ghost use Rattle.m4_etext.specs.BareReading.{StandsForBare, IsOpen, told_in};
ghost use Rattle.m4_etext.specs.FormFaults.{IsFaultIn, IsFaultOfAllIn};
ghost use Rattle.m4_etext.specs.declared.fault.TextFault.{TextFault};

use crate::TextFault;
use crate::bare_rows::BareRows;
use crate::first_line::FirstLine;
use crate::limits::MOST_BYTES;
use m4_field::Field;
use m4_mzed::Mzed;
use std::alloc::Global;
use std::marker::Model;

/// What is kept of the bytes.
#[derive(Drop)]
pub enum BareState {
    /// Nothing was fed.
    AtStart,
    AtFirst(FirstLine),
    AtRows(BareRows),
    Refused(TextFault),
}

/// A reader that is fed a bare text in pieces.
///
/// It keeps the matrix and a place in it. With the first byte it takes the memory of one row, and once the first line has ended
/// that of the rows, which are doubled whenever all of them are read.
#[derive(Drop)]
pub struct BareReader {
    alloc: Global,
    state: BareState,
}

impl Model for BareReader {
    ghost use Rattle.m4_etext.specs.declared.bare.BareState.{BareState};

    ghost Value = { BareState };

    ghost view = { λ r. r.state };
}

impl BareReader {
    /// A reader that was fed nothing. It takes no memory.
    pub fn new(alloc: Global) -> BareReader
        ensures stands { StandsForBare result [] }
        ensures quiet { told_in result ≡ None }
    {
        BareReader {
            alloc,
            state: BareState::AtStart,
        }
    }

    /// Feeds the next bytes of the text.
    pub fn feed(&mut self, piece: &[u8]) -> Result<(), TextFault>
        ensures stands { (bytes : List ℕ) → StandsForBare self.old bytes → StandsForBare self.new (bytes ++ piece.now) }
        ensures err { IfErr result (λ fault. (bytes : List ℕ) → StandsForBare self.old bytes → IsFaultOfAllIn Bare (bytes ++ piece.now) fault) }
        ensures quiet { OnOk result (told_in self.new ≡ None) }
        ensures ok { OnOk result ((bytes : List ℕ) → StandsForBare self.new bytes → IsOpen bytes) }
        ensures kept { IfErr result (λ fault. told_in self.new ≡ Some fault) }
        ensures told { (fault : TextFault) → told_in self.old ≡ Some fault → result ≡ Err fault }
    {
        match &mut self.state {
            BareState::Refused(fault) => Err(*fault),
            BareState::AtRows(rows) => match rows.feed(self.alloc, piece) {
                Ok(()) => Ok(()),
                Err(fault) => {
                    self.state = BareState::Refused(fault);
                    Err(fault)
                }
            },
            BareState::AtFirst(line) => match line.feed(self.alloc, piece) {
                Ok(None) => Ok(()),
                Ok(Some(rows)) => {
                    self.state = BareState::AtRows(rows);
                    Ok(())
                }
                Err(fault) => {
                    self.state = BareState::Refused(fault);
                    Err(fault)
                }
            },
            BareState::AtStart => match begun(self.alloc, piece) {
                Ok(state) => {
                    self.state = state;
                    Ok(())
                }
                Err(fault) => {
                    self.state = BareState::Refused(fault);
                    Err(fault)
                }
            },
        }
    }

    /// The matrix that the bytes fed are read as, or their fault.
    pub fn finish(self) -> Result<Mzed, TextFault>
        ensures ok { IfOk result (λ m. (bytes : List ℕ) → StandsForBare self bytes → ReadsBare bytes m) }
        ensures err { IfErr result (λ fault. (bytes : List ℕ) → StandsForBare self bytes → IsFaultIn Bare bytes fault) }
        ensures told { (fault : TextFault) → told_in self ≡ Some fault → result ≡ Err fault }
    {
        let alloc = self.alloc;
        match self.state {
            BareState::Refused(fault) => Err(fault),
            BareState::AtStart => Ok(Mzed::zeros(alloc, Field::gf2(), 0, 0)?),
            BareState::AtFirst(line) => Err(TextFault::Bad { at: line.place() }),
            BareState::AtRows(rows) => rows.finish(alloc),
        }
    }
}

/// What the first bytes make of a text.
fn begun(alloc: Global, piece: &[u8]) -> Result<BareState, TextFault>
    ensures quiet { IfOk result (λ state. told_in state ≡ None) }
    ensures stands { IfOk result (λ state. StandsForBare state piece.now) }
    ensures err { IfErr result (IsFaultOfAllIn Bare piece.now) }
{
    if piece.is_empty() {
        return Ok(BareState::AtStart);
    }
    let mut line = FirstLine::new(alloc)?;
    match line.feed(alloc, piece)? {
        None => Ok(BareState::AtFirst(line)),
        Some(rows) => Ok(BareState::AtRows(rows)),
    }
}
