//! A reader of headed text over any field, in both versions, that keeps no bytes of it behind the header line.

ghost use Rattle.std.specs.Prelude.{◌≡◌, ℕ, ◌≤◌, [], List, ◌++◌, length, Err, OnOk, IfOk, IfErr};
ghost use Rattle.m4_model.specs.Headed.{Reads};
ghost use Rattle.m4_etext.specs.Place.{IsHeaderOf};
ghost use Rattle.m4_etext.specs.Parsed.{spelling_of};
ghost use Rattle.m4_etext.specs.Pieces.{StandsForLines};
ghost use Rattle.m4_etext.specs.Standing.{IsFaultOf, IsFaultOfAll};
ghost use Rattle.m4_etext.specs.Reading.{StandsFor, HasMatrix, IsUntold, GoesOn};
ghost use Rattle.m4_etext.specs.declared.fault.TextFault.{TextFault};

use crate::base::base_of;
use crate::fed::Lines;
use crate::head::{Head, Parsed};
use crate::header::Header;
use crate::{TextFault, within_limits};
use m4_mzed::Mzed;
use std::alloc::Global;
use std::marker::Model;

/// What is kept of the bytes.
#[derive(Drop)]
pub enum State {
    AtHead(Head),
    AtLines(Lines),
    Told(TextFault),
}

/// A reader that is fed a headed text in pieces.
///
/// However the bytes are cut into pieces, they are read as the same matrix, or refused with the same fault. After a
/// fault every later call answers that fault. The memory of the matrix is taken when the header line is whole, and no more after
/// it.
#[derive(Drop)]
pub struct HeadedReader {
    alloc: Global,
    state: State,
}

impl Model for HeadedReader {
    ghost use Rattle.m4_etext.specs.Reading.{IsReady};
    ghost use Rattle.m4_etext.specs.declared.reader.State.{State};

    ghost Value = { State };

    ghost view = { λ r. r.state };

    ghost invariant = { λ r. IsReady r.state };
}

impl HeadedReader {
    /// A reader that was fed nothing.
    pub fn new(alloc: Global) -> HeadedReader
        ensures stands { StandsFor result [] }
        ensures quiet { IsUntold result }
    {
        HeadedReader {
            alloc,
            state: State::AtHead(Head::new()),
        }
    }

    /// Feeds the next bytes of the text.
    ///
    /// A fault other than `NoMemory` is that of every file that begins with the bytes fed so far.
    pub fn feed(&mut self, piece: &[u8]) -> Result<(), TextFault>
        ensures stands { (bytes : List ℕ) → StandsFor self.old bytes → StandsFor self.new (bytes ++ piece.now) }
        ensures err { IfErr result (λ fault. (bytes : List ℕ) → StandsFor self.old bytes → IsFaultOfAll (bytes ++ piece.now) fault) }
        ensures quiet { OnOk result (IsUntold self.new) }
        ensures ok { OnOk result ((bytes : List ℕ) → StandsFor self.new bytes → GoesOn self.new bytes) }
        ensures kept { IfErr result (λ fault. self.new ≡ State.Told fault) }
        ensures told { (fault : TextFault) → self.old ≡ State.Told fault → result ≡ Err fault }
        ensures memory { HasMatrix self.old → result ≡ Err TextFault.NoMemory → ⊥ }
    {
        match &mut self.state {
            State::Told(fault) => Err(*fault),
            State::AtLines(lines) => match lines.feed(piece) {
                Ok(()) => Ok(()),
                Err(at) => {
                    self.state = State::Told(TextFault::Bad { at });
                    Err(TextFault::Bad { at })
                }
            },
            State::AtHead(head) => match head.feed(piece) {
                Parsed::Short => Ok(()),
                Parsed::Wrong { at } => {
                    let fault = TextFault::Bad { at: at as u64 };
                    self.state = State::Told(fault);
                    Err(fault)
                }
                Parsed::Whole { header, end } => match begin(self.alloc, header, &piece[end..]) {
                    Ok(lines) => {
                        self.state = State::AtLines(lines);
                        Ok(())
                    }
                    Err(fault) => {
                        self.state = State::Told(fault);
                        Err(fault)
                    }
                },
            },
        }
    }

    /// The matrix that the bytes fed are read as, or their fault.
    pub fn finish(self) -> Result<Mzed, TextFault>
        ensures ok { IfOk result (λ m. (bytes : List ℕ) → StandsFor self bytes → Reads bytes m) }
        ensures err { IfErr result (λ fault. (bytes : List ℕ) → StandsFor self bytes → IsFaultOf bytes fault) }
        ensures told { (fault : TextFault) → self ≡ State.Told fault → result ≡ Err fault }
        ensures memory { HasMatrix self → result ≡ Err TextFault.NoMemory → ⊥ }
    {
        match self.state {
            State::Told(fault) => Err(fault),
            State::AtHead(head) => Err(TextFault::Bad {
                at: head.len() as u64,
            }),
            State::AtLines(lines) => match lines.finish() {
                Ok(m) => Ok(m),
                Err(at) => Err(TextFault::Bad { at }),
            },
        }
    }
}

/// The matrix of a header line, and what the bytes behind that make of it.
fn begin(alloc: Global, header: Header, rest: &[u8]) -> Result<Lines, TextFault>
    requires { header.len ≤ 44 }
    ensures ok { IfOk result (λ lines. (bytes : List ℕ) → IsHeaderOf bytes (spelling_of header.opening) header.rows header.cols header.len → header.len ≡ length bytes
        → StandsForLines lines (bytes ++ rest.now)) }
    ensures err { IfErr result (λ fault. (bytes : List ℕ) → IsHeaderOf bytes (spelling_of header.opening) header.rows header.cols header.len → header.len ≡ length bytes
        → IsFaultOfAll (bytes ++ rest.now) fault) }
{
    let base = base_of(header.opening)?;
    let _degree = base.field.e();
    if !within_limits(base.field.width(), header.rows, header.cols) {
        return Err(TextFault::Limit);
    }
    let m = Mzed::zeros(alloc, base.field, header.rows, header.cols)?;
    let mut lines = Lines::new(m, base.kind, header.len as u32);
    match lines.feed(rest) {
        Ok(()) => Ok(lines),
        Err(at) => Err(TextFault::Bad { at }),
    }
}
