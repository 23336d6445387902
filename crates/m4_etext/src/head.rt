//! A header line that is fed in pieces.

ghost use Rattle.std.specs.Prelude.{◌≡◌, ◌<◌, [], ◌∷◌, ◌++◌, length, MatchResult};
ghost use Rattle.m4_model.specs.Headed.{IsHeader};
ghost use Rattle.m4_etext.specs.Place.{GoesWrong, IsHeaderOf};
ghost use Rattle.m4_etext.specs.Parsed.{spelling_of};
ghost use Rattle.m4_etext.specs.Heads.{BeginsHeader, IsOpenedBy};

use crate::header::{Header, header_of};
use std::marker::Model;

/// The most bytes of a header line.
const MOST: usize = 44;

/// The bytes of a header line that isn't whole.
#[derive(Drop)]
pub struct Head {
    seen: [u8; MOST],
    len: usize,
}

/// What a piece makes of a header line.
#[derive(Clone, Copy)]
pub enum Parsed {
    /// It isn't whole yet.
    Short,
    /// It is whole, and ends before this place of the piece.
    Whole { header: Header, end: usize },
    /// It goes wrong at this place.
    Wrong { at: usize },
}

impl Model for Head {
    ghost use Rattle.std.specs.Prelude.{ℕ, ◌≤◌, List, take};

    ghost Value = { List ℕ };

    ghost view = { λ h. take h.len h.seen };

    ghost invariant = { λ h. h.len ≤ 44 };
}

impl Head {
    /// No bytes.
    pub fn new() -> Head
        ensures none { result ≡ [] }
        ensures begins { BeginsHeader result }
    {
        Head {
            seen: [0; MOST],
            len: 0,
        }
    }

    /// Takes bytes of the piece, up to the end of the header line.
    pub fn feed(&mut self, piece: &[u8]) -> Parsed
        requires { BeginsHeader self.old }
        ensures { IsOpenedBy self.old self.new piece.now result }
    {
        for (place, byte) in piece.iter().enumerate() {
            self.push(*byte);
            match self.header() {
                Ok(header) => {
                    return Parsed::Whole {
                        header,
                        end: place + 1,
                    };
                }
                Err(at) => {
                    if at < self.len {
                        return Parsed::Wrong { at };
                    }
                }
            }
        }
        Parsed::Short
    }

    /// How many bytes there are.
    pub fn len(&self) -> usize
        ensures { result ≡ length self.now }
    {
        self.len
    }

    /// One byte more.
    fn push(&mut self, byte: u8)
        requires { length self.old < 44 }
        ensures { self.new ≡ self.old ++ byte ∷ [] }
    {
        self.seen[self.len] = byte;
        self.len += 1;
    }

    /// The header line with which the bytes begin, or where they go wrong in it.
    fn header(&self) -> Result<Header, usize>
        ensures { MatchResult result (λ header. IsHeaderOf self.now (spelling_of header.opening) header.rows header.cols header.len)
            (GoesWrong IsHeader self.now) }
    {
        header_of(&self.seen[..self.len])
    }
}
