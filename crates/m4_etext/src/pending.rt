//! Bytes on their way to a sink, which go there in large pieces.

ghost use Rattle.std.specs.Prelude.{◌≡◌, ◌+◌, ◌*◌, ◌/◌, ◌≤◌, ◌==◌, ◌||◌, [], ◌∷◌, ◌++◌, decimal, length, OnOk, IsTrue};
ghost use Rattle.m4_bits.specs.Digits.{digits_of};
ghost use Rattle.m4_io.specs.Outside.{WritesAll};
ghost use Rattle.m4_etext.specs.Pending.{Puts};
ghost use Rattle.m4_etext.specs.Digits.{fours_of, elements_of};

use crate::hex::{put_elements, put_fours};
use itoa::Buffer;
use m4_bits::put_digits;
use m4_io::{Failed, Sink, write_whole};
use std::marker::Model;

/// How many bytes go to the sink in one piece, at most.
const PIECE: usize = 32768;

/// How many bytes are put at once, at most.
const MOST: usize = 64;

/// Bytes that were put, and have not gone to the sink yet.
#[derive(Drop)]
pub struct Pending {
    bytes: [u8; PIECE],
    len: usize,
}

impl Model for Pending {
    ghost use Rattle.std.specs.Prelude.{ℕ, ◌≤◌, List, take};

    ghost Value = { List ℕ };

    ghost view = { λ p. take p.len p.bytes };

    ghost invariant = { λ p. p.len ≤ 32768 };
}

impl Pending {
    /// No bytes.
    pub fn new() -> Pending
        ensures { result ≡ [] }
    {
        Pending {
            bytes: [0; PIECE],
            len: 0,
        }
    }

    /// Puts these bytes behind the others, at most 64.
    pub fn put<O: Sink>(&mut self, bytes: &[u8], sink: &mut O) -> Result<(), Failed>
        requires { length bytes.now ≤ 64 }
        ensures { Puts (O.taken sink.old) (O.taken sink.new) (O.faults sink.old) (O.faults sink.new)
            self.old self.new result bytes.now }
    {
        self.make_room(sink)?;
        let end = self.len + bytes.len();
        self.bytes[self.len..end].copy_from_slice(bytes);
        self.len = end;
        Ok(())
    }

    /// Puts the digits of the lowest `count` bits of the word, at most 64.
    pub fn put_word<O: Sink>(&mut self, word: u64, count: usize, sink: &mut O) -> Result<(), Failed>
        requires { count ≤ 64 }
        ensures { Puts (O.taken sink.old) (O.taken sink.new) (O.faults sink.old) (O.faults sink.new)
            self.old self.new result (digits_of word count) }
    {
        self.make_room(sink)?;
        let end = self.len + count;
        put_digits(word, &mut self.bytes[self.len..end]);
        self.len = end;
        Ok(())
    }

    /// Puts the digits of the lowest `count` fours of bits of the word, at most 16.
    pub fn put_fours<O: Sink>(
        &mut self,
        word: u64,
        count: usize,
        sink: &mut O,
    ) -> Result<(), Failed>
        requires { count ≤ 16 }
        ensures { Puts (O.taken sink.old) (O.taken sink.new) (O.faults sink.old) (O.faults sink.new)
            self.old self.new result (fours_of word count) }
    {
        self.make_room(sink)?;
        let end = self.len + count;
        put_fours(word, &mut self.bytes[self.len..end]);
        self.len = end;
        Ok(())
    }

    /// Puts the first `len` digits of the elements of the word, of `width` bits and `count` digits each, at most 64.
    pub fn put_elements<O: Sink>(
        &mut self,
        word: u64,
        width: u32,
        count: u32,
        len: usize,
        sink: &mut O,
    ) -> Result<(), Failed>
        requires widths { IsTrue (width == 1 || width == 2 || width == 4 || width == 8 || width == 16) }
        requires some { 1 ≤ count }
        requires most { count ≤ 4 }
        requires room { len ≤ 64 / width * count }
        requires few { len ≤ 64 }
        ensures { Puts (O.taken sink.old) (O.taken sink.new) (O.faults sink.old) (O.faults sink.new)
            self.old self.new result (elements_of width count word len) }
    {
        self.make_room(sink)?;
        let end = self.len + len;
        put_elements(word, width, count, &mut self.bytes[self.len..end]);
        self.len = end;
        Ok(())
    }

    /// Puts the number in decimal, and the byte that ends it.
    pub fn put_number<O: Sink>(
        &mut self,
        number: u64,
        ending: u8,
        sink: &mut O,
    ) -> Result<(), Failed>
        ensures { Puts (O.taken sink.old) (O.taken sink.new) (O.faults sink.old) (O.faults sink.new)
            self.old self.new result (decimal number ++ ending ∷ []) }
    {
        let mut buffer = Buffer::new();
        self.put(buffer.format(number).as_bytes(), sink)?;
        self.put(&[ending], sink)
    }

    /// Puts the number in decimal, behind the byte before it.
    pub fn put_behind<O: Sink>(
        &mut self,
        before: u8,
        number: u32,
        sink: &mut O,
    ) -> Result<(), Failed>
        ensures { Puts (O.taken sink.old) (O.taken sink.new) (O.faults sink.old) (O.faults sink.new)
            self.old self.new result (before ∷ decimal number) }
    {
        let mut buffer = Buffer::new();
        self.put(&[before], sink)?;
        self.put(buffer.format(number).as_bytes(), sink)
    }

    /// Writes the bytes that wait.
    pub fn finish<O: Sink>(&self, sink: &mut O) -> Result<(), Failed>
        ensures { WritesAll (O.taken sink.old) (O.taken sink.new) (O.faults sink.old) (O.faults sink.new) result
            self.now }
    {
        write_whole(sink, &self.bytes[..self.len])
    }

    /// Makes room for the most bytes that are put at once: where there is less, all that wait go to the sink.
    fn make_room<O: Sink>(&mut self, sink: &mut O) -> Result<(), Failed>
        ensures room { OnOk result (length self.new + 64 ≤ 32768) }
        ensures waits { length self.old + 64 ≤ 32768 → self.new ≡ self.old }
        ensures moved { Puts (O.taken sink.old) (O.taken sink.new) (O.faults sink.old) (O.faults sink.new)
            self.old self.new result [] }
    {
        if self.len + MOST > PIECE {
            self.finish(sink)?;
            self.len = 0;
        }
        Ok(())
    }
}
