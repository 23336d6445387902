ghost use Rattle.std.specs.Prelude.{◌≡◌, ◌↔◌, ◌⊎◌, ◌+◌, ◌^◌, ◌≤◌, ◌<◌, min, drop, take, length, Some, None, IsTrue, IfSome, IfOk, OnOk, OnErr, IsErr, MatchOption, is_some, option_map};
ghost use Rattle.std.specs.Io.KnownBytes.{ReadConsumes};
ghost use Rattle.m4_model.specs.Stock.{bytes_of};
ghost use Rattle.m4_io.specs.Outside.{Rose, Lacks, Starts};
ghost use Rattle.m4_io.specs.Memory.{MemFiles, stock_of, file_bytes, bytes_from, IsPlaceIn, new_tally, called, faulted, IsToFail};

use crate::calls::Calls;
use crate::{Failed, Shelf};
use std::marker::Model;

/// A shelf of files in memory. Of two files with one name the first counts.
///
/// Its starts and reads are numbered together from 0, and those whose numbers are named in advance fail.
#[derive(Debug, Drop)]
pub struct MemShelf {
    files: Vec<(String, Vec<u8>)>,
    step: usize,
    place: Option<Place>,
    calls: Calls,
}

// The next byte to be read: the number of its file, and how many bytes of that file come before it.
#[derive(Clone, Copy, Debug)]
struct Place {
    file: usize,
    byte: usize,
}

impl Model for MemShelf {
    ghost Value = { MemFiles };

    ghost view = { λ s. record {
      stock = stock_of s.files.items;
      step = s.step;
      rest = option_map (bytes_from (stock_of s.files.items)) s.place;
      tally = s.calls;
    } };

    ghost invariant = { λ s. (0 < s.step) × IfSome s.place (IsPlaceIn (stock_of s.files.items)) };
}

impl MemShelf {
    /// A shelf of these files. A read gives at most `step` bytes, and the calls of these numbers fail.
    pub fn new(files: Vec<(String, Vec<u8>)>, step: usize, fail: Vec<u64>) -> MemShelf
        requires { 0 < step }
        ensures { result ≡ record {
          stock = stock_of files.items;
          step = step;
          rest = None;
          tally = new_tally fail.items;
        } }
    {
        MemShelf {
            files,
            step,
            place: None,
            calls: Calls::new(fail),
        }
    }
}

impl Shelf for MemShelf {
    ghost started = { λ s. is_some s.rest };

    ghost stock = { λ s. Some s.stock };

    ghost rest = { λ s. s.rest };

    ghost faults = { λ s. s.tally.faults };

    fn start(&mut self, name: &str) -> Result<(), Failed>
        ensures stock { self.new.stock ≡ self.old.stock }
        ensures started { OnOk result (IsTrue (is_some self.new.rest)) }
        ensures rest { OnOk result (Starts (Some self.old.stock) name.now self.new.rest) }
        ensures lacking { Lacks (Some self.old.stock) name.now → IsErr result }
        ensures later { self.old.tally.faults ≤ self.new.tally.faults }
        ensures cause { OnErr result (Rose self.old.tally.faults self.new.tally.faults
            ⊎ Lacks (Some self.old.stock) name.now) }
        ensures fails { IsErr result ↔ (IsToFail self.old.tally ⊎ (bytes_of self.old.stock name.now ≡ None)) }
        ensures ok { OnOk result (self.new ≡ record self.old {
          rest = bytes_of self.old.stock name.now;
          tally = called self.old.tally;
        }) }
        ensures planned { IsToFail self.old.tally
            → self.new ≡ record self.old { tally = faulted (called self.old.tally) } }
        ensures absent { (IsToFail self.old.tally → ⊥)
            → OnErr result (self.new ≡ record self.old { tally = called self.old.tally }) }
    {
        if self.calls.enter() {
            self.calls.fault();
            return Err(Failed);
        }
        match number_of(&self.files, name) {
            Some(file) => {
                self.place = Some(Place { file, byte: 0 });
                Ok(())
            }
            None => Err(Failed),
        }
    }

    fn read(&mut self, into: &mut [u8]) -> Result<usize, Failed>
        requires started { IsTrue (is_some self.old.rest) }
        requires room { 0 < length into.old }
        ensures later { self.old.tally.faults ≤ self.new.tally.faults }
        ensures fails { IsErr result ↔ IsToFail self.old.tally }
        ensures count { IfOk result (λ n. IfSome self.old.rest (λ left.
            n ≡ min (min self.old.step (length into.old)) (length left))) }
        ensures rest { ReadConsumes self.old.rest self.new.rest result into.new }
        ensures ok { OnOk result (self.new ≡ record self.old { rest = self.new.rest; tally = called self.old.tally }) }
        ensures err { OnErr result (self.new ≡ record self.old { tally = faulted (called self.old.tally) }) }
    {
        if self.calls.enter() {
            self.calls.fault();
            return Err(Failed);
        }
        let Some(place) = self.place else {
            unreachable!()
        };
        let left = left_at(&self.files, place);
        let count = self.step.min(into.len()).min(left.len());
        into[..count].copy_from_slice(&left[..count]);
        self.place = Some(Place {
            file: place.file,
            byte: place.byte + count,
        });
        Ok(count)
    }
}

// The number of the first file of this name.
fn number_of(files: &[(String, Vec<u8>)], name: &str) -> Option<usize>
    ensures { MatchOption result (bytes_of (stock_of files.now) name.now ≡ None)
        (λ n. (n < length (stock_of files.now)) × (bytes_of (stock_of files.now) name.now
        ≡ Some (file_bytes (stock_of files.now) n))) }
{
    for (number, file) in files.iter().enumerate() {
        if file.0.as_str() == name {
            return Some(number);
        }
    }
    None
}

// The bytes from this place to the end of its file.
fn left_at(files: &[(String, Vec<u8>)], place: Place) -> &[u8]
    requires { IsPlaceIn (stock_of files.now) place }
    ensures left { result.now ≡ bytes_from (stock_of files.now) place }
    ensures fits { place.byte + length result.now < 2 ^ 64 }
{
    &files[place.file].1[place.byte..]
}
