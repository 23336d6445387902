ghost use Rattle.std.specs.Prelude.{◌≡◌, ◌↔◌, ◌⊎◌, ◌+◌, ◌-◌, ◌≤◌, ◌<◌, min, [], ◌++◌, take, length, Some, IfOk, OnErr, IsErr, vec_len, vec_capacity};
ghost use Rattle.m4_io.specs.Memory.{MemBytes, new_tally, called, faulted, IsToFail};

use crate::calls::Calls;
use crate::{Failed, Sink};
use m4_model::NoMemory;
use std::alloc::Global;
use std::marker::Model;

/// A sink that takes bytes into memory, up to a room that is reserved at the beginning.
///
/// Its writes are numbered from 0, and those whose numbers are named in advance fail.
#[derive(Debug, Drop)]
pub struct MemSink {
    taken: Vec<u8>,
    room: usize,
    calls: Calls,
}

impl Model for MemSink {
    ghost Value = { MemBytes };

    ghost view = { λ s. record { taken = s.taken.items; room = s.room; tally = s.calls } };

    ghost invariant = { λ s. vec_len s.taken + s.room ≤ vec_capacity s.taken };
}

impl MemSink {
    /// An empty sink with room for so many bytes. The writes of these numbers fail.
    pub fn new(alloc: Global, room: usize, fail: Vec<u64>) -> Result<MemSink, NoMemory>
        ensures { IfOk result (λ sink. sink ≡ record { taken = []; room = room; tally = new_tally fail.items }) }
    {
        Ok(MemSink {
            taken: Vec::with_capacity(alloc, room)?,
            room,
            calls: Calls::new(fail),
        })
    }

    /// All bytes that were taken.
    pub fn taken(&self) -> &[u8]
        ensures { result.now ≡ self.now.taken }
    {
        self.taken.as_slice()
    }
}

impl Sink for MemSink {
    ghost taken = { λ s. Some s.taken };

    ghost faults = { λ s. s.tally.faults };

    fn write(&mut self, piece: &[u8]) -> Result<usize, Failed>
        requires { 0 < length piece.now }
        ensures later { self.old.tally.faults ≤ self.new.tally.faults }
        ensures fails { IsErr result ↔ (IsToFail self.old.tally ⊎ (self.old.room ≡ 0)) }
        ensures count { IfOk result (λ n. n ≡ min (length piece.now) self.old.room) }
        ensures ok { IfOk result (λ n. self.new ≡ record {
          taken = self.old.taken ++ take n piece.now;
          room = self.old.room - n;
          tally = called self.old.tally;
        }) }
        ensures err { OnErr result (self.new ≡ record self.old { tally = faulted (called self.old.tally) }) }
    {
        let planned = self.calls.enter();
        if planned || self.room == 0 {
            self.calls.fault();
            return Err(Failed);
        }
        let count = piece.len().min(self.room);
        self.taken.extend_from_slice(&piece[..count]).unwrap();
        self.room -= count;
        Ok(count)
    }
}
