ghost use Rattle.std.specs.Prelude.{◌≡◌, ◌≤◌, ◌↔◌, IsTrue};
ghost use Rattle.m4_io.specs.Memory.{Tally, new_tally, called, faulted, IsToFail};

use std::marker::Model;

// The calls of a shelf or a sink in memory, numbered from 0, and which of them are to fail.
#[derive(Debug, Drop)]
pub(crate) struct Calls {
    fail: Vec<u64>,
    next: u64,
    faults: u64,
}

impl Model for Calls {
    ghost Value = { Tally };

    ghost view = { λ c. record { fail = c.fail.items; calls = c.next; faults = c.faults } };
}

impl Calls {
    pub(crate) fn new(fail: Vec<u64>) -> Calls
        ensures { result ≡ new_tally fail.items }
    {
        Calls {
            fail,
            next: 0,
            faults: 0,
        }
    }

    // Counts the call that comes, and says whether it is to fail.
    pub(crate) fn enter(&mut self) -> bool
        ensures failing { IsTrue result ↔ IsToFail self.old }
        ensures counted { self.new ≡ called self.old }
    {
        let call = self.next;
        self.next = call.saturating_add(1);
        self.fail.contains(&call)
    }

    // Counts a fault.
    pub(crate) fn fault(&mut self)
        ensures counted { self.new ≡ faulted self.old }
        ensures later { self.old.faults ≤ self.new.faults }
    {
        self.faults = self.faults.saturating_add(1);
    }
}
