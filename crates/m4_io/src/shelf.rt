ghost use Rattle.std.specs.Prelude.{◌≡◌, ℕ, ◌≤◌, ◌<◌, ◌⊎◌, Bool, IsTrue, List, length, Option, OnOk, OnErr, IfOk, IsErr};
ghost use Rattle.std.specs.Io.KnownBytes.{ReadConsumes};
ghost use Rattle.m4_model.specs.Stock.{Stock};
ghost use Rattle.m4_io.specs.Outside.{Rose, Lacks, Starts};

use crate::Failed;

/// Files that are read one after the other: a file is started by its name, and then read in pieces.
pub trait Shelf {
    // Whether a file is started.
    ghost started: { Self → Bool };

    // The files with their bytes, where they are told.
    ghost stock: { Self → Option Stock };

    // The bytes that are left of the started file, where they are told.
    ghost rest: { Self → Option (List ℕ) };

    // How often it has failed. It never falls.
    ghost faults: { Self → ℕ };

    /// Starts the file of this name, in place of the one that was started before.
    fn start(&mut self, name: &str) -> Result<(), Failed>
        ensures stock { stock self.new ≡ stock self.old }
        ensures started { OnOk result (IsTrue (started self.new)) }
        ensures rest { OnOk result (Starts (stock self.old) name.now (rest self.new)) }
        ensures lacking { Lacks (stock self.old) name.now → IsErr result }
        ensures later { faults self.old ≤ faults self.new }
        ensures kept { OnOk result (faults self.new ≡ faults self.old) }
        ensures cause { OnErr result (Rose (faults self.old) (faults self.new) ⊎ Lacks (stock self.old) name.now) };

    /// Puts the next bytes of the started file at the front of the slice, and answers how many: none only at
    /// the file's end.
    fn read(&mut self, into: &mut [u8]) -> Result<usize, Failed>
        requires started { IsTrue (started self.old) }
        requires room { 0 < length into.old }
        ensures stock { stock self.new ≡ stock self.old }
        ensures started { started self.new ≡ started self.old }
        ensures count { IfOk result (λ n. n ≤ length into.old) }
        ensures rest { ReadConsumes (rest self.old) (rest self.new) result into.new }
        ensures later { faults self.old ≤ faults self.new }
        ensures kept { OnOk result (faults self.new ≡ faults self.old) }
        ensures cause { OnErr result (Rose (faults self.old) (faults self.new)) };
}
