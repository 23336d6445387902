//! The end of the program: its exit code, and what it says on standard error.

ghost use Rattle.m4_words.specs.Texts.{texts};
ghost use Rattle.m4_cmd.specs.Run.{Ends};

use crate::gate::Gate;
use crate::program::run;
use m4_io::{Shelf, Sink};
use std::alloc::Global;

/// Does what the words ask for, as `run` does, and answers the exit code: that of the status, from 0 to 8.
pub fn exit_code<S: Shelf, O: Sink, R: Sink, G: Gate + Sync>(
    alloc: Global,
    words: &[String],
    shelf: &mut S,
    out: &mut O,
    err: &mut R,
    gate: &G,
) -> u8
    // Some status with this code has its line on standard error, and is the one that the definition gives.
    ensures code { Ends (texts words.now) (S.stock shelf.old) (record {
      read_before = S.faults shelf.old;
      read_now = S.faults shelf.new;
      out = record {
        before = O.faults out.old;
        now = O.faults out.new;
        taken_before = O.taken out.old;
        taken_now = O.taken out.new;
      };
    }) (record {
      before = R.faults err.old;
      now = R.faults err.new;
      taken_before = R.taken err.old;
      taken_now = R.taken err.new;
    }) result }
{
    let status = run(alloc, words, shelf, out, err, gate);
    status.code()
}
