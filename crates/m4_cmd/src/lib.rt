//! The command line of m4lin: `run`, which does what its words ask for, and `exit_code`, which ends so.
#![tactic(auto)]

mod answer;
mod bounds;
mod compute;
mod exit;
mod factors_text;
mod fault_line;
mod files;
mod fits;
mod gate;
mod generated;
mod how;
mod line;
mod nonzeros;
mod operands;
mod output;
mod program;
mod systems;

pub use exit::exit_code;
pub use gate::{Gate, OpenGate};
pub use m4_io::{Failed, FileShelf, MemShelf, MemSink, Shelf, Sink, StreamSink};
pub use m4_outcome::Status;
pub use program::run;
