//! What a run of the program is asked for, and what it has to answer: commands, options, statuses, and the definitions over them.
//!
//! The definitions stand in `specs/`: `Words` tells the job that words ask for, and `Outcome` the status and the text that a job
//! has over its files.
#![tactic(auto)]

mod choices;
mod command;
mod status;

pub use choices::Choices;
pub use command::{Command, Kind, Seeded};
pub use status::Status;
