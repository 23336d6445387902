//! The words of a command line, and the job that they ask for.
#![tactic(auto)]

mod command;
mod field;
mod job;
mod number;
mod options;
mod told;
mod words;

pub use job::Job;
pub use words::{WordFault, job_of};
