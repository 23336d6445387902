//! What is asked about a matrix over a field: its reduced form, its rank, its inverse, solutions and its kernel.
#![tactic(auto)]

mod answers;
mod basis;
mod clear;
mod factored;
mod first;
mod forms;
mod gather;
mod ones;
mod reduce;
mod room;
mod runs;
mod scale;
mod systems;
mod zeros;

pub use answers::{Inverse, Solution};
pub use basis::{kernel, kernel_of};
pub use forms::{ReducedForm, echelon, rank, reduced_form};
pub use systems::{invert, solve};
