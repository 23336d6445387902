//! Generated matrices: the matrix of a shape that a seed stands for, the same one on every machine.
#![tactic(auto)]

mod mask;
mod matrix;
mod source;
#[cfg(test)]
mod tests;

pub use matrix::generate;
