//! Permutations of rows and columns, as lists and as exchanges in turn.
#![tactic(auto)]

mod exchanges;
mod list;
mod perm;
mod reorder;
#[cfg(test)]
mod tests;

pub use exchanges::{swap_rows_back, swap_rows_by};
pub use perm::Perm;
