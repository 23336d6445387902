//! Matrices made of others: sums, copies, transposes, one over or beside another, and rectangles cut out.
#![tactic(auto)]

mod join;
mod part;
mod sum;
#[cfg(test)]
mod tests;
mod turn;

pub use join::{augment, stack};
pub use part::sub;
pub use sum::add_into;
pub use turn::transpose;
