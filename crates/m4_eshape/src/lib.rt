//! Sums and copies over every field: matrices added, turned, put over and beside each other, and cut out at any column.
#![tactic(auto)]

mod join;
mod part;
mod sum;
#[cfg(test)]
mod tests;
mod turn;

pub use join::{eaugment, estack};
pub use part::esub;
pub use sum::eadd_into;
pub use turn::etranspose;
