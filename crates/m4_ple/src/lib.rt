//! PLE factorization in place, column by column over any field and by words over GF(2), and the factors that it leaves.
#![tactic(auto)]

mod clear;
mod columns;
mod echelon;
mod factors;
mod plain;
#[cfg(test)]
mod tests;
mod words;

pub use clear::{ByRows, ClearBelow};
pub use columns::exchange_columns;
pub use echelon::keep_echelon;
pub use factors::{Factors, ple_factors, pluq_factors};
pub use plain::{ple_by_columns, ple_plain};
pub use words::ple_words;
