//! PLE factorization over any field, in place, by halves of the columns and by strips of them.
//!
//! Source: M. Albrecht, G. Bard, C. Pernet, "Efficient dense Gaussian elimination over the field with two elements" (2011),
//! section 4; C.-P. Jeannerod, C. Pernet, A. Storjohann, "Rank-profile revealing Gaussian elimination and the CUP matrix
//! decomposition" (2013).
#![tactic(auto)]

mod base;
mod bring;
mod by_tables;
mod by_words;
mod exchanges;
mod halves;
mod in_place;
mod lower;
mod plain;
mod raise;
#[cfg(test)]
mod tests;

pub use base::Base;
pub use bring::{BY_ROWS, bring_up};
pub use by_tables::ByTables;
pub use by_words::ByWords;
pub use exchanges::swap_rows_by;
pub use halves::{Halving, ple_by_halves};
pub use in_place::pluq;
pub use plain::Plain;
