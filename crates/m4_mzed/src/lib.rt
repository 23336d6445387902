//! The one matrix over every field, which packs its elements into bits, and windows on it. Contracts see a `Matrix`.
//!
//! Element `j` of a row stands in the bits from `j` times the field's width on. GF(2) is the field of width 1, so that a
//! matrix over GF(2) is the matrix of its bits. The bits of a place that an element doesn't use are zero always.
#![tactic(auto)]

mod mzed;
mod row;
#[cfg(test)]
mod tests;
mod win;
mod win_mut;
mod word;

pub use mzed::Mzed;
pub use win::EWin;
pub use win_mut::EWinMut;
pub use word::mul_word;
