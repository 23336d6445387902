//! Bit slices: a matrix over GF(2^e) as e matrices over GF(2), of which slice `v` has bit `v` of each element (Albrecht, "The
//! M4RIE library for dense linear algebra over small fields with even characteristic", 2012).
//!
//! The slices lie one below the other, as one matrix. Packed elements are taken apart and put together by whole words.
#![tactic(auto)]

mod join;
mod load;
mod owned;
#[cfg(test)]
mod tests;
mod word;

pub use join::add_slices;
pub use load::load_slices;
pub use owned::Slices;
pub use word::{gather, spread};
