//! Erasure coding over GF(2^8): a source of bytes cut into shards, of which any `k` with differing points give it back.
//!
//! The bytes of a stripe are the coefficients of a polynomial, and a shard has the values of all of them at its point: Reed
//! and Solomon, Polynomial codes over certain finite fields, Journal of the Society for Industrial and Applied Mathematics
//! 8, 1960.
#![tactic(auto)]

mod cut;
mod field;
mod laws;
mod multiples;
mod powers;
mod shard;
mod source;
mod sums;

pub use cut::shard_of;
pub use laws::{law_points, law_restored};
pub use shard::{MOST_SHARDS, MOST_SOURCE, Restored, Shard};
pub use source::restore;
