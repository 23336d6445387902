//! Engines that multiply over GF(2).
#![tactic(auto)]

mod blocks;
mod group;
mod index;
mod packed;
mod plain;
mod table;
#[cfg(test)]
mod tests;

pub use m4_gray::{MOST_K, MOST_TABLES};
pub use plain::Plain;
pub use table::Table;
