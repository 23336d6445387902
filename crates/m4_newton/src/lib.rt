//! Engines that multiply over any field: the trait of them, the one that goes row by row, each engine over GF(2) as one of
//! them, and the one that makes a product over GF(2) of each product.
#![tactic(auto)]

mod add_mul;
mod bits;
mod entries;
mod multiples;
mod newton;
mod nj_table;
mod plain;
mod strips;
#[cfg(test)]
mod tests;

pub use add_mul::EAddMul;
pub use bits::OverBits;
pub use newton::{MOST_STRIP, Newton};
pub use nj_table::NjTable;
pub use plain::EPlain;
