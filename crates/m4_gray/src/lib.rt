//! Tables of the sums of a few rows, each sum made of a smaller one by one addition, as along a Gray code, and rows with
//! entries of several tables added to them in one pass: Albrecht, Bard and Hart, Efficient multiplication of dense matrices
//! over GF(2), ACM Transactions on Mathematical Software 37, 2010.
#![tactic(auto)]

/// The most rows whose sums a table has.
pub const MOST_K: u32 = 8;

/// The most tables of which entries are added to a row in one pass.
pub const MOST_TABLES: u32 = 8;

mod fill;
mod tables;
#[cfg(test)]
mod tests;

pub use tables::Tables;
