//! The fields GF(2) and GF(2^e) of degree 2 to 16: their elements, and a table of inverses.
#![tactic(auto)]

mod division;
mod field;
mod tables;
#[cfg(test)]
mod tests;

pub use field::{Field, FieldFault};
pub use tables::FieldTables;
