//! A rectangle of words in memory: rows of words that can be cut into parts, written at the same time, and joined again.
#![tactic(auto)]

mod area;
mod owned;
mod storage;
mod view;
mod words;

pub use owned::OwnedWords;
pub use storage::Storage;
pub use view::View;
pub use words::Words;

#[cfg(test)]
mod tests;
