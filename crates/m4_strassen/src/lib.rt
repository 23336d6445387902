//! Products by halves over any engine: Winograd's form of Strassen's algorithm, whose sums and products of quarters are
//! worked in memory that is reserved once.
//!
//! Sources: V. Strassen, "Gaussian elimination is not optimal", Numerische Mathematik 13 (1969); S. Winograd, "On
//! multiplication of 2 x 2 matrices", Linear Algebra and its Applications 4 (1971).
#![tactic(auto)]

mod halves;
mod level;
mod recursion;
mod schedule;
mod strassen;
mod sums;
#[cfg(test)]
mod tests;

pub use strassen::Strassen;
