//! Triangular solves over any field: a window becomes the solution of an equation with a triangle on its left or on its right.
//!
//! The triangle is the part of a square window below or above its diagonal. Its diagonal counts as ones, and neither that
//! nor what lies on the other side is read. Each solve halves the triangle where a word begins, solves with one half, gives
//! the product with the corner between them to an engine, and solves with the other half; a triangle whose side is at most
//! the cutoff is solved row by row, in whole words. On the left a triangle over an extension field is halved down to 16
//! rows, since a multiple of a row costs several times its sum. No call takes memory.
//!
//! Source: M. Albrecht, G. Bard, C. Pernet, "Efficient dense Gaussian elimination over the field with two elements" (2011),
//! the section on triangular solves.
#![tactic(auto)]

mod by_rows;
mod left;
mod parts;
mod right;
mod rows_of_left;
mod rows_of_right;
mod side;
#[cfg(test)]
mod tests;

pub use left::{solve_lower_left, solve_upper_left};
pub use parts::half;
pub use right::{solve_lower_right, solve_upper_right};
