//! The matrix over GF(2) of the word engines, which owns its words, windows on it, and the trait of engines. Contracts
//! see a `Matrix`.
#![tactic(auto)]

/// The most rows, and the most columns, of a matrix in memory.
pub const MOST_SIDE: u32 = 1 << 24;

/// The most words of a scratch.
pub const MOST_WORDS: u64 = 1 << 43;

/// The most rows that are added to another in one pass.
pub const MOST_ADDED: usize = 8;

mod add_mul;
mod columns;
mod made_up;
mod mzd;
mod rect;
mod room;
mod scratch;
mod steps;
#[cfg(test)]
mod tests;
mod win;
mod win_mut;
mod word;

pub use add_mul::{AddMul, Shape, counted};
pub use made_up::mixed;
pub use mzd::{Around, Home, Mzd};
pub use rect::{Rect, RectFault};
pub use room::Room;
pub use scratch::Scratch;
pub use steps::Steps;
pub use win::Win;
pub use win_mut::WinMut;
