//! What the words of a command line ask for.

ghost use Rattle.std.specs.Option.{ForSome};
ghost use Rattle.m4_words.specs.Small.{IsCutoff, IsSmall};

use arrayvec::ArrayVec;
use m4_outcome::{Choices, Command};

/// What the words ask for: a command, the names of its files in order, and what the options choose.
#[derive(Debug, Drop)]
pub struct Job<'a> {
    pub command: Command,
    pub files: ArrayVec<&'a str, 3>,
    /// Where `k` or `tables` is given, it lies between 1 and 8, and where `cutoff` is, between 64 and 65,536.
    pub choices: Choices,
    ghost small_k: { ForSome choices.k IsSmall },
    ghost few_tables: { ForSome choices.tables IsSmall },
    ghost within: { ForSome choices.cutoff IsCutoff },
}
