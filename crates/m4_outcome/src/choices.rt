//! What the options choose.

ghost use Rattle.std.specs.Prelude.{◌≡◌};
ghost use Rattle.m4_outcome.specs.Words.{form_of_files, form_of_answer};

use m4_model::{Algo, Form};

/// What the options choose. An option that isn't given leaves the choice to the program.
#[derive(Clone, Copy, Debug, PartialEq, Eq)]
pub struct Choices {
    /// How products are computed.
    pub algo: Option<Algo>,
    /// The columns of a table.
    pub k: Option<u32>,
    /// How many tables are used at a time.
    pub tables: Option<u32>,
    /// The size up to which nothing is halved.
    pub cutoff: Option<u32>,
    /// The form of all files that are read.
    pub from: Option<Form>,
    /// The form of an answer that is one matrix.
    pub into: Option<Form>,
}

impl Choices {
    /// No option is given.
    pub const NONE: Choices = Choices {
        algo: None,
        k: None,
        tables: None,
        cutoff: None,
        from: None,
        into: None,
    };

    /// The form of all files that are read: headed text, if no other is chosen.
    pub fn form_of_files(&self) -> Form
        ensures { result ≡ form_of_files self.now }
    {
        self.from.unwrap_or(Form::Headed)
    }

    /// The form of an answer that is one matrix: headed text, if no other is chosen.
    pub fn form_of_answer(&self) -> Form
        ensures { result ≡ form_of_answer self.now }
    {
        self.into.unwrap_or(Form::Headed)
    }
}
