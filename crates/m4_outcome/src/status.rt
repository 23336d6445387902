ghost use Rattle.std.specs.Prelude.{◌≡◌};
ghost use Rattle.m4_outcome.specs.Outcome.{code_of};

/// How a run of the program ends.
#[derive(Clone, Copy, Debug, PartialEq, Eq)]
pub enum Status {
    /// The answer was written.
    Done,
    /// The answer `singular` or `no solution` was written.
    No,
    /// The word of this number, counted from 1, is not understood.
    Words(u64),
    /// The text of this operand, counted from 1, is refused at this byte, counted from 0.
    Text { operand: u64, at: u64 },
    /// The operands were read, and their shapes do not fit.
    Shape,
    /// A text or a result passes a limit.
    Limit,
    /// A file could not be read.
    Read,
    /// The answer could not be written.
    Write,
    /// Memory was wanting.
    Memory,
}

impl Status {
    /// The exit code of the process, from 0 to 8.
    pub fn code(&self) -> u8
        ensures { result ≡ code_of self.now }
    {
        match self {
            Status::Done => 0,
            Status::No => 1,
            Status::Words(_) => 2,
            Status::Text { .. } => 3,
            Status::Shape => 4,
            Status::Limit => 5,
            Status::Read => 6,
            Status::Write => 7,
            Status::Memory => 8,
        }
    }
}
