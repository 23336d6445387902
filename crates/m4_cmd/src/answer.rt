//! What a command answers, or why it has no answer.

ghost use Rattle.std.specs.Prelude.{◌≡◌, IfOk, IfErr};
ghost use Rattle.m4_outcome.specs.Outcome.{HasAnswer, status_of};
ghost use Rattle.m4_outcome.specs.Seeds.{HasField};
ghost use Rattle.m4_cmd.specs.Answer.{answer_told};
ghost use Rattle.m4_cmd.specs.Steps.{AnswerFails, answer_status};

use crate::bounds::in_known_bounds;
use crate::compute::compute;
use crate::fits::{fits, share_field};
use m4_dense::{How, Mzed, PleFactors, PluqFactors};
use m4_model::NoMemory;
use m4_outcome::{Command, Status};
use std::alloc::Global;

/// What a command answers.
#[derive(Drop)]
pub(crate) enum Answer {
    /// One matrix.
    Matrix(Mzed),
    /// A rank.
    Rank(u32),
    /// The rank of a generated matrix, and how many entries of its reduced form aren't zero.
    Trial { rank: u32, nonzeros: u64 },
    /// A PLE.
    Ple(PleFactors),
    /// A PLUQ.
    Pluq(PluqFactors),
    /// There is no inverse.
    Singular,
    /// There is no solution.
    NoSolution,
}

impl Answer {
    /// The status of a run that writes the answer.
    pub(crate) fn status(&self) -> Status
        ensures { result ≡ status_of (answer_told self.now) }
    {
        match self {
            Answer::Singular | Answer::NoSolution => Status::No,
            _ => Status::Done,
        }
    }
}

/// Why a command has no answer.
#[derive(Clone, Copy, Debug, PartialEq, Eq)]
pub(crate) enum AnswerFault {
    /// The operands' shapes do not fit.
    Shape,
    /// The answer passes a limit.
    Limit,
    /// Memory was wanting.
    NoMemory,
}

impl AnswerFault {
    /// The status of a run that ends so.
    pub(crate) fn status(self) -> Status
        ensures { result ≡ answer_status self }
    {
        match self {
            AnswerFault::Shape => Status::Shape,
            AnswerFault::Limit => Status::Limit,
            AnswerFault::NoMemory => Status::Memory,
        }
    }
}

impl From<NoMemory> for AnswerFault {
    ghost use Rattle.m4_cmd.specs.declared.answer.AnswerFault.TheVariants.{NoMemory as Wanting};

    ghost from_gives = { λ _ fault. fault ≡ Wanting };

    fn from(_error: NoMemory) -> AnswerFault {
        AnswerFault::NoMemory
    }
}

/// The answer of a command to these operands: where they are over one field, their shapes fit, and the answer's is within the
/// limits. The first operand is taken.
pub(crate) fn answer_of(
    alloc: Global,
    command: Command,
    how: How,
    operands: &mut [Mzed],
) -> Result<Answer, AnswerFault>
    requires field { HasField command }
    ensures good { IfOk result (λ answer. HasAnswer command operands.old (answer_told answer)) }
    ensures fails { IfErr result (AnswerFails command operands.old) }
{
    if !share_field(operands) || !fits(command, operands) {
        return Err(AnswerFault::Shape);
    }
    if !in_known_bounds(command, operands) {
        return Err(AnswerFault::Limit);
    }
    compute(alloc, command, how, operands)
}
