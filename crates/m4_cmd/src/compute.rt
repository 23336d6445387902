//! The answer of a command to operands that fit it.

ghost use Rattle.std.specs.Prelude.{◌≡◌, IfOk, IfErr, [], ◌∷◌};
ghost use Rattle.m4_outcome.specs.Outcome.{Fits, InKnownBounds, HasAnswer, ShareField};
ghost use Rattle.m4_outcome.specs.Seeds.{HasField};
ghost use Rattle.m4_cmd.specs.Answer.{answer_told};
ghost use Rattle.m4_cmd.specs.Steps.{AnswerFails};

use crate::answer::{Answer, AnswerFault};
use crate::generated::{matrix_of, trial_of};
use crate::systems::{basis_of, inverse_of, solution_of};
use m4_dense::{
    How, Mzd, Mzed, Rect, add_into, add_product, augment, ple, pluq, product, rank, rectangle,
    reduced_form, stack, transpose,
};
use m4_outcome::Command;
use std::alloc::Global;
use std::mem;

/// The answer of a command to operands over one field, whose shapes fit it, and for which the answer's shape, where these tell
/// it, is within the limits. The first operand is taken.
pub(crate) fn compute(
    alloc: Global,
    command: Command,
    how: How,
    operands: &mut [Mzed],
) -> Result<Answer, AnswerFault>
    requires field { HasField command }
    requires shared { ShareField operands.old }
    requires fits { Fits command operands.old }
    requires bounds { InKnownBounds command operands.old }
    ensures good { IfOk result (λ answer. HasAnswer command operands.old (answer_told answer)) }
    ensures fails { IfErr result (AnswerFails command operands.old) }
{
    match operands.split_first_mut() {
        Some((first, others)) => of_some(alloc, command, how, first, others),
        None => of_none(alloc, command, how),
    }
}

/// The answer of a command that has no operands.
fn of_none(alloc: Global, command: Command, how: How) -> Result<Answer, AnswerFault>
    requires field { HasField command }
    requires fits { Fits command [] }
    requires bounds { InKnownBounds command [] }
    ensures good { IfOk result (λ answer. HasAnswer command [] (answer_told answer)) }
    ensures fails { IfErr result (AnswerFails command []) }
{
    match command {
        Command::Make(seeded) => Ok(Answer::Matrix(matrix_of(alloc, seeded)?)),
        Command::Trial(seeded) => Ok(trial_of(alloc, how, seeded)?),
        _ => unreachable!(),
    }
}

/// The answer of a command to a first operand, which is taken, and to others.
fn of_some(
    alloc: Global,
    command: Command,
    how: How,
    first: &mut Mzed,
    others: &[Mzed],
) -> Result<Answer, AnswerFault>
    requires shared { ShareField (first.old ∷ others.now) }
    requires fits { Fits command (first.old ∷ others.now) }
    requires bounds { InKnownBounds command (first.old ∷ others.now) }
    ensures good { IfOk result (λ answer. HasAnswer command (first.old ∷ others.now) (answer_told answer)) }
    ensures fails { IfErr result (AnswerFails command (first.old ∷ others.now)) }
{
    match (command, others) {
        (command, []) => of_one(alloc, command, how, first),
        (command, [b]) => of_two(alloc, command, how, first, b),
        (Command::Addmul { row, col }, [a, b]) => {
            add_product(alloc, how, first, (row, col), a, b)?;
            Ok(Answer::Matrix(taken(alloc, first)))
        }
        _ => unreachable!(),
    }
}

/// The matrix, in whose place an empty one is left.
fn taken(alloc: Global, matrix: &mut Mzed) -> Mzed
    ensures { result ≡ matrix.old }
{
    mem::replace(matrix, Mzed::of_bits(Mzd::empty(alloc)))
}

/// The answer of a command to one operand, which is taken.
fn of_one(alloc: Global, command: Command, how: How, a: &mut Mzed) -> Result<Answer, AnswerFault>
    requires fits { Fits command (a.old ∷ []) }
    requires bounds { InKnownBounds command (a.old ∷ []) }
    ensures good { IfOk result (λ answer. HasAnswer command (a.old ∷ []) (answer_told answer)) }
    ensures fails { IfErr result (AnswerFails command (a.old ∷ [])) }
{
    let _rows = a.rows();
    match command {
        Command::Transpose => Ok(Answer::Matrix(transpose(alloc, a)?)),
        Command::Sub {
            row,
            col,
            row_end,
            col_end,
        } => {
            let rect = Rect {
                r0: row,
                c0: col,
                r1: row_end,
                c1: col_end,
            };
            Ok(Answer::Matrix(rectangle(alloc, a, rect)?))
        }
        Command::Convert => Ok(Answer::Matrix(taken(alloc, a))),
        Command::Rank => Ok(Answer::Rank(rank(alloc, how, a)?)),
        Command::Echelon => Ok(Answer::Matrix(reduced_form(alloc, how, taken(alloc, a))?)),
        Command::Inverse => Ok(inverse_of(alloc, how, a)?),
        Command::Kernel => basis_of(alloc, how, a),
        Command::Ple => Ok(Answer::Ple(ple(alloc, how, taken(alloc, a))?)),
        Command::Pluq => Ok(Answer::Pluq(pluq(alloc, how, taken(alloc, a))?)),
        _ => unreachable!(),
    }
}

/// The answer of a command to two operands, of which the first is taken.
fn of_two(
    alloc: Global,
    command: Command,
    how: How,
    a: &mut Mzed,
    b: &Mzed,
) -> Result<Answer, AnswerFault>
    requires shared { ShareField (a.old ∷ b.now ∷ []) }
    requires fits { Fits command (a.old ∷ b.now ∷ []) }
    requires bounds { InKnownBounds command (a.old ∷ b.now ∷ []) }
    ensures good { IfOk result (λ answer. HasAnswer command (a.old ∷ b.now ∷ []) (answer_told answer)) }
    ensures fails { IfErr result (AnswerFails command (a.old ∷ b.now ∷ [])) }
{
    let _rows = a.rows();
    match command {
        Command::Mul => Ok(Answer::Matrix(product(alloc, how, a, b)?)),
        Command::Add => {
            add_into(a, b);
            Ok(Answer::Matrix(taken(alloc, a)))
        }
        Command::Stack => Ok(Answer::Matrix(stack(alloc, a, b)?)),
        Command::Augment => Ok(Answer::Matrix(augment(alloc, a, b)?)),
        Command::Solve => Ok(solution_of(alloc, how, a, b)?),
        _ => unreachable!(),
    }
}
