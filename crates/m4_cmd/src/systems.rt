//! What systems of equations answer, where that may be nothing, or is known to be too large before it is made: `inverse`,
//! `solve` and `kernel`.

ghost use Rattle.std.specs.Prelude.{◌≡◌, IfOk, IfErr, [], ◌∷◌};
ghost use Rattle.m4_outcome.specs.Outcome.{HasAnswer, IsAnswer};
ghost use Rattle.m4_model.specs.Text.{IsWithinLimits};
ghost use Rattle.m4_outcome.specs.declared.command.Command.TheVariants.{Inverse, Solve, Kernel};
ghost use Rattle.m4_cmd.specs.Answer.{answer_told};
ghost use Rattle.m4_cmd.specs.Steps.{AnswerFails};

use crate::answer::{Answer, AnswerFault};
use crate::bounds::is_within_limits;
use m4_dense::{How, Mzed, NoMemory, inverse, kernel_of, pivot_form, solution};
use std::alloc::Global;

/// The inverse of a square matrix, or that there is none.
pub(crate) fn inverse_of(alloc: Global, how: How, a: &Mzed) -> Result<Answer, NoMemory>
    requires square { a.now.cols ≡ a.now.rows }
    ensures is { IfOk result (λ answer. IsAnswer Inverse (a.now ∷ []) (answer_told answer)) }
{
    match inverse(alloc, how, a)? {
        Some(inverse) => Ok(Answer::Matrix(inverse)),
        None => Ok(Answer::Singular),
    }
}

/// The solution X of A X = B, or that there is none.
pub(crate) fn solution_of(alloc: Global, how: How, a: &Mzed, b: &Mzed) -> Result<Answer, NoMemory>
    requires same_field { b.now.field ≡ a.now.field }
    requires rows { a.now.rows ≡ b.now.rows }
    ensures is { IfOk result (λ answer. IsAnswer Solve (a.now ∷ b.now ∷ []) (answer_told answer)) }
{
    match solution(alloc, how, a, b)? {
        Some(solution) => Ok(Answer::Matrix(solution)),
        None => Ok(Answer::NoSolution),
    }
}

/// The basis of the kernel of a matrix. Its limit is looked at before it is made: it has a row for each column that the rank
/// leaves.
pub(crate) fn basis_of(alloc: Global, how: How, a: &Mzed) -> Result<Answer, AnswerFault>
    ensures good { IfOk result (λ answer. HasAnswer Kernel (a.now ∷ []) (answer_told answer)) }
    ensures fails { IfErr result (AnswerFails Kernel (a.now ∷ [])) }
{
    let cols = a.cols();
    let form = pivot_form(alloc, how, a)?;
    if !is_within_limits(a, cols - form.pivots.len() as u32, cols) {
        return Err(AnswerFault::Limit);
    }
    Ok(Answer::Matrix(kernel_of(alloc, &form)?))
}
