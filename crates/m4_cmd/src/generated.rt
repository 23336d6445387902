//! Generated matrices: that of a command, and what a trial tells of it.

ghost use Rattle.std.specs.Prelude.{◌≡◌, IfOk, []};
ghost use Rattle.m4_model.specs.Field.{IsField, width_of};
ghost use Rattle.m4_model.specs.Text.{IsWithinLimits};
ghost use Rattle.m4_field.specs.Fields.{the_field};
ghost use Rattle.m4_outcome.specs.Outcome.{IsAnswer};
ghost use Rattle.m4_outcome.specs.Seeds.{field_of_seeded, seeded_matrix};
ghost use Rattle.m4_outcome.specs.declared.command.Command.TheVariants.{Trial};
ghost use Rattle.m4_cmd.specs.Answer.{answer_told};

use crate::answer::Answer;
use crate::nonzeros::nonzeros;
use m4_dense::{Field, How, Mzed, NoMemory, pivot_form};
use m4_gen::generate;
use m4_outcome::Seeded;
use std::alloc::Global;

/// The field of a generated matrix.
pub(crate) fn field_of(seeded: Seeded) -> Field
    requires { IsField (field_of_seeded seeded) }
    ensures { the_field result ≡ field_of_seeded seeded }
{
    match Field::new(seeded.degree, seeded.poly) {
        Ok(field) => field,
        Err(_) => Field::gf2(),
    }
}

/// The matrix that a seed generates.
pub(crate) fn matrix_of(alloc: Global, seeded: Seeded) -> Result<Mzed, NoMemory>
    requires field { IsField (field_of_seeded seeded) }
    requires bounds { IsWithinLimits (width_of seeded.degree) seeded.rows seeded.cols }
    ensures { IfOk result (λ m. m ≡ seeded_matrix seeded) }
{
    let field = field_of(seeded);
    generate(alloc, field, seeded.rows, seeded.cols, seeded.seed)
}

/// What a trial tells of the matrix that a seed generates: its rank, and how many entries of its reduced form aren't zero.
pub(crate) fn trial_of(alloc: Global, how: How, seeded: Seeded) -> Result<Answer, NoMemory>
    requires field { IsField (field_of_seeded seeded) }
    requires bounds { IsWithinLimits (width_of seeded.degree) seeded.rows seeded.cols }
    ensures { IfOk result (λ answer. IsAnswer (Trial seeded) [] (answer_told answer)) }
{
    let matrix = matrix_of(alloc, seeded)?;
    let form = pivot_form(alloc, how, &matrix)?;
    Ok(Answer::Trial {
        rank: form.pivots.len() as u32,
        nonzeros: nonzeros(&form.matrix),
    })
}
