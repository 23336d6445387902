//! Whether the answer's shape is within the limits on results.

ghost use Rattle.std.specs.Prelude.{◌↔◌, ◌≤◌, IsTrue};
ghost use Rattle.m4_model.specs.Field.{width, width_of, IsField};
ghost use Rattle.m4_outcome.specs.Outcome.{InKnownBounds};
ghost use Rattle.m4_outcome.specs.Seeds.{HasField, field_of_seeded};
ghost use Rattle.m4_model.specs.Text.{IsWithinLimits};

use crate::generated::field_of;
use m4_dense::Mzed;
use m4_etext::within_limits;
use m4_outcome::{Command, Seeded};

/// Whether the shape of the command's answer is within the limits, where it is known from the command's numbers and the operands' shapes. That of a
/// kernel is known from the rank, and is looked at by itself.
pub(crate) fn in_known_bounds(command: Command, operands: &[Mzed]) -> bool
    requires field { HasField command }
    ensures { IsTrue result ↔ InKnownBounds command operands.now }
{
    match (command, operands) {
        (Command::Mul, [a, b]) => is_within_limits(a, a.rows(), b.cols()),
        (Command::Transpose, [a]) => is_within_limits(a, a.cols(), a.rows()),
        (Command::Stack, [a, b]) => is_within_limits(a, a.rows() + b.rows(), a.cols()),
        (Command::Augment, [a, b]) => is_within_limits(a, a.rows(), a.cols() + b.cols()),
        (Command::Solve, [a, b]) => is_within_limits(a, a.cols(), b.cols()),
        (Command::Ple | Command::Pluq, [a]) => is_within_limits(a, a.rows(), a.rows()),
        (Command::Make(seeded), []) => are_within_limits(seeded),
        (Command::Trial(seeded), []) => are_within_limits(seeded),
        _ => true,
    }
}

/// Whether the sizes of a generated matrix are within the limits.
fn are_within_limits(seeded: Seeded) -> bool
    requires { IsField (field_of_seeded seeded) }
    ensures { IsTrue result ↔ IsWithinLimits (width_of seeded.degree) seeded.rows seeded.cols }
{
    within_limits(field_of(seeded).width(), seeded.rows, seeded.cols)
}

/// Whether a matrix of these sizes over the field of another one is within the limits.
pub(crate) fn is_within_limits(over: &Mzed, rows: u32, cols: u32) -> bool
    ensures { IsTrue result ↔ IsWithinLimits (width over.now.field) rows cols }
{
    within_limits(over.field().width(), rows, cols)
}
