//! Systems of equations with the same left side.

ghost use Rattle.std.specs.Prelude.{◌≡◌, IfOk, All};
ghost use Rattle.m4_model.specs.Field.{gf2};
ghost use Rattle.m4_examples.specs.Solved.{AreSolved, IsSideOf};

use m4_dense::{How, Mzed, NoMemory, solution};
use std::alloc::Global;

/// The solution X of A X = B for each B of a list, or that there is none, in the list's order. The right sides are as high as
/// A.
pub fn solve_each(alloc: Global, a: &Mzed, sides: &[Mzed]) -> Result<Vec<Option<Mzed>>, NoMemory>
    requires over_gf2 { a.now.field ≡ gf2 }
    requires sides { All (IsSideOf a.now) sides.now }
    ensures { IfOk result (λ answers. AreSolved a.now sides.now answers.items) }
{
    let mut answers = Vec::new(alloc);
    for side in sides {
        answers.push(solution(alloc, How::default(), a, side)?)?;
    }
    Ok(answers)
}
