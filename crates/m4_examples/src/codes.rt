//! Linear codes: the checks that their words meet.

ghost use Rattle.std.specs.Prelude.{◌≡◌, ◌↔◌, IsTrue, IfOk};
ghost use Rattle.m4_model.specs.Field.{gf2};
ghost use Rattle.m4_model.specs.Forms.{IsKernel};
ghost use Rattle.m4_model.specs.Matrix.{product, zero_matrix};
ghost use Rattle.m4_model.specs.Rank.{IsRank};
ghost use Rattle.m4_model.specs.Shapes.{transposed};

use m4_dense::{How, Mzed, NoMemory, kernel, rank};
use std::alloc::Global;

/// Whether checks, a row each, are independent: as many as their rank.
pub fn are_independent(alloc: Global, checks: &Mzed) -> Result<bool, NoMemory>
    requires { checks.now.field ≡ gf2 }
    ensures { IfOk result (λ yes. IsTrue yes ↔ IsRank checks.now checks.now.rows) }
{
    Ok(rank(alloc, How::default(), checks)? == checks.rows())
}

/// The parity checks of the code whose words are the sums of the generator's rows: a basis of what is zero on each word.
pub fn parity_checks(alloc: Global, generator: &Mzed) -> Result<Mzed, NoMemory>
    requires { generator.now.field ≡ gf2 }
    ensures basis { IfOk result (λ checks. IsKernel checks generator.now) }
    ensures zero { IfOk result (λ checks. product generator.now (transposed checks) ≡ zero_matrix gf2 generator.now.rows checks.rows) }
{
    kernel(alloc, How::default(), generator)
}
