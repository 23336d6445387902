ghost use Rattle.std.specs.Prelude.{◌≡◌, ℕ};
ghost use Rattle.m4_model.specs.Matrix.{Matrix, IsMatrix};
ghost use Rattle.m4_model.specs.Forms.{IsReduced, IsInverse, Singular, IsSolution, NoSolution, IsKernel};

/// A matrix has at most one reduced form.
pub fn law_reduced()
    ensures one { (R S A : Matrix) → IsMatrix A → IsReduced R A → IsReduced S A → R ≡ S }
{}

/// A matrix has at most one inverse, and none where it is singular.
pub fn law_inverse()
    ensures one { (X Y A : Matrix) → IsMatrix A → IsInverse X A → IsInverse Y A → X ≡ Y }
    ensures none { (X A : Matrix) → IsMatrix A → IsInverse X A → Singular A → ⊥ }
{}

/// Equations have at most one solution whose rows at the free columns are zero, and none where nothing solves them.
pub fn law_solution()
    ensures one { (X Y A B : Matrix) → IsMatrix A → IsSolution X A B → IsSolution Y A B → X ≡ Y }
    ensures none { (X A B : Matrix) → IsMatrix A → IsSolution X A B → NoSolution A B → ⊥ }
{}

/// A matrix has at most one kernel basis that is the identity at its free columns.
pub fn law_kernel()
    ensures one { (K M A : Matrix) → IsMatrix A → IsKernel K A → IsKernel M A → K ≡ M }
{}
