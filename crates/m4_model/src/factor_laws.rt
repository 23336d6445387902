ghost use Rattle.std.specs.Prelude.{◌≡◌, ℕ, ◌+◌, List};
ghost use Rattle.m4_model.specs.Matrix.{Matrix, IsMatrix, HasShape, product};
ghost use Rattle.m4_model.specs.Shapes.{beside, cut};
ghost use Rattle.m4_model.specs.Rank.{ArePivots, IsRank};
ghost use Rattle.m4_model.specs.Factors.{IsPle};
ghost use Rattle.m4_model.specs.Step.{reordered, upper_triangle, remaining, step_order, step_pivots, step_lower, step_echelon};

/// A matrix has at most one list of pivots and at most one rank, and a PLE tells both.
pub fn law_ple()
    ensures pivots { (A : Matrix) (p q : List ℕ) (r : ℕ) (L E : Matrix) → IsMatrix A → IsPle A p q r L E → ArePivots A q }
    ensures rank { (A : Matrix) (p q : List ℕ) (r : ℕ) (L E : Matrix) → IsMatrix A → IsPle A p q r L E → IsRank A r }
    ensures one_list { (A : Matrix) (p q : List ℕ) → ArePivots A p → ArePivots A q → p ≡ q }
    ensures one_rank { (A : Matrix) (r s : ℕ) → IsRank A r → IsRank A s → r ≡ s }
{}

/// The PLE of the left columns, the solve of the upper right by its triangle, and the PLE of what remains of the lower
/// right make a PLE of both halves.
pub fn law_ple_step()
    ensures step { (A1 A2 X : Matrix) (p1 q1 p2 q2 : List ℕ) (r1 r2 : ℕ) (L1 E1 L2 E2 : Matrix) →
        IsMatrix A1 → HasShape A1.field A1.rows A2.cols A2 → HasShape A1.field r1 A2.cols X →
        IsPle A1 p1 q1 r1 L1 E1 → product (upper_triangle r1 L1) X ≡ cut (reordered p1 A2) 0 0 r1 A2.cols →
        IsPle (remaining r1 L1 (reordered p1 A2) X) p2 q2 r2 L2 E2 →
        IsPle (beside A1 A2) (step_order r1 p1 p2) (step_pivots A1.cols q1 q2) (r1 + r2) (step_lower r1 L1 p2 L2) (step_echelon r1 E1 X E2) }
{}
