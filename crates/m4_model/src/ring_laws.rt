ghost use Rattle.std.specs.Prelude.{◌≡◌, ℕ};
ghost use Rattle.m4_model.specs.Field.{Field};
ghost use Rattle.m4_model.specs.Matrix.{Matrix, HasShape, added, product};

/// Products of matrices of fitting shapes are associative and distributive over the sum.
pub fn law_ring()
    ensures associative { (F : Field) (m k l n : ℕ) (A B C : Matrix) →
        HasShape F m k A → HasShape F k l B → HasShape F l n C → product (product A B) C ≡ product A (product B C) }
    ensures distributive { (F : Field) (m l n : ℕ) (A B C : Matrix) →
        HasShape F m l A → HasShape F l n B → HasShape F l n C → product A (added B C) ≡ added (product A B) (product A C) }
    ensures distributive_on_the_right { (F : Field) (m l n : ℕ) (A B C : Matrix) →
        HasShape F m l A → HasShape F m l B → HasShape F l n C → product (added A B) C ≡ added (product A C) (product B C) }
{}
