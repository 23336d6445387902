ghost use Rattle.std.specs.Prelude.{◌≡◌, ℕ, ◌+◌, ◌≤◌, IsTrue};
ghost use Rattle.m4_model.specs.Field.{Field};
ghost use Rattle.m4_model.specs.Matrix.{product};
ghost use Rattle.m4_model.specs.Recursion.{Quartered, HaveShape, is_cut, half, level_words, need, products, joined, winograd};

/// The words that a product by halves needs, and the products that it takes, don't fall when a side grows. What a level's
/// windows leave of the words that a product needs is what a product of its quarters needs.
pub fn law_need()
    ensures need { (m l n p q r cutoff : ℕ) → m ≤ p → l ≤ q → n ≤ r → need m l n cutoff ≤ need p q r cutoff }
    ensures products { (m l n p q r cutoff : ℕ) → m ≤ p → l ≤ q → n ≤ r → products m l n cutoff ≤ products p q r cutoff }
    ensures level { (m l n cutoff : ℕ) → IsTrue (is_cut m l n cutoff) →
        level_words (half m) (half l) (half n) + need (half m) (half l) (half n) cutoff ≡ need m l n cutoff }
{}

/// Seven products of quarters make the product of two matrices of four quarters each.
pub fn law_winograd()
    ensures quarters { (F : Field) (m l n : ℕ) (A B : Quartered) →
        HaveShape F m l A → HaveShape F l n B → product (joined A) (joined B) ≡ joined (winograd A B) }
{}
