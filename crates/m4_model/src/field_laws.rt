ghost use Rattle.std.specs.Prelude.{◌≡◌, ◌≢◌, ℕ, bit_xor};
ghost use Rattle.m4_model.specs.Field.{Field, IsField, IsElement, mul};

/// The elements of every field of the definition are a field: their product is commutative, associative and
/// distributive over the sum, has the unit 1, and each element but 0 has an inverse.
pub fn law_field()
    ensures closed { (F : Field) (a b : ℕ) → IsField F → IsElement F a → IsElement F b → IsElement F (mul F a b) }
    ensures commutative { (F : Field) (a b : ℕ) → IsField F → mul F a b ≡ mul F b a }
    ensures associative { (F : Field) (a b c : ℕ) → IsField F → mul F (mul F a b) c ≡ mul F a (mul F b c) }
    ensures distributive { (F : Field) (a b c : ℕ) → IsField F → mul F a (bit_xor b c) ≡ bit_xor (mul F a b) (mul F a c) }
    ensures unit { (F : Field) (a : ℕ) → IsField F → IsElement F a → mul F 1 a ≡ a }
    ensures inverse { (F : Field) (a : ℕ) → IsField F → IsElement F a → a ≢ 0 →
        ((b : ℕ) × IsElement F b × (mul F a b ≡ 1)) }
{}
