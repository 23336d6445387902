ghost use Rattle.std.specs.Prelude.{◌≡◌, ◌+◌, ◌-◌, ◌*◌, ◌/◌, ◌^◌, ◌≤◌, ℕ, bit_xor};
ghost use Rattle.m4_model.specs.Field.{sum_below, clmul};
ghost use Rattle.m4_karatsuba.specs.Counts.{karatsuba};

/// The product of two polynomials of two halves each comes of three products: that of the lower halves, that of the upper halves,
/// and that of the sums of both; and so does a sum of such products, as an entry of a product of matrices is.
pub fn law_halves()
    ensures { (h l : ℕ) (a b c d : ℕ → ℕ) →
        sum_below l (λ t. clmul (bit_xor (a t) (b t * 2 ^ h)) (bit_xor (c t) (d t * 2 ^ h)))
        ≡ bit_xor (sum_below l (λ t. clmul (a t) (c t)))
        (bit_xor
        (bit_xor (bit_xor (sum_below l (λ t. clmul (a t) (c t)) * 2 ^ h) (sum_below l (λ t. clmul (b t) (d t)) * 2 ^ h))
        (sum_below l (λ t. clmul (bit_xor (a t) (b t)) (bit_xor (c t) (d t))) * 2 ^ h))
        (sum_below l (λ t. clmul (b t) (d t)) * 2 ^ h * 2 ^ h)) }
{}

/// With from 2 to 16 coefficients a polynomial takes twice as many products of coefficients as one of the larger half, and as
/// many as one of the smaller half.
pub fn law_products()
    ensures { (e : ℕ) → 2 ≤ e → e ≤ 16 → karatsuba e ≡ 2 * karatsuba ((e + 1) / 2) + karatsuba (e - (e + 1) / 2) }
{}
