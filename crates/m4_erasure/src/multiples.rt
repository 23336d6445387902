//! All multiples of an element, in a table.

ghost use Rattle.std.specs.Prelude.{◌≡◌, ◌<◌, length, slice_index};
ghost use Rattle.m4_model.specs.Field.{mul, sum_below};
ghost use Rattle.m4_erasure.specs.Shards.{gf256, power};
ghost use Rattle.m4_erasure.specs.Multiples.{AreMultiples};

use crate::field::field;
use m4_field::Field;

/// The multiples of an element by all elements.
#[derive(Clone, Copy)]
pub(crate) struct Multiples {
    factor: u8,
    table: [u8; 256],
    ghost products: { AreMultiples factor table },
}

impl Multiples {
    /// Those of this element.
    pub(crate) fn new(factor: u8) -> Multiples
        ensures { result.factor ≡ factor }
    {
        let mut table = [0; 256];
        fill(factor, &mut table);
        Multiples { factor, table }
    }

    /// The multiple by an element.
    #[inline]
    pub(crate) fn by(&self, a: u8) -> u8
        ensures { result ≡ mul gf256 self.now.factor a }
    {
        self.table[a as usize]
    }

    /// The value, at the factor, of the polynomial whose coefficients are these bytes, by Horner's rule.
    #[inline]
    pub(crate) fn value_of(&self, stripe: &[u8]) -> u8
        ensures { result ≡ sum_below (length stripe.now) (λ i. mul gf256 (slice_index stripe.now i) (power self.now.factor i)) }
    {
        let mut value = 0;
        for i in (0..stripe.len()).rev() {
            value = stripe[i] ^ self.by(value);
        }
        value
    }
}

/// Writes the multiple by each element to its place.
fn fill(factor: u8, table: &mut [u8])
    requires { length table.old ≡ 256 }
    ensures { AreMultiples factor table.new }
{
    let field = field();
    for a in 0..table.len() {
        table[a] = field.mul(u32::from(factor), a as u32) as u8;
    }
}
