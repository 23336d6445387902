//! A field, and the arithmetic of its elements.

ghost use Rattle.std.specs.Prelude.{◌≡◌, ◌≢◌, ◌^◌, ◌<◌, ◌≤◌, bit_xor};
ghost use Rattle.m4_model.specs.Field.{IsCarried};

use crate::division::{degree, divide, has_factor};

/// Why there is no such field.
#[derive(Clone, Copy, Debug, PartialEq, Eq)]
pub enum FieldFault {
    /// The degree is not from 2 to 16.
    BadDegree,
    /// The polynomial is not an irreducible polynomial of this degree.
    Reducible,
}

/// GF(2), or the field GF(2^e) of an irreducible polynomial of degree `e`, from 2 to 16.
///
/// An element is the number whose bit `i` is the coefficient of x^i, below `2^e`. GF(2) has the polynomial x.
#[derive(Clone, Copy)]
pub struct Field {
    pub(crate) degree: u32,
    pub(crate) poly: u32,
    ghost carried: { IsCarried (record { degree = degree; poly = poly }) },
}

impl Field {
    ghost use Rattle.m4_model.specs.Field.{gf2, mul, width};
    ghost use Rattle.m4_field.specs.Fields.{the_field, Gives};

    /// The field of this degree and polynomial, or why there is none. Whether the polynomial is irreducible is decided by
    /// trial division.
    pub fn new(e: u32, poly: u32) -> Result<Field, FieldFault>
        ensures { Gives e poly result }
    {
        if e < 2 || 16 < e {
            return Err(FieldFault::BadDegree);
        }
        if poly >> e != 1 || has_factor(poly, e) {
            return Err(FieldFault::Reducible);
        }
        Ok(Field { degree: e, poly })
    }

    /// GF(2).
    #[inline]
    pub fn gf2() -> Field
        ensures { the_field result ≡ gf2 }
    {
        Field { degree: 1, poly: 2 }
    }

    /// The degree.
    #[inline]
    pub fn e(&self) -> u32
        ensures degree { result ≡ (the_field self.now).degree }
        ensures field { IsCarried (the_field self.now) }
    {
        self.degree
    }

    /// The polynomial.
    #[inline]
    pub fn poly(&self) -> u32
        ensures poly { result ≡ (the_field self.now).poly }
        ensures field { IsCarried (the_field self.now) }
    {
        self.poly
    }

    /// The bits of the place of a packed element: the least of 1, 2, 4, 8 and 16 that holds the degree.
    #[inline]
    pub fn width(&self) -> u32
        ensures width { result ≡ width (the_field self.now) }
        ensures field { IsCarried (the_field self.now) }
    {
        if self.degree <= 1 {
            1
        } else if self.degree <= 2 {
            2
        } else if self.degree <= 4 {
            4
        } else if self.degree <= 8 {
            8
        } else {
            16
        }
    }

    /// The sum of two elements.
    #[inline]
    pub fn add(&self, a: u32, b: u32) -> u32
        requires first { a < 2 ^ (the_field self.now).degree }
        requires second { b < 2 ^ (the_field self.now).degree }
        ensures sum { result ≡ bit_xor a b }
        ensures element { result < 2 ^ (the_field self.now).degree }
    {
        a ^ b
    }

    /// x times an element.
    #[inline]
    pub fn times_x(&self, a: u32) -> u32
        requires { a < 2 ^ (the_field self.now).degree }
        ensures product { result ≡ mul (the_field self.now) 2 a }
        ensures element { result < 2 ^ (the_field self.now).degree }
    {
        let doubled = a << 1;
        if doubled >> self.degree == 0 {
            doubled
        } else {
            doubled ^ self.poly
        }
    }

    /// The product of two elements, by Horner's rule on the bits of the second, from the highest on.
    pub fn mul(&self, a: u32, b: u32) -> u32
        requires first { a < 2 ^ (the_field self.now).degree }
        requires second { b < 2 ^ (the_field self.now).degree }
        ensures product { result ≡ mul (the_field self.now) a b }
        ensures element { result < 2 ^ (the_field self.now).degree }
    {
        let mut product = 0;
        for i in (0..self.degree).rev() {
            product = self.times_x(product);
            if (b >> i) & 1 == 1 {
                product ^= a;
            }
        }
        product
    }

    /// The inverse of an element that isn't 0.
    ///
    /// The polynomial is divided by what is left of `a`, again and again: since it is 0 in the field, what the division
    /// leaves is the quotient's multiple of what was left before.
    pub fn inv(&self, a: u32) -> u32
        requires element { a < 2 ^ (the_field self.now).degree }
        requires some { a ≢ 0 }
        ensures inverse { mul (the_field self.now) a result ≡ 1 }
        ensures element { result < 2 ^ (the_field self.now).degree }
    {
        let mut rest = a;
        let mut factor = 1;
        while rest != 1 {
            let (quotient, next) = divide(self.poly, rest, degree(rest));
            factor = self.mul(quotient, factor);
            rest = next;
        }
        factor
    }
}
