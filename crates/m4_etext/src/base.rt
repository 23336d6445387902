//! The field that a header line tells.

ghost use Rattle.std.specs.Prelude.{◌≡◌, ℕ, ◌≤◌, List, ◌++◌, length, codes, decimal, IfOk, IfErr};
ghost use Rattle.m4_model.specs.Headed.{HasField, HasHeader};
ghost use Rattle.m4_field.specs.Fields.{the_field};
ghost use Rattle.m4_etext.specs.Parsed.{spelling_of};
ghost use Rattle.m4_etext.specs.Kinds.{spelled_by, Suits};
ghost use Rattle.m4_etext.specs.Standing.{IsFaultOf};

use crate::TextFault;
use crate::kind::Kind;
use crate::opening::Opening;
use m4_field::{Field, FieldFault};

/// A field, and how its elements are spelled.
#[derive(Clone, Copy)]
pub struct Base {
    pub kind: Kind,
    pub field: Field,
}

/// The field that a header line opens with, or why it is none.
pub fn base_of(opening: Opening) -> Result<Base, TextFault>
    ensures suits { IfOk result (λ base. Suits base.kind (the_field base.field)) }
    ensures field { IfOk result (λ base. HasField (spelled_by base.kind (the_field base.field))) }
    ensures spelling { IfOk result (λ base. spelled_by base.kind (the_field base.field) ≡ spelling_of opening) }
    ensures err { IfErr result (λ fault. (bytes : List ℕ) (m n : ℕ) → HasHeader bytes (spelling_of opening) m n → IsFaultOf bytes fault) }
{
    match opening {
        Opening::Bits => Ok(Base {
            kind: Kind::OfBits,
            field: Field::gf2(),
        }),
        Opening::Fours => Ok(Base {
            kind: Kind::OfFours,
            field: Field::gf2(),
        }),
        Opening::Elements { degree, poly } => extension_of(degree, poly),
    }
}

/// The extension field of this degree and polynomial, or why it is none.
fn extension_of(degree: u32, poly: u32) -> Result<Base, TextFault>
    ensures suits { IfOk result (λ base. Suits base.kind (the_field base.field)) }
    ensures field { IfOk result (λ base. HasField (spelled_by base.kind (the_field base.field))) }
    ensures spelling { IfOk result (λ base. spelled_by base.kind (the_field base.field) ≡ spelling_of (Opening.Elements degree poly)) }
    ensures err { IfErr result (λ fault. (bytes : List ℕ) (m n : ℕ) → HasHeader bytes (spelling_of (Opening.Elements degree poly)) m n → IsFaultOf bytes fault) }
{
    match Field::new(degree, poly) {
        Ok(field) => Ok(Base {
            kind: Kind::OfElements,
            field,
        }),
        Err(FieldFault::BadDegree) => Err(TextFault::Field {
            at: 5,
            fault: FieldFault::BadDegree,
        }),
        Err(FieldFault::Reducible) => Err(TextFault::Field {
            at: poly_place(degree),
            fault: FieldFault::Reducible,
        }),
    }
}

/// The place of the polynomial in a header line.
fn poly_place(degree: u32) -> u64
    requires { degree ≤ 16 }
    ensures { result ≡ length (codes "gf2e " ++ (decimal degree ++ codes " ")) }
{
    if degree < 10 { 7 } else { 8 }
}
