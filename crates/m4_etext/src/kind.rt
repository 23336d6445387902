//! How the entries of a headed text are spelled.

ghost use Rattle.std.specs.Prelude.{◌≡◌, ◌*◌, ◌≤◌};
ghost use Rattle.m4_model.specs.Field.{width};
ghost use Rattle.m4_model.specs.Headed.{digits_per_element};
ghost use Rattle.m4_field.specs.Fields.{the_field};
ghost use Rattle.m4_etext.specs.Pieces.{digits_in};
ghost use Rattle.m4_etext.specs.Kinds.{spelled_by};

use m4_field::Field;
use m4_mzd::MOST_SIDE;

/// How the entries of a headed text are spelled.
#[derive(Clone, Copy)]
pub enum Kind {
    /// A digit for each entry, over GF(2).
    OfBits,
    /// A hexadecimal digit for each four entries, over GF(2).
    OfFours,
    /// Each element by as many hexadecimal digits as its bits need.
    OfElements,
}

/// How many digits spell an element.
#[inline]
pub fn element_digits(field: &Field) -> u32
    ensures count { result ≡ digits_per_element (the_field field.now) }
    ensures some { 1 ≤ result }
    ensures few { result ≤ 4 }
    ensures room { result ≤ width (the_field field.now) }
{
    let _width = field.width();
    let _degree = field.e();
    field.e().div_ceil(4)
}

/// How many digits the line of a row of so many columns has.
#[inline]
pub fn line_digits(kind: Kind, field: &Field, cols: u32) -> u32
    requires { cols * width (the_field field.now) ≤ MOST_SIDE }
    ensures count { result ≡ digits_in (spelled_by kind (the_field field.now)) cols }
    ensures few { result ≤ MOST_SIDE }
{
    let _width = field.width();
    match kind {
        Kind::OfBits => cols,
        Kind::OfFours => cols.div_ceil(4),
        Kind::OfElements => cols * element_digits(field),
    }
}
