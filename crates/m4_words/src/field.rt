//! Words that name a field.

ghost use Rattle.std.specs.Prelude.{◌≡◌, ◌↔◌, IsTrue, option_map};
ghost use Rattle.m4_model.specs.Headed.{hexadecimal};
ghost use Rattle.m4_field.specs.Fields.{the_field};
ghost use Rattle.m4_outcome.specs.FieldWords.{extension_named, extension_of, field_named, hexadecimal_of};

use crate::number::number_of;
use m4_etext::hex_number;
use m4_field::Field;

/// The field that a word names: `gf2`, or a degree in decimal and a polynomial in hexadecimal with a colon between them.
pub(crate) fn field_named(word: &str) -> Option<Field>
    ensures { option_map the_field result ≡ field_named word.now }
{
    match word {
        "gf2" => Some(Field::gf2()),
        _ => extension_named(word),
    }
}

/// The extension field that a word names.
fn extension_named(word: &str) -> Option<Field>
    ensures { option_map the_field result ≡ extension_named word.now }
{
    let (degree, poly) = word.split_once(':').unwrap_or((word, ""));
    let degree = number_of(degree)?;
    let poly = hexadecimal_of(poly)?;
    extension_of(degree, poly)
}

/// The extension field of this degree and polynomial, if there is one.
fn extension_of(degree: u32, poly: u32) -> Option<Field>
    ensures { option_map the_field result ≡ extension_of degree poly }
{
    match Field::new(degree, poly) {
        Ok(field) => Some(field),
        Err(_) => None,
    }
}

/// The number of at most 17 bits that a word is in hexadecimal, in lower-case letters and with no zero before it.
fn hexadecimal_of(word: &str) -> Option<u32>
    ensures { result ≡ hexadecimal_of word.now }
{
    let Ok(number) = u32::from_str_radix(word, 16) else {
        return None;
    };
    if number >= 1 << 17 || !is_hexadecimal(word, number) {
        return None;
    }
    Some(number)
}

/// Whether a word is this number in hexadecimal.
fn is_hexadecimal(word: &str, number: u32) -> bool
    ensures { IsTrue result ↔ (word.now ≡ hexadecimal number) }
{
    let spelled = hex_number(number);
    word.as_bytes() == &spelled.bytes[spelled.start..]
}
