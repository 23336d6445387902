//! Words of elements, gathered from their digits.

ghost use Rattle.std.specs.Prelude.{◌≡◌, ℕ, ◌+◌, ◌*◌, ◌/◌, ◌%◌, ◌^◌, ◌<◌, ◌≤◌, ◌==◌, ◌||◌, length, slice_index, IsTrue, IfSome};
ghost use Rattle.m4_model.specs.Field.{width};
ghost use Rattle.m4_model.specs.Headed.{digits_per_element};
ghost use Rattle.m4_field.specs.Fields.{the_field};
ghost use Rattle.m4_mzed.specs.Words.{AreElements};
ghost use Rattle.m4_etext.specs.Place.{IsValue};
ghost use Rattle.m4_etext.specs.Digits.{digit_of_elements};
ghost use Rattle.m4_etext.specs.ElementWords.{IsWordOfElements, IsSpelled};

use crate::eight::word_of_sixteen;
use crate::hex::hex_code;
use crate::kind::element_digits;
use crate::turned::turned;
use m4_field::Field;

/// More than any element: it stands for a byte that is no digit, and for what has one.
const FAULT: u32 = 65536;

/// The word of the elements that these digits spell, the first of them its lowest; or `None` where a byte is no digit, or the
/// digits of an element spell none of this field. A whole word of elements whose digits are all their bits is read eight digits at a
/// time.
#[inline]
pub fn word_of_elements(digits: &[u8], field: &Field) -> Option<u64>
    requires room { length digits.now ≤ 64 / width (the_field field.now) * digits_per_element (the_field field.now) }
    requires whole { length digits.now % digits_per_element (the_field field.now) ≡ 0 }
    ensures elements { IfSome result (λ word. AreElements (the_field field.now) (width (the_field field.now)) word) }
    ensures digits { IfSome result (λ word. (i : ℕ) → i < length digits.now
        → IsValue (slice_index digits.now i) (digit_of_elements (width (the_field field.now)) (digits_per_element (the_field field.now)) word i)) }
{
    let count = element_digits(field);
    if field.e() == 4 * count && digits.len() == 16 {
        return Some(turned(word_of_sixteen(digits)?, count));
    }
    gathered(digits, field)
}

/// The same, element by element.
#[inline]
fn gathered(digits: &[u8], field: &Field) -> Option<u64>
    requires room { length digits.now ≤ 64 / width (the_field field.now) * digits_per_element (the_field field.now) }
    requires whole { length digits.now % digits_per_element (the_field field.now) ≡ 0 }
    ensures elements { IfSome result (λ word. AreElements (the_field field.now) (width (the_field field.now)) word) }
    ensures digits { IfSome result (λ word. (i : ℕ) → i < length digits.now
        → IsValue (slice_index digits.now i) (digit_of_elements (width (the_field field.now)) (digits_per_element (the_field field.now)) word i)) }
{
    let _degree = field.e();
    let width = field.width();
    let end = 1 << field.e();
    match element_digits(field) {
        1 => gathered_by(digits, width, 1, end),
        2 => gathered_by(digits, width, 2, end),
        3 => gathered_by(digits, width, 3, end),
        _ => gathered_by(digits, width, 4, end),
    }
}

/// The word of elements below `end`, of `width` bits and `count` digits each. It is a part of each of its callers, which know the
/// number of digits.
#[inline]
fn gathered_by(digits: &[u8], width: u32, count: u32, end: u32) -> Option<u64>
    requires widths { IsTrue (width == 1 || width == 2 || width == 4 || width == 8 || width == 16) }
    requires some { 1 ≤ count }
    requires most { count ≤ 4 }
    requires below { end ≤ 2 ^ width }
    requires room { length digits.now ≤ 64 / width * count }
    requires whole { length digits.now % count ≡ 0 }
    ensures { IfSome result (λ word. IsWordOfElements digits.now width count end (length digits.now / count) word) }
{
    let mut word = 0u64;
    let count = count as usize;
    for k in 0..digits.len() / count {
        let x = element_of(digits, count * k, count);
        if x >= end {
            return None;
        }
        word ^= u64::from(x) << (k as u32 * width);
    }
    Some(word)
}

/// The element that so many digits spell from `start` on, or a number past all elements where one of them is no digit.
#[inline]
fn element_of(digits: &[u8], start: usize, count: usize) -> u32
    requires { start + count ≤ length digits.now }
    ensures { IsSpelled digits.now start count result }
{
    let mut x = 0;
    for place in 0..count {
        x = (x * 16 + value_or_fault(digits[start + place])).min(FAULT);
    }
    x
}

/// The value of a digit, or more than any element. Letters and the digits before them take one way, since no one can foretell
/// which comes next.
#[inline]
fn value_or_fault(byte: u8) -> u32
    ensures value { result < FAULT → IsValue byte result }
    ensures most { result ≤ FAULT }
{
    let code = u32::from(byte);
    let value = code % 16 + code / 64 * 9;
    if value < 16 && hex_code(value) == code {
        value
    } else {
        FAULT
    }
}
