//! Hexadecimal digits, to be written.

ghost use Rattle.std.specs.Prelude.{◌≡◌, ◌*◌, ◌/◌, ◌%◌, ◌^◌, ◌<◌, ◌≤◌, ◌==◌, ◌||◌, ℕ, false, length, drop, slice_index, IsTrue};
ghost use Rattle.std.specs.Fmt.{digit_glyph};
ghost use Rattle.m4_model.specs.Headed.{hexadecimal};
ghost use Rattle.m4_etext.specs.Digits.{fours_of, digit_of_elements, elements_of};

use crate::eight::put_eight;
use crate::turned::turned;

/// The digit of this value, 0 to 9 or a to f.
#[inline]
fn hex_digit(value: u8) -> u8
    requires { value < 16 }
    ensures { result ≡ digit_glyph false value }
{
    if value < 10 {
        b'0' + value
    } else {
        b'a' - 10 + value
    }
}

/// The same in 32 bits, where the choice between the two sums is no branch.
#[inline]
pub fn hex_code(value: u32) -> u32
    requires { value < 16 }
    ensures { result ≡ digit_glyph false value }
{
    if value < 10 { 48 + value } else { 87 + value }
}

/// Writes the word's bits four at a time as digits, the lowest first: as many as there is room, at most 16.
#[inline]
pub fn put_fours(word: u64, digits: &mut [u8])
    requires { length digits.old ≤ 16 }
    ensures { digits.new ≡ fours_of word (length digits.old) }
{
    let eights = digits.len() / 8;
    for place in 0..eights {
        put_eight(word >> (32 * place), digits, 8 * place);
    }
    put_rest(word, digits, 8 * eights);
}

/// Writes the digits from `written` on, of which those before are written.
#[inline]
fn put_rest(word: u64, digits: &mut [u8], written: usize)
    requires few { length digits.old ≤ 16 }
    requires so_far { (k : ℕ) → k < written → slice_index digits.old k ≡ digit_glyph false (word / 16 ^ k % 16) }
    ensures { digits.new ≡ fours_of word (length digits.old) }
{
    for place in written..digits.len() {
        digits[place] = hex_digit(((word >> (4 * place)) % 16) as u8);
    }
}

/// Writes the elements of the word, of `width` bits each, by `count` digits each, the highest first: as many digits as there is
/// room.
#[inline]
pub fn put_elements(word: u64, width: u32, count: u32, digits: &mut [u8])
    requires widths { IsTrue (width == 1 || width == 2 || width == 4 || width == 8 || width == 16) }
    requires some { 1 ≤ count }
    requires most { count ≤ 4 }
    requires room { length digits.old ≤ 64 / width * count }
    ensures { digits.new ≡ elements_of width count word (length digits.old) }
{
    match count {
        1 => put_elements_by(word, width, 1, digits),
        2 => put_elements_by(word, width, 2, digits),
        3 => put_elements_by(word, width, 3, digits),
        _ => put_elements_by(word, width, 4, digits),
    }
}

/// The same. It is a part of each of its callers, which know the number of digits. Elements whose digits are all their bits are
/// written eight digits at a time.
#[inline]
fn put_elements_by(word: u64, width: u32, count: u32, digits: &mut [u8])
    requires widths { IsTrue (width == 1 || width == 2 || width == 4 || width == 8 || width == 16) }
    requires some { 1 ≤ count }
    requires most { count ≤ 4 }
    requires room { length digits.old ≤ 64 / width * count }
    ensures { digits.new ≡ elements_of width count word (length digits.old) }
{
    if 4 * count == width {
        put_fours(turned(word, count), digits);
    } else {
        put_each(word, width, count, digits);
    }
}

/// The same, digit by digit.
#[inline]
fn put_each(word: u64, width: u32, count: u32, digits: &mut [u8])
    requires widths { IsTrue (width == 1 || width == 2 || width == 4 || width == 8 || width == 16) }
    requires some { 1 ≤ count }
    requires most { count ≤ 4 }
    requires room { length digits.old ≤ 64 / width * count }
    ensures { digits.new ≡ elements_of width count word (length digits.old) }
{
    for place in 0..digits.len() {
        digits[place] = hex_digit(element_digit(word, width, count, place as u32));
    }
}

/// The digit at this place of the elements of the word.
#[inline]
fn element_digit(word: u64, width: u32, count: u32, place: u32) -> u8
    requires widths { IsTrue (width == 1 || width == 2 || width == 4 || width == 8 || width == 16) }
    requires some { 1 ≤ count }
    requires most { count ≤ 4 }
    requires within { place < 64 / width * count }
    ensures digit { result ≡ digit_of_elements width count word place }
    ensures small { result < 16 }
{
    let element = (word >> (place / count * width)) % (1 << width);
    ((element >> (4 * (count - 1 - place % count))) % 16) as u8
}

/// A number in hexadecimal, at the end of eight bytes.
#[derive(Clone, Copy)]
pub struct HexNumber {
    pub bytes: [u8; 8],
    pub start: usize,
}

/// The number in hexadecimal.
pub fn hex_number(n: u32) -> HexNumber
    ensures within { result.start ≤ 8 }
    ensures spelled { drop result.start result.bytes ≡ hexadecimal n }
{
    let mut bytes = [0u8; 8];
    bytes[7] = hex_digit((n % 16) as u8);
    let mut start = 7;
    let mut rest = n / 16;
    while rest > 0 {
        start -= 1;
        bytes[start] = hex_digit((rest % 16) as u8);
        rest /= 16;
    }
    HexNumber { bytes, start }
}
