//! Digits of elements of an extension field, up to a word of elements at once.

ghost use Rattle.std.specs.Prelude.{◌≡◌, ◌↔◌, ◌+◌, ◌*◌, ◌/◌, ◌^◌, ◌<◌, ◌≤◌, length, slice_index, IsTrue};
ghost use Rattle.m4_model.specs.Field.{width};
ghost use Rattle.m4_model.specs.Matrix.{at, row, with_row};
ghost use Rattle.m4_model.specs.Headed.{Elements};
ghost use Rattle.m4_model.specs.Text.{words_per_row};
ghost use Rattle.m4_field.specs.Fields.{the_field};
ghost use Rattle.m4_mzed.specs.EWindow.{content, showing};
ghost use Rattle.m4_mzed.specs.Words.{AreElements};
ghost use Rattle.m4_etext.specs.Pieces.{ReadsDigits, IsDigitAt, digits_in};
ghost use Rattle.m4_etext.specs.ElementWords.{with_elements};

use crate::gathered::word_of_elements;
use crate::kind::element_digits;
use crate::radix::digit_value;
use m4_field::Field;
use m4_mzed::EWinMut;

/// Takes the digits of all elements of a word into row `r` from place `t` of its line on, where they begin there and all of them
/// are digits of elements; else one digit, where it may stand there.
#[inline]
pub fn take_elements(bytes: &[u8], whole: &mut EWinMut, r: u32, t: u32) -> u32
    requires in_rows { r < whole.old.rows }
    requires in_line { t < digits_in (Elements whole.old.field) whole.old.cols }
    requires some { 0 < length bytes.now }
    ensures read { 0 < result → ReadsDigits (Elements whole.old.field) bytes.now (content whole.old) (content whole.new) r t result }
    ensures none { result ≡ 0 → IsDigitAt (Elements whole.old.field) whole.old.cols t (slice_index bytes.now 0) → ⊥ }
    ensures same { result ≡ 0 → whole.new ≡ whole.old }
    ensures stays { whole.new ≡ showing whole.old (content whole.new) }
{
    let taken = take_word(bytes, whole, r, t);
    if taken > 0 {
        return taken;
    }
    take_element_digit(bytes, whole, r, t)
}

/// Takes the digits of all elements of a word that the row has there, or none.
#[inline]
fn take_word(bytes: &[u8], whole: &mut EWinMut, r: u32, t: u32) -> u32
    requires in_rows { r < whole.old.rows }
    requires in_line { t < digits_in (Elements whole.old.field) whole.old.cols }
    ensures read { 0 < result → ReadsDigits (Elements whole.old.field) bytes.now (content whole.old) (content whole.new) r t result }
    ensures same { result ≡ 0 → whole.new ≡ whole.old }
    ensures stays { whole.new ≡ showing whole.old (content whole.new) }
{
    let field = whole.field();
    let count = element_digits(&field);
    let size = 64 / field.width() * count;
    let len = (whole.cols() * count - t).min(size);
    if t % size != 0 || bytes.len() < len as usize {
        return 0;
    }
    match word_of_elements(&bytes[..len as usize], &field) {
        Some(word) => {
            set_elements(whole, r, t / size, word);
            len
        }
        None => 0,
    }
}

/// Writes the elements of a word to row `r`, the first of them to the column of word `w`, as far as there are columns. All else
/// stays.
#[inline]
fn set_elements(whole: &mut EWinMut, r: u32, w: u32, word: u64)
    requires in_rows { r < whole.old.rows }
    requires in_words { w < words_per_row (whole.old.cols * width whole.old.field) }
    requires elements { AreElements whole.old.field (width whole.old.field) word }
    ensures { whole.new ≡ showing whole.old (with_row (content whole.old) r (with_elements (width whole.old.field) w word (row (content whole.old) r))) }
{
    let field = whole.field();
    let cols = whole.cols();
    let mut bits = whole.take().into_packed();
    let _rows = bits.rows();
    bits.set_word(r, w, word);
    whole.put_back(EWinMut::of_packed(field, cols, bits));
}

/// Takes one digit into row `r` at place `t` of its line, where it may stand there. The digits behind it in the element become 0.
#[inline]
fn take_element_digit(bytes: &[u8], whole: &mut EWinMut, r: u32, t: u32) -> u32
    requires in_rows { r < whole.old.rows }
    requires in_line { t < digits_in (Elements whole.old.field) whole.old.cols }
    requires some { 0 < length bytes.now }
    ensures read { 0 < result → ReadsDigits (Elements whole.old.field) bytes.now (content whole.old) (content whole.new) r t result }
    ensures none { result ≡ 0 → IsDigitAt (Elements whole.old.field) whole.old.cols t (slice_index bytes.now 0) → ⊥ }
    ensures same { result ≡ 0 → whole.new ≡ whole.old }
    ensures stays { whole.new ≡ showing whole.old (content whole.new) }
{
    let field = whole.field();
    let _cols = whole.cols();
    let digits = element_digits(&field);
    let (column, place) = (t / digits, t % digits);
    match digit_value(bytes[0]) {
        Some(digit) => {
            let old = started(whole, r, column, place);
            let new = with_digit(old, digit, digits - 1 - place);
            if !is_element(&field, new) {
                return 0;
            }
            whole.put(r, column, new);
            1
        }
        None => 0,
    }
}

/// The element of which so many digits are there, behind which anything stands.
#[inline]
fn started(whole: &EWinMut, r: u32, column: u32, place: u32) -> u32
    requires in_rows { r < whole.now.rows }
    requires in_cols { column < whole.now.cols }
    ensures none { place ≡ 0 → result ≡ 0 }
    ensures some { 0 < place → result ≡ at (content whole.now) r column }
    ensures element { result < 2 ^ whole.now.field.degree }
{
    let field = whole.field();
    let _degree = field.e();
    if place == 0 { 0 } else { whole.get(r, column) }
}

/// Whether the number is an element of the field.
#[inline]
fn is_element(field: &Field, x: u32) -> bool
    ensures { IsTrue result ↔ x < 2 ^ (the_field field.now).degree }
{
    let _degree = field.e();
    x < 1 << field.e()
}

/// The element with another digit, behind which so many zeros stand.
#[inline]
fn with_digit(x: u32, digit: u32, behind: u32) -> u32
    requires element { x < 2 ^ 16 }
    requires digit { digit < 16 }
    requires few { behind ≤ 3 }
    ensures { result ≡ (x / 16 ^ (behind + 1) * 16 + digit) * 16 ^ behind }
{
    match behind {
        0 => x / 16 * 16 + digit,
        1 => (x / 256 * 16 + digit) * 16,
        2 => (x / 4096 * 16 + digit) * 256,
        _ => (x / 65536 * 16 + digit) * 4096,
    }
}
