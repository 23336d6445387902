//! Digits of rows over GF(2), of one entry each or of four, up to a word of them at once.

ghost use Rattle.std.specs.Prelude.{◌≡◌, ◌↔◌, ◌⊎◌, ℕ, ◌+◌, ◌*◌, ◌/◌, ◌%◌, ◌^◌, ◌<◌, ◌≤◌, length, slice_index, IsTrue, IfSome, IfNone};
ghost use Rattle.std.specs.Int.{bit_at};
ghost use Rattle.m4_model.specs.Field.{gf2};
ghost use Rattle.m4_model.specs.Matrix.{at, row, with_row};
ghost use Rattle.m4_model.specs.Text.{words_per_row};
ghost use Rattle.m4_model.specs.Headed.{Bits, Fours};
ghost use Rattle.m4_mzd.specs.Rows.{with_word};
ghost use Rattle.m4_mzed.specs.EWindow.{content, showing};
ghost use Rattle.m4_etext.specs.Place.{IsValue};
ghost use Rattle.m4_etext.specs.Pieces.{ReadsDigits, IsDigitAt, digits_in};
ghost use Rattle.m4_etext.specs.Kinds.{WritesBits};

use crate::eight::word_of_sixteen;
use crate::radix::digit_value;
use m4_bits::word_of_digits;
use m4_mzed::EWinMut;

/// Takes as many digits of one entry as the bytes, the row and the word have from column `t` on; where one isn't a digit, the
/// first alone.
#[inline]
pub fn take_bits(bytes: &[u8], whole: &mut EWinMut, r: u32, t: u32) -> u32
    requires over_gf2 { whole.old.field ≡ gf2 }
    requires in_rows { r < whole.old.rows }
    requires in_line { t < whole.old.cols }
    requires some { 0 < length bytes.now }
    ensures read { 0 < result → ReadsDigits Bits bytes.now (content whole.old) (content whole.new) r t result }
    ensures none { result ≡ 0 → IsDigitAt Bits whole.old.cols t (slice_index bytes.now 0) → ⊥ }
    ensures same { result ≡ 0 → whole.new ≡ whole.old }
    ensures stays { whole.new ≡ showing whole.old (content whole.new) }
{
    let left = (whole.cols() - t) as usize;
    let room = (64 - t % 64) as usize;
    let count = left.min(bytes.len()).min(room);
    let taken = take_few_bits(bytes, whole, r, t, count);
    if taken > 0 || count == 1 {
        return taken;
    }
    take_few_bits(bytes, whole, r, t, 1)
}

/// Takes so many digits of one entry from column `t` on, or none, where one isn't a digit.
#[inline]
fn take_few_bits(bytes: &[u8], whole: &mut EWinMut, r: u32, t: u32, count: usize) -> u32
    requires over_gf2 { whole.old.field ≡ gf2 }
    requires in_rows { r < whole.old.rows }
    requires some { 0 < count }
    requires in_line { t + count ≤ whole.old.cols }
    requires in_word { t % 64 + count ≤ 64 }
    requires within { count ≤ length bytes.now }
    ensures read { 0 < result → ReadsDigits Bits bytes.now (content whole.old) (content whole.new) r t result }
    ensures none { result ≡ 0 → count ≡ 1 → IsDigitAt Bits whole.old.cols t (slice_index bytes.now 0) → ⊥ }
    ensures same { result ≡ 0 → whole.new ≡ whole.old }
    ensures stays { whole.new ≡ showing whole.old (content whole.new) }
{
    let _cols = whole.cols();
    match word_of_digits(&bytes[..count]) {
        Some(word) => {
            put_bits(whole, r, t, count as u32, word);
            count as u32
        }
        None => 0,
    }
}

/// Takes as many digits of four entries as the bytes, the row and the word have from place `t` on; where one isn't a digit that
/// may stand there, the first alone.
#[inline]
pub fn take_fours(bytes: &[u8], whole: &mut EWinMut, r: u32, t: u32) -> u32
    requires over_gf2 { whole.old.field ≡ gf2 }
    requires in_rows { r < whole.old.rows }
    requires in_line { t < digits_in Fours whole.old.cols }
    requires some { 0 < length bytes.now }
    ensures read { 0 < result → ReadsDigits Fours bytes.now (content whole.old) (content whole.new) r t result }
    ensures none { result ≡ 0 → IsDigitAt Fours whole.old.cols t (slice_index bytes.now 0) → ⊥ }
    ensures same { result ≡ 0 → whole.new ≡ whole.old }
    ensures stays { whole.new ≡ showing whole.old (content whole.new) }
{
    let left = (whole.cols().div_ceil(4) - t) as usize;
    let room = (16 - t % 16) as usize;
    let count = left.min(bytes.len()).min(room);
    let taken = take_few_fours(bytes, whole, r, t, count);
    if taken > 0 || count == 1 {
        return taken;
    }
    take_few_fours(bytes, whole, r, t, 1)
}

/// Takes so many digits of four entries from place `t` on, or none, where one isn't a digit that may stand there.
#[inline]
fn take_few_fours(bytes: &[u8], whole: &mut EWinMut, r: u32, t: u32, count: usize) -> u32
    requires over_gf2 { whole.old.field ≡ gf2 }
    requires in_rows { r < whole.old.rows }
    requires some { 0 < count }
    requires in_line { t + count ≤ digits_in Fours whole.old.cols }
    requires in_word { t % 16 + count ≤ 16 }
    requires within { count ≤ length bytes.now }
    ensures read { 0 < result → ReadsDigits Fours bytes.now (content whole.old) (content whole.new) r t result }
    ensures none { result ≡ 0 → count ≡ 1 → IsDigitAt Fours whole.old.cols t (slice_index bytes.now 0) → ⊥ }
    ensures same { result ≡ 0 → whole.new ≡ whole.old }
    ensures stays { whole.new ≡ showing whole.old (content whole.new) }
{
    let left = whole.cols() - 4 * t;
    match word_of_fours(&bytes[..count]) {
        Some(word) => {
            if !is_within_row(word, left, count as u32) {
                return 0;
            }
            put_bits(whole, r, 4 * t, 4 * count as u32, word);
            count as u32
        }
        None => 0,
    }
}

/// Whether so many digits of four entries have no bit past the columns that are left.
#[inline]
fn is_within_row(word: u64, left: u32, count: u32) -> bool
    requires { count ≤ 16 }
    ensures { IsTrue result ↔ (4 * count ≤ left) ⊎ (word < 2 ^ left) }
{
    4 * count <= left || word < 1 << left
}

/// The word whose four bits at a time, the lowest first, are the values of these hexadecimal digits; or `None` where a byte is
/// no digit. At most 16 digits.
#[inline]
fn word_of_fours(digits: &[u8]) -> Option<u64>
    requires { length digits.now ≤ 16 }
    ensures word { IfSome result (λ word. (i : ℕ) → i < length digits.now → IsValue (slice_index digits.now i) (word / 16 ^ i % 16)) }
    ensures small { IfSome result (λ word. word < 16 ^ length digits.now) }
    ensures other { IfNone result (((i : ℕ) → i < length digits.now → (v : ℕ) × IsValue (slice_index digits.now i) v) → ⊥) }
{
    if digits.len() == 16 {
        if let Some(word) = word_of_sixteen(digits) {
            return Some(word);
        }
    }
    word_of_each(digits)
}

/// The same, digit by digit.
#[inline]
fn word_of_each(digits: &[u8]) -> Option<u64>
    requires { length digits.now ≤ 16 }
    ensures word { IfSome result (λ word. (i : ℕ) → i < length digits.now → IsValue (slice_index digits.now i) (word / 16 ^ i % 16)) }
    ensures small { IfSome result (λ word. word < 16 ^ length digits.now) }
    ensures other { IfNone result (((i : ℕ) → i < length digits.now → (v : ℕ) × IsValue (slice_index digits.now i) v) → ⊥) }
{
    let mut word = 0u64;
    for place in 0..digits.len() {
        match digit_value(digits[place]) {
            Some(value) => word += u64::from(value) << (4 * place),
            None => return None,
        }
    }
    Some(word)
}

/// Writes the lowest `len` bits of a number to the columns from `q` on, as far as there are columns. What stands behind them in
/// the same word becomes 0.
#[inline]
fn put_bits(whole: &mut EWinMut, r: u32, q: u32, len: u32, value: u64)
    requires over_gf2 { whole.old.field ≡ gf2 }
    requires in_rows { r < whole.old.rows }
    requires in_cols { q < whole.old.cols }
    requires in_word { q % 64 + len ≤ 64 }
    requires small { value < 2 ^ len }
    ensures written { WritesBits (content whole.old) (content whole.new) r q len value }
    ensures stays { whole.new ≡ showing whole.old (content whole.new) }
{
    let _cols = whole.cols();
    let before = bits_before(whole, r, q);
    set_word(whole, r, q / 64, before + (value << (q % 64)));
}

/// The bits before column `q` in its word.
#[inline]
fn bits_before(whole: &EWinMut, r: u32, q: u32) -> u64
    requires over_gf2 { whole.now.field ≡ gf2 }
    requires in_rows { r < whole.now.rows }
    requires in_cols { q < whole.now.cols }
    ensures small { result < 2 ^ (q % 64) }
    ensures bits { (i : ℕ) → i < q % 64 → bit_at result i ≡ at (content whole.now) r (q / 64 * 64 + i) }
{
    if q % 64 == 0 {
        0
    } else {
        let word = whole.see().into_bits().word(r, q / 64);
        word % (1 << (q % 64))
    }
}

/// Writes word `w` of row `r`: the entry in column `64 w + j` becomes bit `j`, as far as there are columns. All else stays.
#[inline]
fn set_word(whole: &mut EWinMut, r: u32, w: u32, value: u64)
    requires over_gf2 { whole.old.field ≡ gf2 }
    requires in_rows { r < whole.old.rows }
    requires in_words { w < words_per_row whole.old.cols }
    ensures { whole.new ≡ showing whole.old (with_row (content whole.old) r (with_word w value (row (content whole.old) r))) }
{
    let mut bits = whole.take().into_bits();
    bits.set_word(r, w, value);
    whole.put_back(EWinMut::of_bits(bits));
}
