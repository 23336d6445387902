ghost use Rattle.std.specs.Prelude.{◌≡◌, ◌≤◌, ◌<◌, ◌↔◌, length, take, IsTrue, OnOk, IfOk, IfErr, MatchOption};
ghost use Rattle.m4_model.specs.Matrix.{row, with_row};
ghost use Rattle.m4_model.specs.Text.{header};
ghost use Rattle.m4_bits.specs.Digits.{AreDigits};
ghost use Rattle.m4_mzd.specs.Window.{content, showing};
ghost use Rattle.m4_text.specs.Place.{GoesWrong, HasLine, IsLine, IsBareOf, IsWrongText};
ghost use Rattle.m4_text.specs.Reading.{ReadsRow, ReadsRows, ReadsLines, HasDigit, LacksDigit, EndsAt, entries_of};

use m4_bits::{word_of_digits, words_for};
use m4_mzd::{Mzd, WinMut};

/// Reads the lines of the matrix's rows, the first of which begins at `start` and the last of which ends the bytes,
/// into the matrix. An error is the place where the text goes wrong.
pub fn read_rows(bytes: &[u8], start: usize, m: &mut Mzd) -> Result<(), usize>
    requires within { start ≤ length bytes.now }
    requires head { take start bytes.now ≡ header m.old.rows m.old.cols }
    ensures ok { OnOk result (ReadsRows bytes.now m.old m.new) }
    ensures err { IfErr result (IsWrongText m.old.rows m.old.cols bytes.now) }
{
    match read_lines(&bytes[start..], m) {
        Ok(end) => {
            if start + end < bytes.len() {
                Err(start + end)
            } else {
                Ok(())
            }
        }
        Err(wrong) => Err(start + wrong),
    }
}

/// Reads the lines of the matrix's rows, with which the bytes begin, into the matrix, and answers the place behind the
/// last. An error is the place where the lines go wrong.
pub fn read_lines(bytes: &[u8], m: &mut Mzd) -> Result<usize, usize>
    ensures ok { IfOk result (ReadsLines bytes.now m.old m.new) }
    ensures err { IfErr result (GoesWrong (IsBareOf m.old.rows m.old.cols) bytes.now) }
{
    let (mut whole, home) = m.all_mut();
    let end = read_window(bytes, &mut whole);
    m.put_all(whole, home);
    end
}

/// Reads the lines of the window's rows, with which the bytes begin, into the window, and answers the place behind the
/// last. An error is the place where the lines go wrong.
fn read_window(bytes: &[u8], whole: &mut WinMut) -> Result<usize, usize>
    ensures ok { IfOk result (ReadsLines bytes.now (content whole.old) (content whole.new)) }
    ensures err { IfErr result (GoesWrong (IsBareOf whole.old.rows whole.old.cols) bytes.now) }
    ensures stays { whole.new ≡ showing whole.old (content whole.new) }
{
    let width = whole.cols() as usize + 1;
    let mut place = 0;
    for r in 0..whole.rows() {
        if let Err(wrong) = read_row(&bytes[place..], whole, r) {
            return Err(place + wrong);
        }
        place += width;
    }
    Ok(place)
}

/// Reads the line of row `r`, with which the bytes begin, into the window. An error is the place where the line goes
/// wrong; the row is then unknown.
fn read_row(bytes: &[u8], whole: &mut WinMut, r: u32) -> Result<(), usize>
    requires { r < whole.old.rows }
    ensures ok { OnOk result (ReadsRow bytes.now (content whole.old) (content whole.new) r) }
    ensures err { IfErr result (GoesWrong (IsLine whole.old.cols) bytes.now) }
    ensures stays { whole.new ≡ showing whole.old (content whole.new) }
{
    let end = whole.cols() as usize;
    if !ends_at(bytes, end) {
        return Err(wrong_place(bytes, end));
    }
    if read_digits(&bytes[..end], whole, r) {
        Ok(())
    } else {
        Err(wrong_place(bytes, end))
    }
}

/// Reads the digits of row `r` into the window, 64 to a word, and answers whether they are digits; where they aren't, the
/// row is unknown.
fn read_digits(digits: &[u8], whole: &mut WinMut, r: u32) -> bool
    requires in_rows { r < whole.old.rows }
    requires wide { length digits.now ≡ whole.old.cols }
    ensures digits { IsTrue result ↔ AreDigits digits.now }
    ensures read { IsTrue result → whole.new ≡ showing whole.old (with_row (content whole.old) r (entries_of digits.now)) }
    ensures stays { whole.new ≡ showing whole.old (content whole.new) }
{
    for w in 0..words_for(whole.cols()) {
        let start = 64 * w as usize;
        let end = (start + 64).min(digits.len());
        match word_of_digits(&digits[start..end]) {
            Some(word) => whole.set_word(r, w, word),
            None => return false,
        }
    }
    true
}

/// The first place where the line of a row of so many columns goes wrong, with which the bytes do not begin.
fn wrong_place(bytes: &[u8], cols: usize) -> usize
    requires { HasLine bytes.now cols → ⊥ }
    ensures { GoesWrong (IsLine cols) bytes.now result }
{
    for place in 0..cols {
        if binary_digit(bytes, place).is_none() {
            return place;
        }
    }
    cols
}

/// Whether a line feed stands at this place.
pub fn ends_at(bytes: &[u8], place: usize) -> bool
    ensures { IsTrue result ↔ EndsAt bytes.now place }
{
    place < bytes.len() && bytes[place] == b'\n'
}

/// The digit 0 or 1 that stands at this place, as a bit.
pub fn binary_digit(bytes: &[u8], place: usize) -> Option<bool>
    ensures { MatchOption result (LacksDigit bytes.now place) (HasDigit bytes.now place) }
{
    match bytes.get(place) {
        Some(b'0') => Some(false),
        Some(b'1') => Some(true),
        _ => None,
    }
}
