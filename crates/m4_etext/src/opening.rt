//! What stands before the numbers of rows and columns in a header line: letters, and those of an extension field.

ghost use Rattle.std.specs.Prelude.{◌≡◌, length, codes, take, MatchOption, MatchResult};
ghost use Rattle.m4_etext.specs.Place.{GoesWrong, IsOpening, IsOpeningOf, IsFirstOther};
ghost use Rattle.m4_etext.specs.Parsed.{spelling_of, word_of, IsByFourth};

use crate::radix::{Radix, number_at};

/// What a header line tells before the numbers of rows and columns, whatever field that is.
#[derive(Clone, Copy)]
pub enum Opening {
    /// GF(2), a digit for each entry.
    Bits,
    /// GF(2), a digit for each four entries.
    Fours,
    /// The field of this degree and polynomial, its elements in hexadecimal digits.
    Elements { degree: u32, poly: u32 },
}

/// The letters that stand first.
#[derive(Clone, Copy)]
enum Letters {
    OfBits,
    OfFours,
    OfElements,
}

/// What a header line opens with, and the place behind it.
#[derive(Clone, Copy)]
pub struct Opened {
    pub opening: Opening,
    pub end: usize,
}

/// What the bytes open with, or the place where they go wrong in it.
pub fn opening_of(bytes: &[u8]) -> Result<Opened, usize>
    ensures { MatchResult result (λ opened. IsOpeningOf bytes.now (spelling_of opened.opening) opened.end)
        (GoesWrong IsOpening bytes.now) }
{
    match letters_of(bytes)? {
        Letters::OfBits => Ok(Opened {
            opening: Opening::Bits,
            end: 4,
        }),
        Letters::OfFours => Ok(Opened {
            opening: Opening::Fours,
            end: 5,
        }),
        Letters::OfElements => elements_of(bytes),
    }
}

/// The degree and the polynomial behind the letters of an extension field, or the place where the bytes go wrong in them.
fn elements_of(bytes: &[u8]) -> Result<Opened, usize>
    requires { take 5 bytes.now ≡ codes "gf2e " }
    ensures { MatchResult result (λ opened. IsOpeningOf bytes.now (spelling_of opened.opening) opened.end)
        (GoesWrong IsOpening bytes.now) }
{
    let degree = number_at(bytes, 5, Radix::Decimal, b' ')?;
    let poly = number_at(bytes, degree.end, Radix::Hexadecimal, b' ')?;
    Ok(Opened {
        opening: Opening::Elements {
            degree: degree.value,
            poly: poly.value,
        },
        end: poly.end,
    })
}

/// The letters that the bytes begin with, or the place where they go wrong in them.
fn letters_of(bytes: &[u8]) -> Result<Letters, usize>
    ensures { MatchResult result (λ letters. take (length (word_of letters)) bytes.now ≡ word_of letters)
        (GoesWrong IsOpening bytes.now) }
{
    let letters = letters_by_fourth(bytes);
    match other_letter(bytes, letters) {
        Some(place) => Err(place),
        None => Ok(letters),
    }
}

/// The first place where the bytes don't go on with these letters.
fn other_letter(bytes: &[u8], letters: Letters) -> Option<usize>
    ensures { MatchOption result (take (length (word_of letters)) bytes.now ≡ word_of letters) (IsFirstOther bytes.now (word_of letters)) }
{
    match letters {
        Letters::OfBits => first_other(bytes, b"gf2 "),
        Letters::OfFours => first_other(bytes, b"gf2x "),
        Letters::OfElements => first_other(bytes, b"gf2e "),
    }
}

/// The letters that there may be, by the fourth of them.
fn letters_by_fourth(bytes: &[u8]) -> Letters
    ensures { IsByFourth bytes.now result }
{
    match bytes.get(3) {
        Some(b'x') => Letters::OfFours,
        Some(b'e') => Letters::OfElements,
        _ => Letters::OfBits,
    }
}

/// The first place where the bytes don't go on with the word.
fn first_other(bytes: &[u8], word: &[u8]) -> Option<usize>
    ensures { MatchOption result (take (length word.now) bytes.now ≡ word.now) (IsFirstOther bytes.now word.now) }
{
    for (place, letter) in word.iter().enumerate() {
        if place == bytes.len() || bytes[place] != *letter {
            return Some(place);
        }
    }
    None
}
