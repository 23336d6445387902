//! Numbers in words and options.

ghost use Rattle.std.specs.Prelude.{◌≡◌, ◌≤◌, ◌↔◌, IfSome, IsTrue, decimal};
ghost use Rattle.m4_outcome.specs.FieldWords.{number_of, seed_of};
ghost use Rattle.m4_outcome.specs.Words.{number_between};

use itoa::Buffer;

/// The number that a word is, in decimal: `0`, or a digit from 1 to 9 and at most eight more.
pub(crate) fn number_of(word: &str) -> Option<u32>
    ensures { result ≡ number_of word.now }
{
    let Ok(number) = word.parse::<u32>() else {
        return None;
    };
    if number >= 1_000_000_000 || !is_decimal(word, number as u64) {
        return None;
    }
    Some(number)
}

/// The seed that a word is, in decimal: `0`, or digits of which the first isn't 0, with a value below 2^64.
pub(crate) fn seed_of(word: &str) -> Option<u64>
    ensures { result ≡ seed_of word.now }
{
    // A word that is no number of 64 bits is taken for 0, whose digits it isn't.
    let seed = word.parse::<u64>().unwrap_or(0);
    if !is_decimal(word, seed) {
        return None;
    }
    Some(seed)
}

/// Whether a word is this number in decimal, with no sign and no zero before it.
fn is_decimal(word: &str, number: u64) -> bool
    ensures { IsTrue result ↔ (word.now ≡ decimal number) }
{
    Buffer::new().format(number) == word
}

/// The number that a value is, if it lies between these two.
pub(crate) fn number_between(low: u32, high: u32, value: &str) -> Option<u32>
    ensures number { result ≡ number_between low high value.now }
    ensures low { IfSome result (λ n. low ≤ n) }
    ensures high { IfSome result (λ n. n ≤ high) }
{
    let number = number_of(value)?;
    if number < low || number > high {
        return None;
    }
    Some(number)
}
