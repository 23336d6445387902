//! The numbers of a header line.

ghost use Rattle.std.specs.Prelude.{◌≡◌, ◌+◌, ◌*◌, ◌^◌, ◌<◌, ◌≤◌, ℕ, length, MatchOption, MatchResult};
ghost use Rattle.m4_etext.specs.Place.{GoesWrongFrom, IsNumber, IsValue, IsDigitIn, IsNext, Lengthens, IsLeadingNumber, IsNumberAt};
ghost use Rattle.m4_etext.specs.Parsed.{base_of, most_of};

/// How a number is spelled: by at most nine decimal digits, or by at most eight hexadecimal ones.
#[derive(Clone, Copy)]
pub enum Radix {
    Decimal,
    Hexadecimal,
}

/// The digits of a number, counted, and what they are worth.
#[derive(Clone, Copy)]
struct Digits {
    value: u32,
    len: usize,
}

/// A number, and the place behind the byte that ends it.
#[derive(Clone, Copy)]
pub struct Number {
    pub value: u32,
    pub end: usize,
}

/// The number that stands at this place, with the byte that ends it, or the place where the bytes go wrong in it.
pub fn number_at(bytes: &[u8], at: usize, radix: Radix, ending: u8) -> Result<Number, usize>
    requires within { at ≤ length bytes.now }
    requires other { IsDigitIn (base_of radix) ending → ⊥ }
    ensures { MatchResult result (λ number. IsNumberAt (base_of radix) (most_of radix) bytes.now at ending number.value number.end)
        (GoesWrongFrom (IsNumber (base_of radix) (most_of radix) ending) bytes.now at) }
{
    let rest = &bytes[at..];
    let digits = leading_number(rest, radix);
    if digits.len > 0 && digits.len < rest.len() && rest[digits.len] == ending {
        Ok(Number {
            value: digits.value,
            end: at + digits.len + 1,
        })
    } else {
        Err(at + digits.len)
    }
}

/// The longest number that the bytes begin with; no digits where they begin with none.
fn leading_number(bytes: &[u8], radix: Radix) -> Digits
    ensures { IsLeadingNumber (base_of radix) (most_of radix) bytes.now result.value result.len }
{
    let mut value = 0;
    for (len, byte) in bytes.iter().enumerate() {
        match next_digit(radix, value, len, *byte) {
            Some(digit) => value = with_digit(radix, value, digit),
            None => return Digits { value, len },
        }
    }
    Digits {
        value,
        len: bytes.len(),
    }
}

/// The digit by which the byte goes on with a number of which `len` digits, worth `value`, are there.
fn next_digit(radix: Radix, value: u32, len: usize, byte: u8) -> Option<u32>
    ensures { MatchOption result (Lengthens (base_of radix) (most_of radix) value len byte → ⊥)
        (IsNext (base_of radix) (most_of radix) value len byte) }
{
    let (base, most) = match radix {
        Radix::Decimal => (10, 9),
        Radix::Hexadecimal => (16, 8),
    };
    match digit_value(byte) {
        Some(digit) if digit < base && len < most && (len == 0 || value > 0) => Some(digit),
        _ => None,
    }
}

/// The number with one digit more.
fn with_digit(radix: Radix, value: u32, digit: u32) -> u32
    requires { base_of radix * value + digit < 2 ^ 32 }
    ensures { result ≡ base_of radix * value + digit }
{
    match radix {
        Radix::Decimal => 10 * value + digit,
        Radix::Hexadecimal => 16 * value + digit,
    }
}

/// The value of a digit, from 0 to 9 and from a to f.
#[inline]
pub fn digit_value(byte: u8) -> Option<u32>
    ensures { MatchOption result ((v : ℕ) → IsValue byte v → ⊥) (IsValue byte) }
{
    if b'0' <= byte && byte <= b'9' {
        Some(u32::from(byte - b'0'))
    } else if b'a' <= byte && byte <= b'f' {
        Some(u32::from(byte - b'a') + 10)
    } else {
        None
    }
}
