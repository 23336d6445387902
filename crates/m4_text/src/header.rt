ghost use Rattle.std.specs.Prelude.{◌≤◌, ◌↔◌, length, IsTrue, MatchResult};
ghost use Rattle.std.specs.Char.{IsAsciiDigit};
ghost use Rattle.m4_model.specs.Text.{IsHeader};
ghost use Rattle.m4_text.specs.Place.{GoesWrong, GoesWrongFrom, IsOpening, IsOpeningOf, IsNumber, Lengthens, IsLeadingNumber, IsNumberAt, IsHeaderOf};

/// The letters that every header begins with.
const OPENING: [u8; 4] = *b"gf2 ";

/// The most digits of a number.
const MOST_DIGITS: usize = 9;

/// The sizes that a header line tells, and how many bytes it has.
#[derive(Clone, Copy, Debug, PartialEq, Eq)]
pub struct Header {
    pub rows: u32,
    pub cols: u32,
    pub len: usize,
}

/// The digits of a number, counted, and what they are worth.
#[derive(Clone, Copy)]
struct Digits {
    value: u32,
    len: usize,
}

/// A number, and the place behind the byte that ends it.
#[derive(Clone, Copy)]
struct Number {
    value: u32,
    end: usize,
}

/// The header line that the bytes begin with, or the place where they go wrong in it.
pub fn header_of(bytes: &[u8]) -> Result<Header, usize>
    ensures { MatchResult result (λ header. IsHeaderOf bytes.now header.rows header.cols header.len)
        (GoesWrong IsHeader bytes.now) }
{
    let opened = opening(bytes)?;
    let rows = number_at(bytes, opened, b' ')?;
    let cols = number_at(bytes, rows.end, b'\n')?;
    Ok(Header {
        rows: rows.value,
        cols: cols.value,
        len: cols.end,
    })
}

/// The place behind the opening letters, or the place where the bytes go wrong in them.
fn opening(bytes: &[u8]) -> Result<usize, usize>
    ensures { MatchResult result (IsOpeningOf bytes.now) (GoesWrong IsOpening bytes.now) }
{
    for (place, letter) in OPENING.iter().enumerate() {
        if place == bytes.len() || bytes[place] != *letter {
            return Err(place);
        }
    }
    Ok(OPENING.len())
}

/// The number that stands at this place, with the byte that ends it, or the place where the bytes go wrong in it.
fn number_at(bytes: &[u8], at: usize, ending: u8) -> Result<Number, usize>
    requires within { at ≤ length bytes.now }
    requires other { IsAsciiDigit ending → ⊥ }
    ensures { MatchResult result (λ number. IsNumberAt bytes.now at ending number.value number.end)
        (GoesWrongFrom (IsNumber ending) bytes.now at) }
{
    let rest = &bytes[at..];
    let digits = leading_number(rest);
    if digits.len > 0 && digits.len < rest.len() && rest[digits.len] == ending {
        Ok(Number {
            value: digits.value,
            end: at + digits.len + 1,
        })
    } else {
        Err(at + digits.len)
    }
}

/// The longest number of a header that the bytes begin with; no digits where they begin with none.
fn leading_number(bytes: &[u8]) -> Digits
    ensures { IsLeadingNumber bytes.now result.value result.len }
{
    let mut value = 0;
    let mut len = 0;
    while len < bytes.len() && lengthens(value, len, bytes[len]) {
        value = 10 * value + u32::from(bytes[len] - b'0');
        len += 1;
    }
    Digits { value, len }
}

/// Whether the byte goes on with a number of which `len` digits, worth `value`, are there.
fn lengthens(value: u32, len: usize, byte: u8) -> bool
    ensures { IsTrue result ↔ Lengthens value len byte }
{
    byte.is_ascii_digit() && len < MOST_DIGITS && (len == 0 || value > 0)
}
