ghost use Rattle.std.specs.Prelude.{◌≡◌, ℕ, ◌<◌, ◌≤◌, [], Some, None, false, true, length, drop, slice_index, MatchOption};
ghost use Rattle.m4_model.specs.Jcf.{is_white, tokens_from, number, entry};
ghost use Rattle.m4_text.specs.Tokens.{judged_from, IsNextToken};

/// Where a token stands: from `start` to `end`.
#[derive(Clone, Copy)]
pub struct Span {
    pub start: usize,
    pub end: usize,
}

/// An entry: whether it goes to the next row, and its column, counted from 1.
#[derive(Clone, Copy)]
pub struct Entry {
    pub next_row: bool,
    pub column: u64,
}

/// The most digits of a number.
const MOST_DIGITS: usize = 18;

/// The first token from this place on. Where the file is long, these bytes being its first, a token counts only if
/// white space has ended it.
pub fn next_token(bytes: &[u8], long: bool, from: usize) -> Option<Span>
    requires { from ≤ length bytes.now }
    ensures { MatchOption result (judged_from bytes.now long from ≡ [])
        (λ token. IsNextToken bytes.now long from token.start token.end) }
{
    let start = skip_white(bytes, from);
    if start == bytes.len() {
        return None;
    }
    let end = token_end(bytes, start);
    if long && end == bytes.len() {
        None
    } else {
        Some(Span { start, end })
    }
}

/// The place of the first byte from this place on that isn't white space.
fn skip_white(bytes: &[u8], from: usize) -> usize
    requires { from ≤ length bytes.now }
    ensures behind { from ≤ result }
    ensures within { result ≤ length bytes.now }
    ensures same { tokens_from from (drop from bytes.now) ≡ tokens_from result (drop result bytes.now) }
    ensures black { result < length bytes.now → is_white (slice_index bytes.now result) ≡ false }
{
    let mut place = from;
    while place < bytes.len() && is_white(bytes[place]) {
        place += 1;
    }
    place
}

/// The place behind the token that starts here.
fn token_end(bytes: &[u8], start: usize) -> usize
    requires inside { start < length bytes.now }
    requires black { is_white (slice_index bytes.now start) ≡ false }
    ensures some { start < result }
    ensures within { result ≤ length bytes.now }
    ensures black { (j : ℕ) → start ≤ j → j < result → is_white (slice_index bytes.now j) ≡ false }
    ensures white { result < length bytes.now → is_white (slice_index bytes.now result) ≡ true }
{
    let mut end = start + 1;
    while end < bytes.len() && !is_white(bytes[end]) {
        end += 1;
    }
    end
}

/// Whether the byte is white space: a space, a tab, a line feed, a vertical tab, a form feed or a carriage return.
fn is_white(byte: u8) -> bool
    ensures { result ≡ is_white byte }
{
    byte == b' ' || (b'\t' <= byte && byte <= b'\r')
}

/// The number that 1 to 18 decimal digits spell.
pub fn number(digits: &[u8]) -> Option<u64>
    ensures { result ≡ number digits.now }
{
    if digits.is_empty() || digits.len() > MOST_DIGITS {
        return None;
    }
    let mut value = 0;
    for digit in digits {
        if !digit.is_ascii_digit() {
            return None;
        }
        value = 10 * value + u64::from(digit - b'0');
    }
    Some(value)
}

/// The entry that a token spells: a number, with a minus sign before it where it goes to the next row.
pub fn entry_of(token: &[u8]) -> Option<Entry>
    ensures { MatchOption result (entry token.now ≡ None)
        (λ e. entry token.now ≡ Some (record { next_row = e.next_row; column = e.column })) }
{
    let next_row = !token.is_empty() && token[0] == b'-';
    let digits = if next_row { &token[1..] } else { token };
    match number(digits) {
        Some(column) => Some(Entry { next_row, column }),
        None => None,
    }
}
