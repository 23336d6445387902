ghost use Rattle.std.specs.Prelude.{◌↔◌, ◌+◌, ◌<◌, ◌≤◌, IsTrue};
ghost use Rattle.m4_model.specs.Text.{IsWithinLimits};

use m4_bits::words_for;

/// The most rows of a matrix in a file or a result.
pub const MOST_ROWS: u32 = 65536;

/// The most columns of one.
pub const MOST_COLS: u32 = 65536;

/// The most words of 64 bits that the rows of one take together.
pub const MOST_WORDS: u64 = 4_194_304;

/// The most bytes of a file.
pub const MOST_BYTES: usize = 536_870_912;

/// Whether a matrix of these sizes, whose entries take so many bits, is within the limits on files and results.
pub fn within_limits(bits: u32, rows: u32, cols: u32) -> bool
    requires { bits ≤ 16 }
    ensures { IsTrue result ↔ IsWithinLimits bits rows cols }
{
    rows <= MOST_ROWS
        && cols <= MOST_COLS
        && u64::from(rows) * u64::from(words_for(cols * bits)) <= MOST_WORDS
}

/// Whether these sizes of a matrix over GF(2), however large they are, are within the limits.
pub fn are_within_limits(rows: u64, cols: u64) -> bool
    ensures { IsTrue result ↔ IsWithinLimits 1 rows cols }
{
    rows <= u64::from(MOST_ROWS)
        && cols <= u64::from(MOST_COLS)
        && within_limits(1, rows as u32, cols as u32)
}

/// The most rows that a matrix over GF(2) of so many columns has within the limits.
pub fn most_rows(cols: u32) -> u32
    requires { cols ≤ MOST_COLS }
    ensures some { 0 < result }
    ensures within { IsWithinLimits 1 result cols }
    ensures most { IsWithinLimits 1 (result + 1) cols → ⊥ }
{
    let words = u64::from(words_for(cols));
    if words == 0 {
        MOST_ROWS
    } else {
        MOST_ROWS.min((MOST_WORDS / words) as u32)
    }
}
