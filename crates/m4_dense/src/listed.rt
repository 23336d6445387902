//! Matrices over GF(2) from lists of their rows.

ghost use Rattle.std.specs.Prelude.{◌≡◌, ◌^◌, ◌≤◌, length, map, IfOk};
ghost use Rattle.m4_model.specs.Field.{gf2};
ghost use Rattle.m4_model.specs.Text.{words_per_row};
ghost use Rattle.m4_mzd.specs.Shown.{bits_within};
ghost use Rattle.m4_mzd.specs.Rows.{bits_of_digits};

use m4_model::NoMemory;
use m4_mzd::{MOST_SIDE, Mzd};
use m4_mzed::Mzed;
use std::alloc::Global;

/// The matrix over GF(2) of these rows of digits, as `&[*b"101", *b"011"]`: an entry is 1 where the digit is `1`, and else
/// 0.
pub fn from_digits<const N: usize>(alloc: Global, rows: &[[u8; N]]) -> Result<Mzed, NoMemory>
    requires few_rows { length rows.now ≤ MOST_SIDE }
    requires few_cols { N ≤ MOST_SIDE }
    ensures { IfOk result (λ m. m ≡ record { field = gf2; rows = length rows.now; cols = N; entries = map bits_of_digits rows.now }) }
{
    Ok(Mzed::of_bits(Mzd::from_digits(alloc, rows)?))
}

/// The matrix over GF(2) of these rows of words: the entry in column `64 w + j` is bit `j` of a row's word `w`. The bits
/// past the last column are left out.
pub fn from_words<const W: usize>(
    alloc: Global,
    cols: u32,
    rows: &[[u64; W]],
) -> Result<Mzed, NoMemory>
    requires few_rows { length rows.now ≤ MOST_SIDE }
    requires few_cols { cols ≤ MOST_SIDE }
    requires wide { W ≡ words_per_row cols }
    ensures { IfOk result (λ m. m ≡ record { field = gf2; rows = length rows.now; cols = cols; entries = map (bits_within cols) rows.now }) }
{
    Ok(Mzed::of_bits(Mzd::from_words(alloc, cols, rows)?))
}
