//! Matrices from lists of their rows.

ghost use Rattle.std.specs.Prelude.{◌≡◌, ◌^◌, ◌≤◌, length, map, IfOk};
ghost use Rattle.m4_model.specs.Field.{gf2};
ghost use Rattle.m4_model.specs.Text.{words_per_row};
ghost use Rattle.m4_mzd.specs.Shown.{bits_within};
ghost use Rattle.m4_mzd.specs.Rows.{bits_of_digits};

use super::Mzd;
use crate::MOST_SIDE;
use m4_model::NoMemory;
use std::alloc::Global;

impl Mzd {
    /// The matrix of these rows of words: the entry in column `64 w + j` is bit `j` of a row's word `w`. The bits past the
    /// last column are left out.
    pub fn from_words<const W: usize>(
        alloc: Global,
        cols: u32,
        rows: &[[u64; W]],
    ) -> Result<Mzd, NoMemory>
        requires few_rows { length rows.now ≤ MOST_SIDE }
        requires few_cols { cols ≤ MOST_SIDE }
        requires wide { W ≡ words_per_row cols }
        ensures { IfOk result (λ m. m ≡ record { field = gf2; rows = length rows.now; cols = cols; entries = map (bits_within cols) rows.now }) }
    {
        let mut m = Mzd::zeros(alloc, rows.len() as u32, cols)?;
        let (mut whole, home) = m.all_mut();
        whole.write_rows(rows);
        m.put_all(whole, home);
        Ok(m)
    }

    /// The matrix of these rows of digits, as `&[*b"101", *b"011"]`: the entry is 1 where the digit is `1`, and else 0.
    pub fn from_digits<const N: usize>(alloc: Global, rows: &[[u8; N]]) -> Result<Mzd, NoMemory>
        requires few_rows { length rows.now ≤ MOST_SIDE }
        requires few_cols { N ≤ MOST_SIDE }
        ensures { IfOk result (λ m. m ≡ record { field = gf2; rows = length rows.now; cols = N; entries = map bits_of_digits rows.now }) }
    {
        let mut m = Mzd::zeros(alloc, rows.len() as u32, N as u32)?;
        let (mut whole, home) = m.all_mut();
        whole.write_digits(rows);
        m.put_all(whole, home);
        Ok(m)
    }
}
