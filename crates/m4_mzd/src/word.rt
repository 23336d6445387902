//! One word of a row whose columns may end inside it.

ghost use Rattle.std.specs.Prelude.{◌≡◌, ◌≢◌, ℕ, ◌+◌, ◌*◌, ◌/◌, ◌%◌, ◌<◌, ◌≤◌, length, slice_index, nat_lt, if◌then◌else◌};
ghost use Rattle.std.specs.Int.{bit_at};
ghost use Rattle.m4_model.specs.Text.{words_per_row};
ghost use Rattle.m4_bits.specs.Bits.{bit};
ghost use Rattle.m4_mzd.specs.Shown.{bits_within};

use m4_bits::{mask, merge, words_for};

/// The bits of word `w` of a row that stand for its columns.
#[inline]
pub(crate) fn word_mask(cols: u32, w: u32) -> u64
    requires { w < words_per_row cols }
    ensures { (j : ℕ) → j < 64 → bit_at result j ≡ (if nat_lt (w * 64 + j) cols then 1 else 0) }
{
    if w == words_for(cols) - 1 {
        mask(cols)
    } else {
        u64::MAX
    }
}

/// Word `w` of a row, with 0 in place of the bits past its last column.
#[inline]
pub(crate) fn word_of(row: &[u64], cols: u32, w: u32) -> u64
    requires wide { length row.now ≡ words_per_row cols }
    requires in_row { w < words_per_row cols }
    ensures { (j : ℕ) → j < 64 → bit_at result j ≡ slice_index (bits_within cols row.now) (w * 64 + j) }
{
    row[w as usize] & word_mask(cols, w)
}

/// Writes word `w` of a row. The bits past its last column stay.
#[inline]
pub(crate) fn put_word(row: &mut [u64], cols: u32, w: u32, value: u64)
    requires wide { length row.old ≡ words_per_row cols }
    requires in_row { w < words_per_row cols }
    ensures written { (j : ℕ) → j / 64 ≡ w → j < cols → bit row.new j ≡ bit_at value (j % 64) }
    ensures others { (j : ℕ) → j / 64 ≢ w → bit row.new j ≡ bit row.old j }
    ensures kept { (j : ℕ) → cols ≤ j → bit row.new j ≡ bit row.old j }
{
    let bits = word_mask(cols, w);
    row[w as usize] = merge(row[w as usize], value, bits);
}
