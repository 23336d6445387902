//! Packed elements taken apart into slices.

ghost use Rattle.std.specs.Prelude.{◌≡◌, ℕ, ◌+◌, ◌*◌, ◌<◌, ◌≤◌, ◌==◌, ◌||◌, IsTrue};
ghost use Rattle.std.specs.Int.{bit_at};
ghost use Rattle.m4_model.specs.Matrix.{at, row, with_row};
ghost use Rattle.m4_mzd.specs.declared.TheConstants.{MOST_SIDE};
ghost use Rattle.m4_mzd.specs.Window.{content, showing};
ghost use Rattle.m4_mzd.specs.Seen.{shown};
ghost use Rattle.m4_mzed.specs.ESeen.{e_shown};
ghost use Rattle.m4_slice.specs.Sliced.{sliced, bits_gathered};

use crate::word::gather;
use m4_bits::words_for;
use m4_mzd::{Win, WinMut};
use m4_mzed::EWin;

/// Writes the slices of `a` into a window, one below the other: each has as many rows and columns as `a`, and there are as many
/// of them as the field's degree tells.
pub fn load_slices(slices: &mut WinMut, a: &EWin)
    requires rows { slices.old.rows ≡ (e_shown a.now).field.degree * (e_shown a.now).rows }
    requires cols { slices.old.cols ≡ (e_shown a.now).cols }
    ensures { slices.new ≡ showing slices.old (sliced (e_shown a.now)) }
{
    let field = a.field();
    let _rows = a.rows();
    let source = a.packed();
    let _source_rows = source.rows();
    gather_slices(slices, &source, field.e(), field.width());
}

/// The same from the bits of the packed elements: the first `count` bits of each number of `width` bits.
fn gather_slices(slices: &mut WinMut, a: &Win, count: u32, width: u32)
    requires widths { IsTrue (width == 1 || width == 2 || width == 4 || width == 8 || width == 16) }
    requires few { count ≤ width }
    requires rows { slices.old.rows ≡ count * (shown a.now).rows }
    requires cols { (shown a.now).cols ≡ slices.old.cols * width }
    ensures { slices.new ≡ showing slices.old (bits_gathered width count (shown a.now)) }
{
    let _rows = slices.rows();
    for p in 0..slices.rows() {
        gather_row(slices, p, a, count, width);
    }
}

/// Writes row `p` of the slices: one bit of each number in a row.
fn gather_row(slices: &mut WinMut, p: u32, a: &Win, count: u32, width: u32)
    requires widths { IsTrue (width == 1 || width == 2 || width == 4 || width == 8 || width == 16) }
    requires few { count ≤ width }
    requires in_slices { p < slices.old.rows }
    requires rows { slices.old.rows ≡ count * (shown a.now).rows }
    requires cols { (shown a.now).cols ≡ slices.old.cols * width }
    ensures { slices.new ≡ showing slices.old (with_row (content slices.old) p (row (bits_gathered width count (shown a.now)) p)) }
{
    let _slice_rows = slices.rows();
    let rows = a.rows();
    let (v, r) = (p / rows, p % rows);
    for k in 0..words_for(slices.cols()) {
        let word = gathered_word(a, r, k, v, width);
        slices.set_word(p, k, word);
    }
}

/// Bit `v` of each of the 64 numbers of `width` bits from number `64 k` of row `r` on.
#[inline]
fn gathered_word(a: &Win, r: u32, k: u32, v: u32, width: u32) -> u64
    requires widths { IsTrue (width == 1 || width == 2 || width == 4 || width == 8 || width == 16) }
    requires in_rows { r < (shown a.now).rows }
    requires bit { v < width }
    requires few { k ≤ MOST_SIDE }
    ensures { (j : ℕ) → j < 64 → (k * 64 + j) * width + v < (shown a.now).cols → bit_at result j ≡ at (shown a.now) r ((k * 64 + j) * width + v) }
{
    let count = 64 / width;
    let first = k * width;
    let end = (first + width).min(words_for(a.cols()));
    let mut word = 0u64;
    for q in first..end {
        word |= gather(a.word(r, q) >> v, width) << ((q - first) * count);
    }
    word
}
