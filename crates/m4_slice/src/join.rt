//! Slices put together to packed elements.

ghost use Rattle.std.specs.Prelude.{◌≡◌, ℕ, ◌+◌, ◌*◌, ◌/◌, ◌<◌, ◌≤◌, ◌==◌, ◌||◌, IsTrue, nat_lt, if◌then◌else◌};
ghost use Rattle.std.specs.Int.{bit_at};
ghost use Rattle.m4_model.specs.Matrix.{added, at, row, row_sum, with_row};
ghost use Rattle.m4_model.specs.Text.{words_per_row};
ghost use Rattle.m4_mzd.specs.Window.{content as bit_content, showing as bit_showing};
ghost use Rattle.m4_mzd.specs.Seen.{shown};
ghost use Rattle.m4_mzed.specs.EWindow.{content, showing};
ghost use Rattle.m4_slice.specs.Sliced.{joined, bits_spread};

use crate::word::spread;
use m4_bits::words_for;
use m4_mzd::{Win, WinMut};
use m4_mzed::EWinMut;

/// Adds the matrix whose slices lie in a window, one below the other, to `dst`. Each slice has as many rows and columns as `dst`,
/// and there are as many of them as the field's degree tells.
pub fn add_slices(dst: &mut EWinMut, slices: &Win)
    requires rows { (shown slices.now).rows ≡ dst.old.field.degree * dst.old.rows }
    requires cols { (shown slices.now).cols ≡ dst.old.cols }
    ensures { dst.new ≡ showing dst.old (added (content dst.old) (joined dst.old.field dst.old.field.degree dst.old.rows (shown slices.now))) }
{
    let field = dst.field();
    let cols = dst.cols();
    let degree = field.e();
    let width = field.width();
    let mut bits = dst.take().into_packed();
    let _rows = bits.rows();
    let _slice_rows = slices.rows();
    spread_slices(&mut bits, slices, degree, width);
    let _new_rows = bits.rows();
    dst.put_back(EWinMut::of_packed(field, cols, bits));
}

/// The same to the bits of packed elements, of which each takes `width` bits.
fn spread_slices(dst: &mut WinMut, slices: &Win, count: u32, width: u32)
    requires widths { IsTrue (width == 1 || width == 2 || width == 4 || width == 8 || width == 16) }
    requires few { count ≤ width }
    requires rows { (shown slices.now).rows ≡ count * dst.old.rows }
    requires cols { dst.old.cols ≡ (shown slices.now).cols * width }
    ensures { dst.new ≡ bit_showing dst.old (added (bit_content dst.old) (bits_spread width count dst.old.rows (shown slices.now))) }
{
    let rows = dst.rows();
    for i in 0..rows {
        spread_row(dst, i, slices, rows, count, width);
    }
}

/// Adds row `i` of the packed numbers to row `i`: the bits of row `i` of each slice of `rows` rows, each at its place.
fn spread_row(dst: &mut WinMut, i: u32, slices: &Win, rows: u32, count: u32, width: u32)
    requires widths { IsTrue (width == 1 || width == 2 || width == 4 || width == 8 || width == 16) }
    requires few { count ≤ width }
    requires in_rows { i < dst.old.rows }
    requires same_rows { dst.old.rows ≡ rows }
    requires rows { (shown slices.now).rows ≡ count * rows }
    requires cols { dst.old.cols ≡ (shown slices.now).cols * width }
    ensures { dst.new ≡ bit_showing dst.old (with_row (bit_content dst.old) i (row_sum (row (bit_content dst.old) i) (row (bits_spread width count rows (shown slices.now)) i))) }
{
    let _rows = dst.rows();
    let _slice_rows = slices.rows();
    for q in 0..words_for(dst.cols()) {
        let word = dst.word(i, q) ^ spread_word(slices, i, q, rows, count, width);
        dst.set_word(i, q, word);
    }
}

/// The bits of row `i` of each slice that belong to word `q` of the packed row.
#[inline]
fn spread_word(slices: &Win, i: u32, q: u32, rows: u32, count: u32, width: u32) -> u64
    requires widths { IsTrue (width == 1 || width == 2 || width == 4 || width == 8 || width == 16) }
    requires few { count ≤ width }
    requires in_slice { i < rows }
    requires rows { (shown slices.now).rows ≡ count * rows }
    requires in_words { q / width < words_per_row (shown slices.now).cols }
    ensures { (r v : ℕ) → r < 64 / width → v < width → bit_at result (r * width + v) ≡ (if nat_lt v count then at (shown slices.now) (v * rows + i) (q * (64 / width) + r) else 0) }
{
    let _slice_rows = slices.rows();
    let far = q % width * (64 / width);
    let mut word = 0u64;
    for v in 0..count {
        word |= spread(slices.word(v * rows + i, q / width) >> far, width) << v;
    }
    word
}
