//! Rows of bits that hold elements: multiples of one are added to another, a row is scaled, and an element is written.

ghost use Rattle.std.specs.Prelude.{◌≡◌, ℕ, ◌+◌, ◌*◌, ◌/◌, ◌%◌, ◌^◌, ◌<◌, ◌≤◌, ◌==◌, bit_xor, if◌then◌else◌};
ghost use Rattle.std.specs.Int.{bit_at};
ghost use Rattle.m4_model.specs.Field.{width};
ghost use Rattle.m4_model.specs.Matrix.{at, row, with_row};
ghost use Rattle.m4_field.specs.Fields.{the_field};
ghost use Rattle.m4_mzd.specs.Window.{content, showing};
ghost use Rattle.m4_mzd.specs.Seen.{shown};
ghost use Rattle.m4_mzd.specs.Rows.{sum_from};
ghost use Rattle.m4_mzed.specs.Packed.{unpacked, IsPackedRow};
ghost use Rattle.m4_mzed.specs.Rows.{packed_multiples};

use crate::word::{factors, ones, patterns};
use m4_bits::{product_of, words_for};
use m4_field::Field;
use m4_mzd::{Win, WinMut};

/// Adds `x` times row `s` of `from`, which holds `cols` elements, to row `r`, in the columns from `c` on.
pub(crate) fn add_scaled(
    f: &Field,
    cols: u32,
    bits: &mut WinMut,
    r: u32,
    from: &Win,
    s: u32,
    x: u32,
    c: u32,
)
    requires in_rows { r < bits.old.rows }
    requires in_from { s < (shown from.now).rows }
    requires wide { bits.old.cols ≡ cols * width (the_field f.now) }
    requires same_cols { (shown from.now).cols ≡ bits.old.cols }
    requires source { IsPackedRow (the_field f.now) cols (row (shown from.now) s) }
    requires element { x < 2 ^ (the_field f.now).degree }
    requires in_cols { c ≤ cols }
    ensures { bits.new ≡ showing bits.old (with_row (content bits.old) r (sum_from (c * width (the_field f.now)) (row (content bits.old) r) (packed_multiples (the_field f.now) cols x (row (shown from.now) s)))) }
{
    let _rows = bits.rows();
    let _from = from.rows();
    let first = c * f.width();
    if x == 1 {
        bits.add_tail(r, from, s, first);
    } else if x != 0 {
        add_products(f, cols, bits, r, from, s, x, first);
    }
}

/// The same for any `x`, from bit `first` on, by the kernel that is made for the width.
fn add_products(
    f: &Field,
    cols: u32,
    bits: &mut WinMut,
    r: u32,
    from: &Win,
    s: u32,
    x: u32,
    first: u32,
)
    requires in_rows { r < bits.old.rows }
    requires in_from { s < (shown from.now).rows }
    requires wide { bits.old.cols ≡ cols * width (the_field f.now) }
    requires same_cols { (shown from.now).cols ≡ bits.old.cols }
    requires source { IsPackedRow (the_field f.now) cols (row (shown from.now) s) }
    requires element { x < 2 ^ (the_field f.now).degree }
    requires in_cols { first ≤ bits.old.cols }
    ensures { bits.new ≡ showing bits.old (with_row (content bits.old) r (sum_from first (row (content bits.old) r) (packed_multiples (the_field f.now) cols x (row (shown from.now) s)))) }
{
    let _degree = f.e();
    match f.width() {
        1 => add_by::<1>(f, cols, bits, r, from, s, x, first),
        2 => add_by::<2>(f, cols, bits, r, from, s, x, first),
        4 => add_by::<4>(f, cols, bits, r, from, s, x, first),
        8 => add_by::<8>(f, cols, bits, r, from, s, x, first),
        _ => add_by::<16>(f, cols, bits, r, from, s, x, first),
    }
}

/// The same for elements of `N` bits.
fn add_by<const N: usize>(
    f: &Field,
    cols: u32,
    bits: &mut WinMut,
    r: u32,
    from: &Win,
    s: u32,
    x: u32,
    first: u32,
)
    requires elements { N ≡ width (the_field f.now) }
    requires in_rows { r < bits.old.rows }
    requires in_from { s < (shown from.now).rows }
    requires wide { bits.old.cols ≡ cols * width (the_field f.now) }
    requires same_cols { (shown from.now).cols ≡ bits.old.cols }
    requires source { IsPackedRow (the_field f.now) cols (row (shown from.now) s) }
    requires element { x < 2 ^ (the_field f.now).degree }
    requires in_cols { first ≤ bits.old.cols }
    ensures { bits.new ≡ showing bits.old (with_row (content bits.old) r (sum_from first (row (content bits.old) r) (packed_multiples (the_field f.now) cols x (row (shown from.now) s)))) }
{
    let _from = from.rows();
    let low = ones(f.width());
    let list = patterns(low, &factors::<N>(f, x));
    bits.add_products(r, from, s, first, low, &list);
}

/// Adds `d` to element `c` of row `r`.
pub(crate) fn add_to_element(f: &Field, cols: u32, bits: &mut WinMut, r: u32, c: u32, d: u32)
    requires in_rows { r < bits.old.rows }
    requires wide { bits.old.cols ≡ cols * width (the_field f.now) }
    requires in_cols { c < cols }
    requires element { d < 2 ^ width (the_field f.now) }
    ensures kept { bits.new ≡ showing bits.old (with_row (content bits.old) r (row (content bits.new) r)) }
    ensures entries { (p : ℕ) → p < bits.old.cols → at (content bits.new) r p ≡ bit_xor (at (content bits.old) r p) (bit_at (if p / width (the_field f.now) == c then d else 0) (p % width (the_field f.now))) }
{
    let _rows = bits.rows();
    let place = c * f.width();
    let w = place / 64;
    let sum = bits.word(r, w) ^ (u64::from(d) << (place % 64));
    bits.set_word(r, w, sum);
}

/// Makes row `r`, which holds `cols` elements, `x` times what it was.
pub(crate) fn scale(f: &Field, cols: u32, bits: &mut WinMut, r: u32, x: u32)
    requires in_rows { r < bits.old.rows }
    requires wide { bits.old.cols ≡ cols * width (the_field f.now) }
    requires source { IsPackedRow (the_field f.now) cols (row (content bits.old) r) }
    requires element { x < 2 ^ (the_field f.now).degree }
    ensures { bits.new ≡ showing bits.old (with_row (content bits.old) r (packed_multiples (the_field f.now) cols x (row (content bits.old) r))) }
{
    let _degree = f.e();
    match f.width() {
        1 => scale_by::<1>(f, cols, bits, r, x),
        2 => scale_by::<2>(f, cols, bits, r, x),
        4 => scale_by::<4>(f, cols, bits, r, x),
        8 => scale_by::<8>(f, cols, bits, r, x),
        _ => scale_by::<16>(f, cols, bits, r, x),
    }
}

/// The same for elements of `N` bits.
fn scale_by<const N: usize>(f: &Field, cols: u32, bits: &mut WinMut, r: u32, x: u32)
    requires elements { N ≡ width (the_field f.now) }
    requires in_rows { r < bits.old.rows }
    requires wide { bits.old.cols ≡ cols * width (the_field f.now) }
    requires source { IsPackedRow (the_field f.now) cols (row (content bits.old) r) }
    requires element { x < 2 ^ (the_field f.now).degree }
    ensures { bits.new ≡ showing bits.old (with_row (content bits.old) r (packed_multiples (the_field f.now) cols x (row (content bits.old) r))) }
{
    let _rows = bits.rows();
    let low = ones(f.width());
    let list = patterns(low, &factors::<N>(f, x));
    for w in 0..words_for(bits.cols()) {
        let product = product_of(bits.word(r, w), low, &list);
        bits.set_word(r, w, product);
    }
}
