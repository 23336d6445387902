//! The transpose over any field, by square blocks of elements that are turned in registers, in an order that is kind to each
//! cache: the matrix is halved until a part is one block wide (Frigo, Leiserson, Prokop and Ramachandran, "Cache-oblivious
//! algorithms", 1999; a block is turned as in Warren's "Hacker's Delight", section 7-3).

ghost use Rattle.std.specs.Prelude.{◌≡◌, ◌+◌, ◌*◌, ◌/◌, ◌%◌, ◌<◌, ◌≤◌, ◌==◌, ◌||◌, length, IfOk, IsTrue};
ghost use Rattle.m4_model.specs.Field.{width};
ghost use Rattle.m4_model.specs.Shapes.{transposed};
ghost use Rattle.m4_field.specs.Fields.{the_field};
ghost use Rattle.m4_mzd.specs.Window.{content as bit_content, showing as bit_showing};
ghost use Rattle.m4_mzd.specs.Seen.{shown};
ghost use Rattle.m4_mzed.specs.EWindow.{content, showing};
ghost use Rattle.m4_mzed.specs.ESeen.{e_shown};
ghost use Rattle.m4_eshape.specs.Turned.{numbers_turned};

use m4_bits::{transpose_numbers, words_for};
use m4_field::Field;
use m4_model::NoMemory;
use m4_mzd::{MOST_SIDE, Win, WinMut};
use m4_mzed::{EWin, EWinMut, Mzed};
use m4_shape::transpose;
use std::alloc::Global;

/// The most blocks, one over the other, of a part that is turned block by block: the words of their turned rows fill whole lines
/// of a cache.
const STRIP: u32 = 8;

/// The transpose of `a`.
pub fn etranspose(alloc: Global, a: &EWin) -> Result<Mzed, NoMemory>
    requires few_rows { (e_shown a.now).cols ≤ MOST_SIDE }
    requires few_bits { (e_shown a.now).rows * width (e_shown a.now).field ≤ MOST_SIDE }
    ensures { IfOk result (λ m. m ≡ transposed (e_shown a.now)) }
{
    if a.field().e() == 1 {
        Ok(Mzed::of_bits(transpose(alloc, &a.into_bits())?))
    } else {
        turned_by_blocks(alloc, a)
    }
}

/// The transpose, by blocks of elements.
fn turned_by_blocks(alloc: Global, a: &EWin) -> Result<Mzed, NoMemory>
    requires few_rows { (e_shown a.now).cols ≤ MOST_SIDE }
    requires few_bits { (e_shown a.now).rows * width (e_shown a.now).field ≤ MOST_SIDE }
    ensures { IfOk result (λ m. m ≡ transposed (e_shown a.now)) }
{
    let mut m = Mzed::zeros(alloc, a.field(), a.cols(), a.rows())?;
    let (whole, home) = m.all_mut();
    m.put_all(turned_in(whole, *a), home);
    Ok(m)
}

/// The window `dst` with the transpose of `a` in it.
fn turned_in(dst: EWinMut, a: EWin<'_>) -> EWinMut
    requires field { dst.field ≡ (e_shown a).field }
    requires rows { dst.rows ≡ (e_shown a).cols }
    requires cols { dst.cols ≡ (e_shown a).rows }
    ensures { result ≡ showing dst (transposed (e_shown a.entry)) }
{
    let rows = a.rows();
    let cols = a.cols();
    let side = side_of(&a.field());
    if cols > side && (rows <= STRIP * side || rows <= cols) {
        let half = border(cols, side);
        let (left, right) = a.split_cols(half);
        let (top, bottom) = dst.split_rows(half);
        turned_in(top, left).join_rows(turned_in(bottom, right))
    } else if rows > STRIP * side {
        let half = border(rows, side);
        let (above, below) = a.split_rows(half);
        let (left, right) = dst.split_cols(half);
        turned_in(left, above).join_cols(turned_in(right, below))
    } else {
        let mut dst = dst;
        turn_blocks(&mut dst, &a);
        dst
    }
}

/// How many elements a word holds.
fn side_of(field: &Field) -> u32
    ensures word { result * width (the_field field.now) ≡ 64 }
    ensures some { 1 ≤ result }
    ensures few { result ≤ 64 }
{
    64 / field.width()
}

/// The border after half of the blocks of `side` that `n` reaches into.
fn border(n: u32, side: u32) -> u32
    requires some_side { 1 ≤ side }
    requires more { side < n }
    ensures some { 0 < result }
    ensures within { result < n }
    ensures whole_blocks { result % side ≡ 0 }
{
    n.div_ceil(side) / 2 * side
}

/// Turns a matrix that is at most one block wide, block by block.
fn turn_blocks(dst: &mut EWinMut, a: &EWin)
    requires field { dst.old.field ≡ (e_shown a.now).field }
    requires rows { dst.old.rows ≡ (e_shown a.now).cols }
    requires cols { dst.old.cols ≡ (e_shown a.now).rows }
    requires one_block { (e_shown a.now).cols * width (e_shown a.now).field ≤ 64 }
    ensures { dst.new ≡ showing dst.old (transposed (e_shown a.now)) }
{
    let field = dst.field();
    let cols = dst.cols();
    let mut bits = dst.take().into_packed();
    let _rows = bits.rows();
    let source = a.packed();
    let _source_rows = source.rows();
    turn_numbers(&mut bits, &source, field.width());
    let _new_rows = bits.rows();
    dst.put_back(EWinMut::of_packed(field, cols, bits));
}

/// Turns numbers of `width` bits that are packed in the rows of a matrix of bits, at most as many to a row as a word holds.
fn turn_numbers(dst: &mut WinMut, a: &Win, width: u32)
    requires widths { IsTrue (width == 1 || width == 2 || width == 4 || width == 8 || width == 16) }
    requires rows { dst.old.rows * width ≡ (shown a.now).cols }
    requires cols { dst.old.cols ≡ (shown a.now).rows * width }
    requires one_block { (shown a.now).cols ≤ 64 }
    ensures { dst.new ≡ bit_showing dst.old (numbers_turned width (shown a.now)) }
{
    let mut room = [0u64; 64];
    turn_in_room(dst, a, width, &mut room[..(64 / width) as usize]);
}

/// The same, in room for a block.
fn turn_in_room(dst: &mut WinMut, a: &Win, width: u32, block: &mut [u64])
    requires widths { IsTrue (width == 1 || width == 2 || width == 4 || width == 8 || width == 16) }
    requires room { length block.old ≡ 64 / width }
    requires rows { dst.old.rows * width ≡ (shown a.now).cols }
    requires cols { dst.old.cols ≡ (shown a.now).rows * width }
    requires one_block { (shown a.now).cols ≤ 64 }
    ensures { dst.new ≡ bit_showing dst.old (numbers_turned width (shown a.now)) }
{
    let _rows = dst.rows();
    if a.cols() == 0 {
        return;
    }
    let side = 64 / width;
    for w in 0..words_for(dst.cols()) {
        a.read_words(w * side, 0, block);
        transpose_numbers(block, width);
        dst.set_words(w, block);
    }
}
