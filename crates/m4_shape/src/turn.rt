//! The transpose, by blocks of 64 x 64 bits that are turned in registers, in an order that is kind to each cache: the matrix
//! is halved until a part is one block wide (Frigo, Leiserson, Prokop and Ramachandran, "Cache-oblivious algorithms", 1999;
//! a block is turned as in Warren's "Hacker's Delight", section 7-3).

ghost use Rattle.std.specs.Prelude.{◌≡◌, ◌+◌, ◌/◌, ◌%◌, ◌<◌, ◌≤◌, IfOk};
ghost use Rattle.m4_model.specs.Shapes.{transposed};
ghost use Rattle.m4_mzd.specs.Window.{content, showing};
ghost use Rattle.m4_mzd.specs.Seen.{shown};

use m4_bits::{transpose_64, words_for};
use m4_model::NoMemory;
use m4_mzd::{Mzd, Win, WinMut};
use std::alloc::Global;

/// The most rows of a part that is turned block by block: its turned blocks fill whole lines of a cache.
const STRIP: u32 = 512;

/// The transpose of `a`.
pub fn transpose(alloc: Global, a: &Win) -> Result<Mzd, NoMemory>
    ensures { IfOk result (λ m. m ≡ transposed (shown a.now)) }
{
    let mut m = Mzd::zeros(alloc, a.cols(), a.rows())?;
    let (whole, home) = m.all_mut();
    m.put_all(turned_in(whole, *a), home);
    Ok(m)
}

/// The window `dst` with the transpose of `a` in it.
fn turned_in(dst: WinMut, a: Win<'_>) -> WinMut
    requires rows { dst.rows ≡ (shown a).cols }
    requires cols { dst.cols ≡ (shown a).rows }
    ensures { result ≡ showing dst (transposed (shown a.entry)) }
{
    let rows = a.rows();
    let cols = a.cols();
    if cols > 64 && (rows <= STRIP || rows <= cols) {
        let half = border(cols);
        let (left, right) = a.split_cols(half);
        let (top, bottom) = dst.split_rows(half);
        turned_in(top, left).join_rows(turned_in(bottom, right))
    } else if rows > STRIP {
        let half = border(rows);
        let (above, below) = a.split_rows(half);
        let (left, right) = dst.split_cols(half);
        turned_in(left, above).join_cols(turned_in(right, below))
    } else {
        let mut dst = dst;
        turn_blocks(&mut dst, &a);
        dst
    }
}

/// The first border of words that is not before the middle.
fn border(n: u32) -> u32
    requires { 64 < n }
    ensures some { 0 < result }
    ensures within { result < n }
    ensures whole_words { result % 64 ≡ 0 }
    ensures not_before_middle { n / 2 ≤ result }
    ensures first { result < n / 2 + 64 }
{
    (n / 2).div_ceil(64) * 64
}

/// Turns a matrix that is at most one block wide, block by block.
fn turn_blocks(dst: &mut WinMut, a: &Win)
    requires rows { dst.old.rows ≡ (shown a.now).cols }
    requires cols { dst.old.cols ≡ (shown a.now).rows }
    requires one_block { (shown a.now).cols ≤ 64 }
    ensures { dst.new ≡ showing dst.old (transposed (shown a.now)) }
{
    let _rows = dst.rows();
    if a.cols() == 0 {
        return;
    }
    let mut block = [0u64; 64];
    for w in 0..words_for(a.rows()) {
        a.read_words(w * 64, 0, &mut block);
        transpose_64(&mut block);
        dst.set_words(w, &block);
    }
}
