//! Which entry of each table stands for a row of the first factor.

ghost use Rattle.std.specs.Prelude.{◌≡◌, ℕ, ◌+◌, ◌*◌, ◌%◌, ◌^◌, ◌<◌, ◌≤◌, length};
ghost use Rattle.std.specs.Int.{bit_at};
ghost use Rattle.m4_mzd.specs.Seen.{shown};
ghost use Rattle.m4_mul.specs.Parts.{IsIndex};

use m4_gray::{MOST_K, MOST_TABLES};
use m4_mzd::Win;

/// Which entry of each slot stands for row `i` of `a`: the bits of the row in the columns of the slot.
#[inline(always)]
pub(crate) fn index_of<const T: usize>(a: &Win, i: u32, first: u32, width: u32, k: u32) -> [u32; T]
    requires small_k { k ≤ MOST_K }
    requires few { T ≤ MOST_TABLES }
    requires no_more { T * k < width + k }
    requires in_rows { i < (shown a.now).rows }
    requires in_cols { first + width ≤ (shown a.now).cols }
    ensures long { length result ≡ T }
    ensures index { IsIndex result (shown a.now) i first width k T }
{
    if k == 8 && width == 64 && first % 64 == 0 {
        bytes_of::<T>(a, i, first)
    } else {
        bits_of::<T>(a, i, first, width, k)
    }
}

/// The same for slots of eight columns each, the first at the beginning of a word: the bytes of that word.
#[inline(always)]
fn bytes_of<const T: usize>(a: &Win, i: u32, first: u32) -> [u32; T]
    requires few { T ≤ MOST_TABLES }
    requires whole_words { first % 64 ≡ 0 }
    requires in_rows { i < (shown a.now).rows }
    requires in_cols { first + 64 ≤ (shown a.now).cols }
    ensures long { length result ≡ T }
    ensures index { IsIndex result (shown a.now) i first 64 8 T }
{
    let word = a.word(i, first / 64);
    let mut index = [0; T];
    for slot in 0..T {
        index[slot] = byte_of(word, slot as u32);
    }
    index
}

/// Byte `slot` of a word: its bits from number `8 slot` on.
#[inline(always)]
fn byte_of(word: u64, slot: u32) -> u32
    requires { slot < 8 }
    ensures bits { (u : ℕ) → u < 8 → bit_at result u ≡ bit_at word (slot * 8 + u) }
    ensures small { result < 2 ^ 8 }
{
    (word >> (slot * 8) & 255) as u32
}

/// The same for slots of any size, bit by bit of each.
#[inline(always)]
fn bits_of<const T: usize>(a: &Win, i: u32, first: u32, width: u32, k: u32) -> [u32; T]
    requires small_k { k ≤ MOST_K }
    requires few { T ≤ MOST_TABLES }
    requires no_more { T * k < width + k }
    requires in_rows { i < (shown a.now).rows }
    requires in_cols { first + width ≤ (shown a.now).cols }
    ensures long { length result ≡ T }
    ensures index { IsIndex result (shown a.now) i first width k T }
{
    let mut index = [0; T];
    for slot in 0..T {
        let begin = slot as u32 * k;
        index[slot] = a.bits(i, first + begin, k.min(width - begin));
    }
    index
}
