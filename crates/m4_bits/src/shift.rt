//! Bits of one row copied into another at any place: two neighbouring words of the source make one of the destination.

ghost use Rattle.std.specs.Prelude.{◌≡◌, ℕ, ◌+◌, ◌-◌, ◌*◌, ◌/◌, ◌%◌, ◌^◌, ◌<◌, ◌≤◌, length, slice_index};
ghost use Rattle.std.specs.Int.{bit_at};
ghost use Rattle.m4_bits.specs.Bits.{bit};
ghost use Rattle.m4_bits.specs.Shift.{AreCopied};

use super::{mask, merge};

/// Copies `count` bits of the row `src`, from bit `from` on, over those of the row `dst` from bit `to` on. All other bits
/// stay.
pub fn copy_bits(dst: &mut [u64], to: u32, src: &[u64], from: u32, count: u32)
    requires room { to + count ≤ length dst.old * 64 }
    requires enough { from + count ≤ length src.now * 64 }
    requires to_small { to + count < 2 ^ 32 }
    requires from_small { from + count < 2 ^ 32 }
    ensures { AreCopied dst.old dst.new src.now to from count }
{
    let head = (64 - to % 64).min(count);
    let words = (count - head).saturating_sub(1) / 64;
    let done = head + 64 * words;
    copy_to_word(dst, to, src, from, head);
    copy_words(
        dst,
        ((to + head) / 64) as usize,
        src,
        from + head,
        words as usize,
    );
    copy_to_word(dst, to + done, src, from + done, count - done);
}

/// Copies at most 64 bits, all of them to one word.
#[inline]
fn copy_to_word(dst: &mut [u64], to: u32, src: &[u64], from: u32, count: u32)
    requires one_word { to % 64 + count ≤ 64 }
    requires room { to + count ≤ length dst.old * 64 }
    ensures { AreCopied dst.old dst.new src.now to from count }
{
    if count == 0 {
        return;
    }
    let place = (to / 64) as usize;
    let shift = to % 64;
    let new = word_from(src, from) << shift;
    dst[place] = merge(dst[place], new, mask(count) << shift);
}

/// Copies bits to `count` whole words from word `first` on.
#[inline]
fn copy_words(dst: &mut [u64], first: usize, src: &[u64], from: u32, count: usize)
    requires room { first + count ≤ length dst.old }
    requires enough { (k : ℕ) → k < count → from / 64 + k + 1 < length src.now }
    ensures { AreCopied dst.old dst.new src.now (first * 64) from (count * 64) }
{
    let place = (from / 64) as usize;
    let shift = from % 64;
    for k in 0..count {
        dst[first + k] = word_across(src[place + k], src[place + k + 1], shift);
    }
}

/// The 64 bits of the row from bit `from` on. Past the row's end they are 0.
#[inline]
fn word_from(row: &[u64], from: u32) -> u64
    ensures { (j : ℕ) → j < 64 → bit_at result j ≡ bit row.now (from + j) }
{
    let place = (from / 64) as usize;
    word_across(
        word_or_zero(row, place),
        word_or_zero(row, place + 1),
        from % 64,
    )
}

/// The word at a place, and 0 past the row's end.
#[inline]
fn word_or_zero(row: &[u64], place: usize) -> u64
    ensures { result ≡ slice_index row.now place }
{
    if place < row.len() { row[place] } else { 0 }
}

/// The 64 bits from bit `shift` on of two words, the lower one first.
#[inline(always)]
fn word_across(lower: u64, upper: u64, shift: u32) -> u64
    requires { shift < 64 }
    ensures lower { (j : ℕ) → shift + j < 64 → bit_at result j ≡ bit_at lower (shift + j) }
    ensures upper { (j : ℕ) → j < 64 → 64 ≤ shift + j → bit_at result j ≡ bit_at upper (shift + j - 64) }
{
    lower >> shift | upper << 1 << (63 - shift)
}

#[cfg(test)]
mod tests {
    use super::copy_bits;
    use crate::{get_bit, put_bit};
    use std::process::Abort;

    /// Four words of digits without an order.
    fn mixed(seed: u64) -> [u64; 4] {
        let mut row = [0u64; 4];
        let mut word = seed;
        for place in row.iter_mut() {
            *place = word;
            word ^= word << 13;
            word ^= word >> 7;
            word ^= word << 17;
        }
        row
    }

    /// A copy by words beside one bit by bit.
    fn copies<R: Abort>(rt: &R, to: u32, from: u32, count: u32)
        requires room { to + count ≤ 256 }
        requires enough { from + count ≤ 256 }
    {
        let src = mixed(0x9E37_79B9_7F4A_7C15);
        let mut dst = mixed(0xD1B5_4A32_D192_ED03);
        let mut expected = dst;
        for k in 0..count {
            put_bit(&mut expected, to + k, get_bit(&src, from + k));
        }
        copy_bits(&mut dst, to, &src, from, count);
        assert!(rt; dst == expected);
    }

    #[test]
    fn bits_at_borders_of_words(rt: HostRuntime) {
        let table: [(u32, u32, u32); 14] = [
            (0, 0, 0),
            (256, 256, 0),
            (0, 0, 256),
            (0, 1, 255),
            (1, 0, 255),
            (63, 64, 64),
            (64, 63, 65),
            (65, 62, 128),
            (64, 0, 64),
            (0, 64, 128),
            (5, 7, 1),
            (130, 1, 126),
            (3, 3, 250),
            (60, 10, 4),
        ];
        for (to, from, count) in table {
            if to <= 256 && from <= 256 && count <= 256 - to && count <= 256 - from {
                copies(&rt, to, from, count);
            }
        }
    }
}
