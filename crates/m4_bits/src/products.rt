//! Rows of words that hold small numbers, side by side: multiples of them are added to another row.
ghost use Rattle.std.specs.Prelude.{◌≡◌, ℕ, ◌<◌, ◌≤◌, bit_xor, length, slice_index};
ghost use Rattle.m4_model.specs.Matrix.{row_sum};
ghost use Rattle.m4_bits.specs.Bits.{bit, masked};
ghost use Rattle.m4_bits.specs.Products.{products, row_products};

use super::merge;

/// Adds to the row `dst`, from column `first` on, the products of the words of `src`, a row of as many words: for each `i` the
/// bits of pattern `i`, at the `N` places from each one of `low` on where the word, shifted down by `i`, has a one.
///
/// With `low` the lowest bits of numbers of `N` bits that stand side by side, and a pattern that has one factor at each of
/// them, each number becomes the sum of the patterns of its bits. Of the last words the bits of `last` are read and changed
/// alone. Every bit before `first` stays.
pub fn add_products<const N: usize>(
    dst: &mut [u64],
    src: &[u64],
    first: u32,
    last: u64,
    low: u64,
    patterns: &[u64; N],
)
    requires same { length dst.old ≡ length src.now }
    requires few { N < 64 }
    ensures long { length dst.new ≡ length dst.old }
    ensures added { (k : ℕ) → first ≤ k → bit dst.new k ≡ bit (row_sum dst.old (masked (row_products N low patterns.now src.now last) last)) k }
    ensures kept { (k : ℕ) → k < first → bit dst.new k ≡ bit dst.old k }
{
    let place = (first / 64) as usize;
    if place >= dst.len() {
        return;
    }
    let end = dst.len() - 1;
    let head = dst[place];
    let tail = dst[end];
    add_whole_words(dst, src, place, low, patterns);
    dst[end] = merge(
        tail,
        tail ^ product_of(src[end] & last, low, patterns),
        last,
    );
    dst[place] = merge(head, dst[place], u64::MAX << (first % 64));
}

/// Adds the products of the words of `src` to those of `dst`, from word `from` on.
#[inline(always)]
fn add_whole_words<const N: usize>(
    dst: &mut [u64],
    src: &[u64],
    from: usize,
    low: u64,
    patterns: &[u64; N],
)
    requires same { length dst.old ≡ length src.now }
    requires few { N < 64 }
    ensures long { length dst.new ≡ length dst.old }
    ensures added { (k : ℕ) → from ≤ k → k < length dst.old → slice_index dst.new k ≡ bit_xor (slice_index dst.old k) (products N low patterns.now (slice_index src.now k)) }
    ensures kept { (k : ℕ) → k < from → slice_index dst.new k ≡ slice_index dst.old k }
{
    for k in from..dst.len() {
        dst[k] ^= product_of(src[k], low, patterns);
    }
}

/// The product of one word: the sum, for each `i`, of the bits of pattern `i` at the `N` places from each one of `low` on where
/// the word, shifted down by `i`, has a one. The places are filled by a shift and a difference, which the processor has for
/// many words at once, as it has no product of so many bits.
#[inline(always)]
pub fn product_of<const N: usize>(word: u64, low: u64, patterns: &[u64; N]) -> u64
    requires { N < 64 }
    ensures { result ≡ products N low patterns.now word }
{
    let mut sum = 0;
    for i in 0..N {
        let ones = (word >> i) & low;
        sum ^= (ones << N).wrapping_sub(ones) & patterns[i];
    }
    sum
}
