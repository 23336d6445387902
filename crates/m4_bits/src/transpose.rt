//! A block of 64 x 64 bits, or of numbers of a few bits each, turned over its diagonal by exchanging halves: Warren, Hacker's
//! Delight, section 7-3.

ghost use Rattle.std.specs.Prelude.{◌≡◌, ℕ, ◌+◌, ◌*◌, ◌/◌, ◌<◌, ◌≤◌, ◌==◌, ◌||◌, length, slice_index, IsTrue};
ghost use Rattle.m4_bits.specs.Transpose.{IsTransposed, AreTransposed, IsLowHalves, ChangePlaces, WordsChangePlaces, SquaresChangePlaces};

// The lower halves of each 64, 32, 16, 8, 4 and 2 bits of a word in a row.
const LOW_32: u64 = 0x0000_0000_FFFF_FFFF;

const LOW_16: u64 = 0x0000_FFFF_0000_FFFF;

const LOW_8: u64 = 0x00FF_00FF_00FF_00FF;

const LOW_4: u64 = 0x0F0F_0F0F_0F0F_0F0F;

const LOW_2: u64 = 0x3333_3333_3333_3333;

const LOW_1: u64 = 0x5555_5555_5555_5555;

/// Turns a block of 64 words over its diagonal: bit `j` of word `i` is then what bit `i` of word `j` was.
pub fn transpose_64(block: &mut [u64])
    requires { length block.old ≡ 64 }
    ensures { IsTransposed block.old block.new }
{
    exchange_squares(block, 32, 32, LOW_32);
    exchange_squares(block, 16, 16, LOW_16);
    exchange_squares(block, 8, 8, LOW_8);
    exchange_squares(block, 4, 4, LOW_4);
    exchange_squares(block, 2, 2, LOW_2);
    exchange_squares(block, 1, 1, LOW_1);
}

/// Turns a block of as many words as a word holds numbers of `width` bits over its diagonal: number `j` of word `i` is then what
/// number `i` of word `j` was.
#[inline]
pub fn transpose_numbers(block: &mut [u64], width: u32)
    requires widths { IsTrue (width == 1 || width == 2 || width == 4 || width == 8 || width == 16) }
    requires square { length block.old ≡ 64 / width }
    ensures { AreTransposed width block.old block.new }
{
    if width == 1 {
        transpose_64(block);
    } else if width == 2 {
        transpose_32(block);
    } else if width == 4 {
        transpose_16(block);
    } else if width == 8 {
        transpose_8(block);
    } else {
        transpose_4(block);
    }
}

/// Turns a block of 32 words of 32 numbers each.
fn transpose_32(block: &mut [u64])
    requires { length block.old ≡ 32 }
    ensures { AreTransposed 2 block.old block.new }
{
    exchange_squares(block, 16, 32, LOW_32);
    exchange_squares(block, 8, 16, LOW_16);
    exchange_squares(block, 4, 8, LOW_8);
    exchange_squares(block, 2, 4, LOW_4);
    exchange_squares(block, 1, 2, LOW_2);
}

/// Turns a block of 16 words of 16 numbers each.
fn transpose_16(block: &mut [u64])
    requires { length block.old ≡ 16 }
    ensures { AreTransposed 4 block.old block.new }
{
    exchange_squares(block, 8, 32, LOW_32);
    exchange_squares(block, 4, 16, LOW_16);
    exchange_squares(block, 2, 8, LOW_8);
    exchange_squares(block, 1, 4, LOW_4);
}

/// Turns a block of 8 words of 8 numbers each.
fn transpose_8(block: &mut [u64])
    requires { length block.old ≡ 8 }
    ensures { AreTransposed 8 block.old block.new }
{
    exchange_squares(block, 4, 32, LOW_32);
    exchange_squares(block, 2, 16, LOW_16);
    exchange_squares(block, 1, 8, LOW_8);
}

/// Turns a block of 4 words of 4 numbers each.
fn transpose_4(block: &mut [u64])
    requires { length block.old ≡ 4 }
    ensures { AreTransposed 16 block.old block.new }
{
    exchange_squares(block, 2, 32, LOW_32);
    exchange_squares(block, 1, 16, LOW_16);
}

/// Exchanges the two squares off the diagonal, of `words` words by `size` bits, in each square of twice that size.
#[inline(always)]
fn exchange_squares(block: &mut [u64], words: usize, size: usize, mask: u64)
    requires square { length block.old ≡ 32 / size * (2 * words) }
    requires halves { 32 / size * size ≡ 32 }
    requires low { IsLowHalves size mask }
    ensures { SquaresChangePlaces words size block.old block.new }
{
    for place in 0..32 / size {
        exchange_rows(block, place * (2 * words), words, size, mask);
    }
}

/// Exchanges the halves of `words` words from `first` on and of the `words` words after these.
#[inline(always)]
fn exchange_rows(block: &mut [u64], first: usize, words: usize, size: usize, mask: u64)
    requires within { first + 2 * words ≤ length block.old }
    requires halves { 32 / size * size ≡ 32 }
    requires low { IsLowHalves size mask }
    ensures exchanged { (k : ℕ) → first ≤ k → k < first + words → WordsChangePlaces size block.old block.new k (k + words) }
    ensures before { (k : ℕ) → k < first → slice_index block.new k ≡ slice_index block.old k }
    ensures after { (k : ℕ) → first + 2 * words ≤ k → slice_index block.new k ≡ slice_index block.old k }
{
    for k in first..first + words {
        let (upper, lower) = exchange_halves(block[k], block[k + words], size, mask);
        block[k] = upper;
        block[k + words] = lower;
    }
}

/// The two words with the upper halves of the first, of each `2 * size` bits in a row, and the lower halves of the second
/// exchanged.
#[inline(always)]
fn exchange_halves(first: u64, second: u64, size: usize, mask: u64) -> (u64, u64)
    requires halves { 32 / size * size ≡ 32 }
    requires low { IsLowHalves size mask }
    ensures { ChangePlaces size first second result.0 result.1 }
{
    let differ = (first >> size ^ second) & mask;
    (first ^ differ << size, second ^ differ)
}

#[cfg(test)]
mod tests {
    use super::{transpose_64, transpose_numbers};
    use std::process::Abort;

    #[test]
    fn words_of_turned_blocks(rt: HostRuntime) {
        let table: [(u64, usize, u64); 10] = [
            (0x9E37_79B9_7F4A_7C15, 0, 0xAC1B_A8C9_FA7D_BAC3),
            (0x9E37_79B9_7F4A_7C15, 1, 0xBB68_66B2_99C9_D78C),
            (0x9E37_79B9_7F4A_7C15, 31, 0xC215_D858_4FD1_6AA8),
            (0x9E37_79B9_7F4A_7C15, 32, 0xFC65_6DE1_28BD_5E0D),
            (0x9E37_79B9_7F4A_7C15, 63, 0x9AA5_414F_095D_87C3),
            (0xD1B5_4A32_D192_ED03, 0, 0xAA66_B505_4192_5627),
            (0xD1B5_4A32_D192_ED03, 1, 0xE674_A20F_A050_C419),
            (0xD1B5_4A32_D192_ED03, 31, 0x3FC5_D1EA_5EF2_BBE1),
            (0xD1B5_4A32_D192_ED03, 32, 0xFA52_F9CA_0120_4B9A),
            (0xD1B5_4A32_D192_ED03, 63, 0xD424_4309_8B3F_B58B),
        ];
        for (seed, row, turned) in table {
            let mut block = block_from(seed);
            let before = block;
            transpose_64(&mut block);
            if row < 64 {
                assert_eq!(rt; block[row], turned);
            }
            transpose_64(&mut block);
            assert!(rt; block == before);
        }
    }

    /// A block of numbers of `W` bits, `N` to a word, is turned, and turned back.
    fn numbers_are_turned<const W: usize, const N: usize, R: Abort>(rt: &R)
        requires wide { IsTrue (W == 1 || W == 2 || W == 4 || W == 8 || W == 16) }
        requires square { N ≡ 64 / W }
    {
        let before = block_from(0x9E37_79B9_7F4A_7C15);
        let mut block = before;
        transpose_numbers(&mut block[..N], W as u32);
        for i in 0..N {
            for j in 0..N {
                let number = block[i] >> (j * W) << (64 - W);
                assert_eq!(rt; number, before[j] >> (i * W) << (64 - W));
            }
        }
        assert!(rt; block[N..] == before[N..]);
        transpose_numbers(&mut block[..N], W as u32);
        assert!(rt; block == before);
    }

    #[test]
    fn blocks_of_numbers_of_each_width(rt: HostRuntime) {
        numbers_are_turned::<1, 64, HostRuntime>(&rt);
        numbers_are_turned::<2, 32, HostRuntime>(&rt);
        numbers_are_turned::<4, 16, HostRuntime>(&rt);
        numbers_are_turned::<8, 8, HostRuntime>(&rt);
        numbers_are_turned::<16, 4, HostRuntime>(&rt);
    }

    /// A block of 64 words by shifts and sums, the first one the seed.
    fn block_from(seed: u64) -> [u64; 64] {
        let mut block = [0u64; 64];
        let mut word = seed;
        for place in block.iter_mut() {
            *place = word;
            word ^= word << 13;
            word ^= word >> 7;
            word ^= word << 17;
        }
        block
    }
}
