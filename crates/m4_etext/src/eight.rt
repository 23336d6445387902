//! Hexadecimal digits of fours of bits, eight at a time in one word.

ghost use Rattle.std.specs.Prelude.{◌≡◌, ℕ, ◌+◌, ◌/◌, ◌%◌, ◌^◌, ◌<◌, ◌≤◌, false, length, slice_index, IfSome};
ghost use Rattle.std.specs.Fmt.{digit_glyph};
ghost use Rattle.std.specs.Int.{to_le_bytes, w64};
ghost use Rattle.m4_etext.specs.Digits.{fours_of};

/// The digits of eight fours of bits as one word, that of the lowest four in the lowest byte: each four is drawn to a byte of its
/// own, and letters lie 39 past the digit that would come after 9.
#[inline]
fn eight_digits(fours: u64) -> u64
    requires { fours < 2 ^ 32 }
    ensures { to_le_bytes w64 result ≡ fours_of fours 8 }
{
    let halves = (fours & 0xFFFF) + (fours >> 16 << 32);
    let pairs = (halves & 0x0000_00FF_0000_00FF) + ((halves & 0x0000_FF00_0000_FF00) << 8);
    let values = (pairs & 0x000F_000F_000F_000F) + ((pairs & 0x00F0_00F0_00F0_00F0) << 4);
    let letters = (values + 0x0606_0606_0606_0606) >> 4 & 0x0F0F_0F0F_0F0F_0F0F;
    values + 0x3030_3030_3030_3030 + letters * 39
}

/// Writes the digits of the word's lowest eight fours of bits, from `start` on.
#[inline]
pub fn put_eight(word: u64, digits: &mut [u8], start: usize)
    requires { start + 8 ≤ length digits.old }
    ensures written { (k : ℕ) → k < 8 → slice_index digits.new (start + k) ≡ digit_glyph false (word / 16 ^ k % 16) }
    ensures before { (k : ℕ) → k < start → slice_index digits.new k ≡ slice_index digits.old k }
{
    digits[start..start + 8].copy_from_slice(&eight_digits(word & 0xFFFF_FFFF).to_le_bytes());
}

/// The fours of bits that eight digits from `start` on spell, the first digit the lowest; or `None` where one is no digit: they are
/// taken as if all were, and spelled again.
#[inline]
pub fn fours_of_eight(digits: &[u8], start: usize) -> Option<u64>
    requires { start + 8 ≤ length digits.now }
    ensures small { IfSome result (λ fours. fours < 2 ^ 32) }
    ensures spelled { IfSome result (λ fours. (k : ℕ) → k < 8 → slice_index digits.now (start + k) ≡ digit_glyph false (fours / 16 ^ k % 16)) }
{
    let eight = u64::from_le_bytes([
        digits[start],
        digits[start + 1],
        digits[start + 2],
        digits[start + 3],
        digits[start + 4],
        digits[start + 5],
        digits[start + 6],
        digits[start + 7],
    ]);
    let fours = closed_up(
        (eight & 0x0F0F_0F0F_0F0F_0F0F) + (eight >> 6 & 0x0101_0101_0101_0101) * 9,
    );
    if eight_digits(fours) == eight {
        Some(fours)
    } else {
        None
    }
}

/// The lower halves of a word's bytes, side by side.
#[inline]
fn closed_up(values: u64) -> u64
    ensures { result < 2 ^ 32 }
{
    let pairs = (values | values >> 4) & 0x00FF_00FF_00FF_00FF;
    let quarters = (pairs | pairs >> 8) & 0x0000_FFFF_0000_FFFF;
    (quarters | quarters >> 16) & 0xFFFF_FFFF
}

/// The word whose fours of bits 16 digits spell, the first digit the lowest; or `None` where one is no digit.
#[inline]
pub fn word_of_sixteen(digits: &[u8]) -> Option<u64>
    requires { length digits.now ≡ 16 }
    ensures { IfSome result (λ word. (i : ℕ) → i < 16 → slice_index digits.now i ≡ digit_glyph false (word / 16 ^ i % 16)) }
{
    let low = fours_of_eight(digits, 0)?;
    let high = fours_of_eight(digits, 8)?;
    Some(low + (high << 32))
}
