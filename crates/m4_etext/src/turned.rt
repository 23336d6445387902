//! Fours of bits, turned round in each element of a word.

ghost use Rattle.std.specs.Prelude.{◌≡◌, ℕ, ◌+◌, ◌-◌, ◌*◌, ◌/◌, ◌%◌, ◌^◌, ◌<◌, ◌==◌, ◌||◌, IsTrue};
ghost use Rattle.m4_etext.specs.Digits.{digit_of_elements};

/// The word's elements, of so many fours of bits each, each with its fours of bits in the other order.
#[inline]
pub fn turned(word: u64, count: u32) -> u64
    requires { IsTrue (count == 1 || count == 2 || count == 4) }
    ensures there { (p : ℕ) → p < 16 → digit_of_elements (4 * count) count word p ≡ result / 16 ^ p % 16 }
    ensures back { (p : ℕ) → p < 16 → digit_of_elements (4 * count) count result p ≡ word / 16 ^ p % 16 }
{
    if count == 1 {
        word
    } else if count == 2 {
        with_pairs_turned(word)
    } else {
        with_quads_turned(word)
    }
}

/// The word with the two fours of bits of each byte exchanged.
#[inline]
fn with_pairs_turned(word: u64) -> u64
    ensures { (p : ℕ) → p < 16 → result / 16 ^ p % 16 ≡ word / 16 ^ (p / 2 * 2 + (1 - p % 2)) % 16 }
{
    (word >> 4 & 0x0F0F_0F0F_0F0F_0F0F) + ((word & 0x0F0F_0F0F_0F0F_0F0F) << 4)
}

/// The word with the fours of bits of each 16 bits in the other order.
#[inline]
fn with_quads_turned(word: u64) -> u64
    ensures { (p : ℕ) → p < 16 → result / 16 ^ p % 16 ≡ word / 16 ^ (p / 4 * 4 + (3 - p % 4)) % 16 }
{
    let pairs = (word >> 4 & 0x0F0F_0F0F_0F0F_0F0F) + ((word & 0x0F0F_0F0F_0F0F_0F0F) << 4);
    (pairs >> 8 & 0x00FF_00FF_00FF_00FF) + ((pairs & 0x00FF_00FF_00FF_00FF) << 8)
}
