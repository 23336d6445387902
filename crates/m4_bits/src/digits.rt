//! Words as rows of the digits `0` and `1`, and back: eight digits at a time, and the rest one by one.

ghost use Rattle.std.specs.Prelude.{◌≡◌, ℕ, ◌+◌, ◌^◌, ◌<◌, ◌≤◌, length, take, drop, slice_index, IfSome, IfNone};
ghost use Rattle.std.specs.Int.{bit_at, to_le_bytes, w64};
ghost use Rattle.m4_bits.specs.Digits.{AreDigits, digits_of};

/// The word whose lowest bits these digits are, the first digit the lowest bit; or `None` where a byte is neither `0`
/// nor `1`. At most 64 digits.
#[inline]
pub fn word_of_digits(digits: &[u8]) -> Option<u64>
    requires { length digits.now ≤ 64 }
    ensures word { IfSome result (λ word. digits.now ≡ digits_of word (length digits.now)) }
    ensures small { IfSome result (λ word. word < 2 ^ length digits.now) }
    ensures other { IfNone result (AreDigits digits.now → ⊥) }
{
    let mut word = 0u64;
    let eights = digits.len() / 8;
    for place in 0..eights {
        match bits_of_eight(digits, 8 * place) {
            Some(bits) => word |= bits << (8 * place),
            None => return None,
        }
    }
    word_with_rest(word, digits, 8 * eights)
}

/// The bits of the eight digits from `start` on, gathered by one multiplication; or `None` where one is no digit.
#[inline]
fn bits_of_eight(digits: &[u8], start: usize) -> Option<u64>
    requires { start + 8 ≤ length digits.now }
    ensures bits { IfSome result (λ bits. take 8 (drop start digits.now) ≡ digits_of bits 8) }
    ensures small { IfSome result (λ bits. bits < 2 ^ 8) }
    ensures other { IfNone result (AreDigits digits.now → ⊥) }
{
    let eight = [
        digits[start],
        digits[start + 1],
        digits[start + 2],
        digits[start + 3],
        digits[start + 4],
        digits[start + 5],
        digits[start + 6],
        digits[start + 7],
    ];
    let bits = u64::from_le_bytes(eight) ^ 0x3030_3030_3030_3030;
    if bits & 0xFEFE_FEFE_FEFE_FEFE == 0 {
        Some(bits.wrapping_mul(0x0102_0408_1020_4080) >> 56)
    } else {
        None
    }
}

/// The word of all the digits, of which the first `read` are read.
#[inline]
fn word_with_rest(mut word: u64, digits: &[u8], read: usize) -> Option<u64>
    requires within { read ≤ length digits.now }
    requires few { length digits.now ≤ 64 }
    requires so_far { take read digits.now ≡ digits_of word read }
    requires low { word < 2 ^ read }
    ensures word { IfSome result (λ word. digits.now ≡ digits_of word (length digits.now)) }
    ensures small { IfSome result (λ word. word < 2 ^ length digits.now) }
    ensures other { IfNone result (AreDigits digits.now → ⊥) }
{
    let mut others = 0u8;
    for place in read..digits.len() {
        word |= u64::from(digits[place] & 1) << place;
        others |= digits[place] ^ b'0';
    }
    if others <= 1 { Some(word) } else { None }
}

/// Writes the lowest bits of the word as digits, the lowest bit first: as many as there is room, at most 64.
#[inline]
pub fn put_digits(word: u64, digits: &mut [u8])
    requires { length digits.old ≤ 64 }
    ensures { digits.new ≡ digits_of word (length digits.old) }
{
    let eights = digits.len() / 8;
    for place in 0..eights {
        put_eight(word >> (8 * place), digits, 8 * place);
    }
    put_rest(word, digits, 8 * eights);
}

/// Writes the lowest eight bits as digits, from `start` on.
#[inline]
fn put_eight(word: u64, digits: &mut [u8], start: usize)
    requires { start + 8 ≤ length digits.old }
    ensures written { (k : ℕ) → k < 8 → slice_index digits.new (start + k) ≡ 48 + bit_at word k }
    ensures before { (k : ℕ) → k < start → slice_index digits.new k ≡ slice_index digits.old k }
{
    digits[start..start + 8].copy_from_slice(&eight_digits(word & 0xFF).to_le_bytes());
}

/// The eight digits of a byte as one word, the first digit the lowest byte: the lower seven bits are spread by one
/// multiplication.
#[inline]
fn eight_digits(byte: u64) -> u64
    requires { byte < 2 ^ 8 }
    ensures { to_le_bytes w64 result ≡ digits_of byte 8 }
{
    let spread = (byte & 0x7F) * 0x0000_0408_1020_4081 & 0x0101_0101_0101_0101;
    spread + ((byte >> 7) << 56) + 0x3030_3030_3030_3030
}

/// Writes the digits from `written` on, of which those before are written.
#[inline]
fn put_rest(word: u64, digits: &mut [u8], written: usize)
    requires few { length digits.old ≤ 64 }
    requires so_far { (k : ℕ) → k < written → slice_index digits.old k ≡ 48 + bit_at word k }
    ensures { digits.new ≡ digits_of word (length digits.old) }
{
    for place in written..digits.len() {
        digits[place] = b'0' + (word >> place & 1) as u8;
    }
}

#[cfg(test)]
mod tests {
    use super::{put_digits, word_of_digits};

    const LINE: &[u8; 64] = b"1101000011010000110100010000000011000011011001011010111110110010";

    #[test]
    fn digits_of_each_length(rt: HostRuntime) {
        let table: [(usize, u64); 7] = [
            (0, 0),
            (1, 1),
            (7, 0xB),
            (8, 0xB),
            (9, 0x10B),
            (63, 0x4DF5_A6C3_008B_0B0B),
            (64, 0x4DF5_A6C3_008B_0B0B),
        ];
        for (len, word) in table {
            if len <= 64 {
                assert!(rt; word_of_digits(&LINE[..len]) == Some(word));
                let mut written = [b'x'; 64];
                put_digits(word, &mut written[..len]);
                assert!(rt; written[..len] == LINE[..len]);
                assert!(rt; written[len..].iter().all(|byte| *byte == b'x'));
            }
        }
    }

    #[test]
    fn a_byte_that_is_no_digit_at_each_place(rt: HostRuntime) {
        for other in [b'2', b'/', b'q', 0xB0, 0x10, 0] {
            for place in 0..64 {
                let mut digits = *LINE;
                digits[place] = other;
                assert!(rt; is_first_other(&digits, place));
            }
        }
    }

    /// Whether the digits are refused from this place on.
    fn is_first_other(digits: &[u8], place: usize) -> bool
        requires within { place < length digits.now }
        requires few { length digits.now ≤ 64 }
    {
        word_of_digits(&digits[..place]).is_some()
            && word_of_digits(&digits[..place + 1]).is_none()
            && word_of_digits(digits).is_none()
    }
}
