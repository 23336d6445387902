//! A few neighbouring bits of a row, as a number.

ghost use Rattle.std.specs.Prelude.{◌≡◌, ℕ, ◌+◌, ◌*◌, ◌^◌, ◌<◌, ◌≤◌, length};
ghost use Rattle.std.specs.Int.{bit_at};
ghost use Rattle.m4_bits.specs.Bits.{bit};

/// The `n` bits of the row from bit `j` on, at most 16: bit `i` of the answer is bit `j + i` of the row.
#[inline]
pub fn take_bits(row: &[u64], j: u32, n: u32) -> u32
    requires few { n ≤ 16 }
    requires within { j + n ≤ 64 * length row.now }
    ensures bits { (i : ℕ) → i < n → bit_at result i ≡ bit row.now (j + i) }
    ensures small { result < 2 ^ n }
{
    if n == 0 {
        return 0;
    }
    let place = (j / 64) as usize;
    let first = j % 64;
    let lower = row[place] >> first;
    if first + n <= 64 {
        lowest_bits(lower, n)
    } else {
        lowest_bits(lower | row[place + 1] << (64 - first), n)
    }
}

/// The lowest `n` bits of a word, at most 16.
#[inline(always)]
fn lowest_bits(word: u64, n: u32) -> u32
    requires { n ≤ 16 }
    ensures bits { (i : ℕ) → i < n → bit_at result i ≡ bit_at word i }
    ensures small { result < 2 ^ n }
{
    (word & ((1 << n) - 1)) as u32
}

#[cfg(test)]
mod tests {
    use super::take_bits;

    #[test]
    fn bits_at_borders_of_words(rt: HostRuntime) {
        let row: [u64; 3] = [1 << 62 | 1, 0x8000_0000_0000_0002, 5];
        let table: [(u32, u32, u32); 10] = [
            (0, 0, 0),
            (0, 1, 1),
            (0, 16, 1),
            (62, 4, 9),
            (48, 16, 0x4000),
            (63, 16, 4),
            (112, 16, 0x8000),
            (127, 4, 11),
            (176, 16, 0),
            (192, 0, 0),
        ];
        for (j, n, bits) in table {
            if n <= 16 && j <= 192 - n {
                assert_eq!(rt; take_bits(&row, j, n), bits);
            }
        }
    }
}
