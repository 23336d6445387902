//! Rows of words of 64 bits: single bits, masks, sums of up to eight rows into one, copies to any place, exchanges, a few bits
//! as a number, the digits of a word and back, and the turn of a block of 64 x 64 bits, or of numbers of a few bits each.
//!
//! Column `j` of a row is bit `j % 64`, counted from the least significant, of word `j / 64`. No call takes memory, and
//! none refuses: what a call needs of its slices is in its `requires`.
#![tactic(auto)]

ghost use Rattle.std.specs.Prelude.{◌≡◌, ◌≢◌, ◌↔◌, ℕ, ◌-◌, ◌/◌, ◌^◌, ◌<◌, ◌≤◌, length, bit_xor, IsTrue, if◌then◌else◌};
ghost use Rattle.m4_model.specs.Matrix.{row_sum};
ghost use Rattle.m4_model.specs.Text.{words_per_row};
ghost use Rattle.m4_bits.specs.Bits.{bit, last_bits, masked, merged};

mod digits;
mod products;
mod rows;
mod shift;
mod take;
mod transpose;

pub use digits::{put_digits, word_of_digits};
pub use products::{add_products, product_of};
pub use rows::{
    clear, copy_into, set_sum, swap_into, xor_from_column, xor_from2, xor_from3, xor_from4,
    xor_from5, xor_from6, xor_from7, xor_from8, xor_into,
};
pub use shift::copy_bits;
pub use take::take_bits;
pub use transpose::{transpose_64, transpose_numbers};

/// How many words a row of `cols` columns takes.
pub fn words_for(cols: u32) -> u32
    ensures { result ≡ words_per_row cols }
{
    cols.div_ceil(64)
}

/// The bits that a row of `cols` columns uses in its last word: the low `cols % 64`, or all 64 where that is 0.
pub fn mask(cols: u32) -> u64
    ensures { result ≡ 2 ^ last_bits cols - 1 }
{
    let used = cols % 64;
    if used == 0 {
        u64::MAX
    } else {
        u64::MAX >> (64 - used)
    }
}

/// The bits of `new` under the mask, and those of `old` elsewhere.
#[inline]
pub fn merge(old: u64, new: u64, mask: u64) -> u64
    ensures { result ≡ merged mask old new }
{
    old ^ ((old ^ new) & mask)
}

/// Whether bit `j` of the row is 1.
pub fn get_bit(row: &[u64], j: u32) -> bool
    requires { j / 64 < length row.now }
    ensures { IsTrue result ↔ (bit row.now j ≡ 1) }
{
    (row[(j / 64) as usize] >> (j % 64)) & 1 == 1
}

/// Writes bit `j` of the row: 1 for `true`, 0 for `false`. Every other bit stays.
pub fn put_bit(row: &mut [u64], j: u32, bit_value: bool)
    requires { j / 64 < length row.old }
    ensures value { bit row.new j ≡ (if bit_value then 1 else 0) }
    ensures others { (k : ℕ) → k ≢ j → bit row.new k ≡ bit row.old k }
{
    let place = (j / 64) as usize;
    let one = 1u64 << (j % 64);
    if bit_value {
        row[place] |= one;
    } else {
        row[place] &= !one;
    }
}

/// Exchanges bits `i` and `j` of the row. Every other bit stays.
pub fn swap_bits(row: &mut [u64], i: u32, j: u32)
    requires { (i / 64 < length row.old) × (j / 64 < length row.old) }
    ensures first { bit row.new i ≡ bit row.old j }
    ensures second { bit row.new j ≡ bit row.old i }
    ensures others { (k : ℕ) → k ≢ i → k ≢ j → bit row.new k ≡ bit row.old k }
{
    let change = bit_of(row, i) ^ bit_of(row, j);
    add_bit(row, i, change);
    add_bit(row, j, change);
}

/// Bit `j` of the row, as a number.
fn bit_of(row: &[u64], j: u32) -> u64
    requires { j / 64 < length row.now }
    ensures { result ≡ bit row.now j }
{
    (row[(j / 64) as usize] >> (j % 64)) & 1
}

/// Adds 0 or 1 to bit `j` of the row. Every other bit stays.
fn add_bit(row: &mut [u64], j: u32, change: u64)
    requires within { j / 64 < length row.old }
    requires change { change < 2 }
    ensures value { bit row.new j ≡ bit_xor (bit row.old j) change }
    ensures others { (k : ℕ) → k ≢ j → bit row.new k ≡ bit row.old k }
{
    row[(j / 64) as usize] ^= change << (j % 64);
}

#[cfg(test)]
mod tests {
    use super::{
        clear, copy_into, get_bit, mask, put_bit, set_sum, swap_bits, swap_into, words_for,
        xor_from_column, xor_from2, xor_from3, xor_from4, xor_from5, xor_from6, xor_from7,
        xor_from8, xor_into,
    };
    use std::process::Abort;

    /// A row whose word `k` is `k + 1`, at the place of `unit`.
    fn counted(unit: u64) -> [u64; 17] {
        let mut row = [0; 17];
        for k in 0..17 {
            row[k] = (k as u64 + 1).wrapping_mul(unit);
        }
        row
    }

    #[test]
    fn words_and_masks_at_borders(rt: HostRuntime) {
        let table: [(u32, u32, u64); 6] = [
            (0, 0, u64::MAX),
            (1, 1, 1),
            (63, 1, u64::MAX >> 1),
            (64, 1, u64::MAX),
            (65, 2, 1),
            (130, 3, 3),
        ];
        for (cols, words, bits) in table {
            assert_eq!(rt; words_for(cols), words);
            assert_eq!(rt; mask(cols), bits);
        }
        assert_eq!(rt; words_for(u32::MAX), 1 << 26);
    }

    #[test]
    fn one_bit_is_written_and_read(rt: HostRuntime) {
        let mut row: [u64; 2] = [1, 3];
        put_bit(&mut row, 63, true);
        put_bit(&mut row, 64, false);
        assert_eq!(rt; row[0], 1 << 63 | 1);
        assert_eq!(rt; row[1], 2);
        assert!(rt; get_bit(&row, 63) && !get_bit(&row, 64) && get_bit(&row, 65));
    }

    #[test]
    fn the_last_word_is_added_under_the_mask(rt: HostRuntime) {
        let mut sum: [u64; 3] = [5, 6, 8];
        xor_into(&mut sum, &[1, 2, 15], mask(130));
        assert_eq!(rt; sum[0], 4);
        assert_eq!(rt; sum[1], 4);
        assert_eq!(rt; sum[2], 11);
    }

    #[test]
    fn two_bits_are_exchanged(rt: HostRuntime) {
        let mut row: [u64; 2] = [1 << 63, 0];
        swap_bits(&mut row, 63, 65);
        assert_eq!(rt; row, [0, 2]);
        swap_bits(&mut row, 65, 64);
        assert_eq!(rt; row, [0, 1]);
        swap_bits(&mut row, 64, 64);
        assert_eq!(rt; row, [0, 1]);
    }

    /// The bits of one row and of the first 1, 2 and up to 8 rows that are added to it.
    const FACTORS: [u64; 8] = [
        0x81,
        0x4081,
        0x0020_4081,
        0x1020_4081,
        0x0008_1020_4081,
        0x0408_1020_4081,
        0x0002_0408_1020_4081,
        0x0102_0408_1020_4081,
    ];

    /// Rows of `n` words hold small numbers side by side, which one sum collects: row `t` at bit `7 t`.
    fn rows_are_added<R: Abort>(rt: &R, n: usize)
        requires { n ≤ 17 }
    {
        let (mut one, mut two) = (counted(1), counted(1));
        let (mut three, mut four) = (counted(1), counted(1));
        let (mut five, mut six) = (counted(1), counted(1));
        let (mut seven, mut eight) = (counted(1), counted(1));
        let (a, b) = (&counted(1 << 7)[..n], &counted(1 << 14)[..n]);
        let (c, d) = (&counted(1 << 21)[..n], &counted(1 << 28)[..n]);
        let (e, f) = (&counted(1 << 35)[..n], &counted(1 << 42)[..n]);
        let (g, h) = (&counted(1 << 49)[..n], &counted(1 << 56)[..n]);
        let last = mask(14);
        xor_into(&mut one[..n], a, last);
        xor_from2(&mut two[..n], a, b, last);
        xor_from3(&mut three[..n], a, b, c, last);
        xor_from4(&mut four[..n], a, b, c, d, last);
        xor_from5(&mut five[..n], a, b, c, d, e, last);
        xor_from6(&mut six[..n], a, b, c, d, e, f, last);
        xor_from7(&mut seven[..n], a, b, c, d, e, f, g, last);
        xor_from8(&mut eight[..n], a, b, c, d, e, f, g, h, last);
        for k in 0..17 {
            let word = k as u64 + 1;
            let sums = [
                one[k], two[k], three[k], four[k], five[k], six[k], seven[k], eight[k],
            ];
            let factors = if k + 1 < n {
                FACTORS
            } else if k + 1 == n {
                [0x81; 8]
            } else {
                [1; 8]
            };
            for count in 0..8 {
                assert_eq!(rt; sums[count], word.wrapping_mul(factors[count]));
            }
        }
    }

    /// Rows of `n` words are copied, made of two others, exchanged, cleared and added from column 70 on, with 4 bits of the
    /// last word.
    fn rows_are_moved<R: Abort>(rt: &R, n: usize)
        requires { n ≤ 17 }
    {
        let ones = [u64::MAX; 17];
        let (mut copied, mut cleared, mut added) = ([0; 17], ones, ones);
        let (mut first, mut second, mut sum) = ([0; 17], ones, [0; 17]);
        let last = 15;
        copy_into(&mut copied[..n], &ones[..n], last);
        swap_into(&mut first[..n], &mut second[..n], last);
        set_sum(&mut sum[..n], &ones[..n], &[6; 17][..n], last);
        clear(&mut cleared[..n], last);
        xor_from_column(&mut added[..n], &ones[..n], 70, last << 4);
        for k in 0..17 {
            let taken = if k + 1 < n {
                u64::MAX
            } else if k + 1 == n {
                15
            } else {
                0
            };
            let from = if k == 0 || k >= n {
                0
            } else if k + 1 == n {
                if k == 1 { 0xc0 } else { 0xf0 }
            } else if k == 1 {
                !0x3f
            } else {
                u64::MAX
            };
            assert_eq!(rt; copied[k], taken);
            assert_eq!(rt; sum[k], if k < n { taken ^ 6 } else { 0 });
            assert_eq!(rt; cleared[k], !taken);
            assert_eq!(rt; first[k], taken);
            assert_eq!(rt; second[k], !taken);
            assert_eq!(rt; added[k], !from);
        }
    }

    #[test]
    fn rows_of_each_length(rt: HostRuntime) {
        rows_are_added(&rt, 0);
        rows_are_added(&rt, 1);
        rows_are_added(&rt, 2);
        rows_are_added(&rt, 3);
        rows_are_added(&rt, 7);
        rows_are_added(&rt, 8);
        rows_are_added(&rt, 9);
        rows_are_added(&rt, 17);
        rows_are_moved(&rt, 0);
        rows_are_moved(&rt, 1);
        rows_are_moved(&rt, 2);
        rows_are_moved(&rt, 3);
        rows_are_moved(&rt, 7);
        rows_are_moved(&rt, 8);
        rows_are_moved(&rt, 9);
        rows_are_moved(&rt, 17);
    }
}
