//! The elements of a word, multiplied by one.

ghost use Rattle.std.specs.Prelude.{◌≡◌, ℕ, ◌*◌, ◌/◌, ◌%◌, ◌^◌, ◌<◌, ◌≤◌, ◌==◌, ◌||◌, IsTrue, slice_index};
ghost use Rattle.m4_model.specs.Field.{mul, width};
ghost use Rattle.m4_field.specs.Fields.{the_field};
ghost use Rattle.m4_mzed.specs.Words.{element, AreElements};

use m4_bits::product_of;
use m4_field::Field;

/// The word whose elements, of so many bits each, are 1.
#[inline]
pub(crate) fn ones(width_bits: u32) -> u64
    requires { IsTrue (width_bits == 1 || width_bits == 2 || width_bits == 4 || width_bits == 8 || width_bits == 16) }
    ensures ones { (k : ℕ) → k < 64 / width_bits → element width_bits k result ≡ 1 }
    ensures word { result < 2 ^ 64 }
{
    if width_bits == 1 {
        u64::MAX
    } else if width_bits == 2 {
        0x5555_5555_5555_5555
    } else if width_bits == 4 {
        0x1111_1111_1111_1111
    } else if width_bits == 8 {
        0x0101_0101_0101_0101
    } else {
        0x0001_0001_0001_0001
    }
}

/// The multiples of `x` by the powers of x that an element has, and zeros after them.
pub(crate) fn factors<const N: usize>(f: &Field, x: u32) -> [u64; N]
    requires enough { (the_field f.now).degree ≤ N }
    requires element { x < 2 ^ (the_field f.now).degree }
    ensures powers { (i : ℕ) → i < (the_field f.now).degree → slice_index result i ≡ mul (the_field f.now) (2 ^ i) x }
    ensures elements { (i : ℕ) → slice_index result i < 2 ^ (the_field f.now).degree }
    ensures rest { (i : ℕ) → (the_field f.now).degree ≤ i → slice_index result i ≡ 0 }
{
    let mut list = [0u64; N];
    let mut factor = x;
    for i in 0..f.e() {
        list[i as usize] = u64::from(factor);
        factor = f.times_x(factor);
    }
    list
}

/// For each factor the word with the factor in each place where `low` has a one at its lowest bit.
#[inline]
pub(crate) fn patterns<const N: usize>(low: u64, factors: &[u64; N]) -> [u64; N]
    ensures { (i : ℕ) → i < N → slice_index result i ≡ low * slice_index factors.now i % 2 ^ 64 }
{
    let mut list = [0u64; N];
    for i in 0..N {
        list[i] = low.wrapping_mul(factors[i]);
    }
    list
}

/// Multiplies each of the elements of the word by `x`. `W` is the width of the field's elements. As in the word, the bits of
/// each place of the answer that an element doesn't use are zero.
///
/// For each bit of the elements one factor is added in the places of those that have a one there: a digit fills its place, and
/// what is filled takes the factor from a word that has it in each place.
#[inline]
pub fn mul_word<const W: usize>(f: &Field, word: u64, x: u32) -> u64
    requires wide { W ≡ width (the_field f.now) }
    requires elements { AreElements (the_field f.now) W word }
    requires element { x < 2 ^ (the_field f.now).degree }
    ensures products { (k : ℕ) → k < 64 / W → element W k result ≡ mul (the_field f.now) (element W k word) x }
    ensures elements { AreElements (the_field f.now) W result }
{
    let low = ones(f.width());
    product_of(word, low, &patterns(low, &factors::<W>(f, x)))
}
