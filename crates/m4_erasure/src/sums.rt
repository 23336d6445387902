//! Sums of multiples of the values of shards.

ghost use Rattle.std.specs.Prelude.{◌≡◌, ℕ, ◌*◌, ◌<◌, length, slice_index};
ghost use Rattle.m4_erasure.specs.Shards.{gf256};
ghost use Rattle.m4_erasure.specs.Sums.{IsAddedAt, IsAddedBy};

use crate::multiples::Multiples;
use m4_mzed::Mzed;

/// Adds, to each coefficient of each stripe, the multiple of the stripe's value by that coefficient's entry of column `j`.
pub(crate) fn add_values(whole: &mut [u8], inverse: &Mzed, j: u32, body: &[u8])
    requires field { inverse.now.field ≡ gf256 }
    requires square { inverse.now.cols ≡ inverse.now.rows }
    requires in_cols { j < inverse.now.cols }
    requires long { length whole.old ≡ length body.now * inverse.now.rows }
    ensures sums { IsAddedBy inverse.now j body.now whole.old whole.new }
    ensures bytes { (t : ℕ) → slice_index body.now t < 256 }
{
    let k = inverse.rows();
    for i in 0..k {
        let factor = inverse.get(i, j) as u8;
        add_multiple(whole, k as usize, i as usize, &Multiples::new(factor), body);
    }
}

/// Adds to coefficient `i` of each stripe of `k` bytes the multiple of the stripe's value.
fn add_multiple(whole: &mut [u8], k: usize, i: usize, multiples: &Multiples, body: &[u8])
    requires within { i < k }
    requires long { length whole.old ≡ length body.now * k }
    ensures { IsAddedAt k i multiples.now.factor body.now whole.old whole.new }
{
    for (t, value) in body.iter().enumerate() {
        whole[t * k + i] ^= multiples.by(*value);
    }
}
