//! The source of a set of shards.

ghost use Rattle.std.specs.Prelude.{◌≡◌, ◌↔◌, ℕ, ◌<◌, ◌≤◌, length, IsTrue, IfOk, slice_index};
ghost use Rattle.m4_model.specs.Forms.{IsInverse};
ghost use Rattle.m4_erasure.specs.Shards.{gf256, powers_of};
ghost use Rattle.m4_erasure.specs.Restored.{AreShards, Restores, body_byte, points_of};
ghost use Rattle.m4_erasure.specs.Whole.{AreLong, IsPadded, IsWhole};

use crate::powers::inverse_of_powers;
use crate::shard::{Restored, Shard};
use crate::sums::add_values;
use m4_model::NoMemory;
use m4_mzed::Mzed;
use std::alloc::Global;

/// The source of `k` shards, each of which says that `k` restore it, with one length of the source of at most 2^24 bytes, a
/// value for each stripe, and points that differ. Where they aren't the shards of one source of this length they are damaged:
/// the bytes that fill the last stripe are 0 in every source.
///
/// It takes memory for the source, and for some `k` x `k` matrices: the matrix of the powers of the points is inverted, and the
/// coefficients are the product of its inverse and the values.
pub fn restore(alloc: Global, shards: &[Shard]) -> Result<Restored, NoMemory>
    requires { AreShards shards.now }
    ensures { IfOk result (Restores shards.now) }
{
    let inverse = inverse_of_powers(alloc, shards)?;
    restore_by(alloc, &inverse, shards)
}

/// The source of shards, by the inverse of the matrix of the powers of their points.
fn restore_by(alloc: Global, inverse: &Mzed, shards: &[Shard]) -> Result<Restored, NoMemory>
    requires shards { AreShards shards.now }
    requires inverse { IsInverse inverse.now (powers_of (points_of shards.now)) }
    ensures { IfOk result (Restores shards.now) }
{
    let k = shards.len();
    let len = shards[0].len as usize;
    let mut whole = vec![in alloc; 0u8; (len + (k - 1)) / k * k]?;
    add_shards(whole.as_mut_slice(), inverse, shards);
    if !is_padded(whole.as_slice(), len) {
        return Ok(Restored::Damaged);
    }
    whole.truncate(len);
    Ok(Restored::Is(whole))
}

/// Adds, to each coefficient of each stripe, the products of its row of the inverse and the stripe's values.
fn add_shards(whole: &mut [u8], inverse: &Mzed, shards: &[Shard])
    requires field { inverse.now.field ≡ gf256 }
    requires rows { inverse.now.rows ≡ length shards.now }
    requires cols { inverse.now.cols ≡ length shards.now }
    requires long { AreLong (length whole.old) shards.now }
    requires zeros { (p : ℕ) → slice_index whole.old p ≡ 0 }
    ensures whole { IsWhole inverse.now (length shards.now) shards.now (length whole.old) whole.new }
    ensures values { (j t : ℕ) → body_byte shards.now j t < 256 }
{
    let _rows = inverse.rows();
    for (j, shard) in shards.iter().enumerate() {
        add_values(whole, inverse, j as u32, shard.body.as_slice());
    }
}

/// Whether all bytes from this place on are 0.
fn is_padded(whole: &[u8], len: usize) -> bool
    requires { len ≤ length whole.now }
    ensures padded { IsTrue result ↔ IsPadded len whole.now }
    ensures bytes { (p : ℕ) → slice_index whole.now p < 256 }
{
    for p in len..whole.len() {
        if whole[p] != 0 {
            return false;
        }
    }
    true
}
