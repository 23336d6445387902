//! The shard of a source at a point.

ghost use Rattle.std.specs.Prelude.{◌≡◌, ◌≤◌, length, IfOk};
ghost use Rattle.m4_erasure.specs.Shards.{IsCount, IsPoint, most_source, value};
ghost use Rattle.m4_erasure.specs.Cut.{IsShardOf};

use crate::multiples::Multiples;
use crate::shard::Shard;
use m4_model::NoMemory;
use std::alloc::Global;

/// The shard at the point `x`, below 256, of a source of at most 2^24 bytes that `k` shards restore, `k` from 1 to 128.
///
/// It takes memory for the shard's values, a byte for each `k` bytes of the source. Each value is had by Horner's rule, with
/// one look-up in the table of all multiples of `x` for each byte of the source.
pub fn shard_of(alloc: Global, k: u32, x: u32, src: &[u8]) -> Result<Shard, NoMemory>
    requires count { IsCount k }
    requires point { IsPoint x }
    requires few { length src.now ≤ most_source }
    ensures { IfOk result (IsShardOf src.now k x) }
{
    let body = values(alloc, k as usize, &Multiples::new(x as u8), src)?;
    Ok(Shard {
        k,
        x,
        len: src.len() as u32,
        body,
    })
}

/// The values of all stripes of `k` bytes at a point.
fn values(alloc: Global, k: usize, at: &Multiples, src: &[u8]) -> Result<Vec<u8>, NoMemory>
    requires count { IsCount k }
    requires few { length src.now ≤ most_source }
    ensures { IfOk result (λ body. body.items ≡ value src.now k at.now.factor) }
{
    let stripes = (src.len() + (k - 1)) / k;
    let mut body = Vec::with_capacity(alloc, stripes)?;
    for t in 0..stripes {
        let start = t * k;
        let end = (start + k).min(src.len());
        body.push(at.value_of(&src[start..end]))?;
    }
    Ok(body)
}
