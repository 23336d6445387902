//! The matrix of the powers of points, and its inverse.

ghost use Rattle.std.specs.Prelude.{◌≡◌, ◌<◌, length, IfOk};
ghost use Rattle.m4_model.specs.Forms.{IsInverse};
ghost use Rattle.m4_erasure.specs.Shards.{gf256, AreDiffering, powers_of};
ghost use Rattle.m4_erasure.specs.Powers.{HasPowers};
ghost use Rattle.m4_erasure.specs.Restored.{points_of};

use crate::field::field;
use crate::shard::Shard;
use m4_eple::{Halving, Plain};
use m4_model::NoMemory;
use m4_mzed::Mzed;
use m4_newton::EPlain;
use m4_solve::{Inverse, invert};
use std::alloc::Global;

/// The inverse of the matrix of the powers of the shards' points. There is one, since the points differ.
pub(crate) fn inverse_of_powers(alloc: Global, shards: &[Shard]) -> Result<Mzed, NoMemory>
    requires few { length shards.now < 256 }
    requires differing { AreDiffering (points_of shards.now) }
    ensures { IfOk result (λ found. IsInverse found (powers_of (points_of shards.now))) }
{
    let powers = powers_of_points(alloc, shards)?;
    let _rows = powers.rows();
    let mut with = Halving {
        engine: EPlain,
        base: Plain,
        cutoff: 64,
    };
    match invert(alloc, &powers.all(), &mut with)? {
        Inverse::Is(found) => Ok(found),
        Inverse::Singular => unreachable!(),
    }
}

/// The matrix of the powers of the shards' points.
fn powers_of_points(alloc: Global, shards: &[Shard]) -> Result<Mzed, NoMemory>
    requires few { length shards.now < 256 }
    requires differing { AreDiffering (points_of shards.now) }
    ensures { IfOk result (λ powers. powers ≡ powers_of (points_of shards.now)) }
{
    let k = shards.len() as u32;
    let mut powers = Mzed::zeros(alloc, field(), k, k)?;
    for (j, shard) in shards.iter().enumerate() {
        put_powers(&mut powers, j as u32, shard.x);
    }
    let _rows = powers.rows();
    Ok(powers)
}

/// Writes the powers of a point, from that by 0 on, into row `j`. Every other row stays.
fn put_powers(powers: &mut Mzed, j: u32, x: u32)
    requires field { powers.old.field ≡ gf256 }
    requires in_rows { j < powers.old.rows }
    requires point { x < 256 }
    ensures { HasPowers x j powers.old.cols powers.old powers.new }
{
    let field = field();
    let mut power = 1;
    for i in 0..powers.cols() {
        let _rows = powers.rows();
        powers.put(j, i, power);
        power = field.mul(x, power);
    }
}
