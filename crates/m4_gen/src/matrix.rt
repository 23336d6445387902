//! The matrix of a seed.

ghost use Rattle.std.specs.Prelude.{◌≡◌, ◌*◌, ◌≤◌, IfOk};
ghost use Rattle.m4_model.specs.Field.{width};
ghost use Rattle.m4_field.specs.Fields.{the_field};
ghost use Rattle.m4_model.specs.Generated.{generated};

use crate::mask::element_bits;
use crate::source::fill;
use m4_field::Field;
use m4_model::NoMemory;
use m4_mzd::{MOST_SIDE, Mzd};
use m4_mzed::Mzed;
use rand_core::SeedableRng;
use rand_xoshiro::SplitMix64;
use std::alloc::Global;

/// The matrix of so many rows and columns that a seed generates, for examples, tests and measurements: whoever names the field,
/// the shape and the seed has named the matrix.
///
/// The same seed gives the same matrix on every machine. Its words are those of SplitMix64 (Steele, Lea, Flood, "Fast splittable
/// pseudorandom number generators", OOPSLA 2014) from this seed on, and each row takes as many of them as it has words, one row
/// after the other. An element has the low bits of its place there, as many as the field's degree, and what is past the last
/// column is dropped. The numbers look random and are no secret: they are not for cryptography.
///
/// There may be at most 2^24 rows, each of at most 2^24 bits. Memory is taken for the matrix alone, and want of it is the one
/// refusal.
pub fn generate(
    alloc: Global,
    field: Field,
    rows: u32,
    cols: u32,
    seed: u64,
) -> Result<Mzed, NoMemory>
    requires few_rows { rows ≤ MOST_SIDE }
    requires few_bits { cols * width (the_field field) ≤ MOST_SIDE }
    ensures { IfOk result (λ m. m ≡ generated (the_field field) rows cols seed) }
{
    let mut bits = Mzd::zeros(alloc, rows, cols * field.width())?;
    let (mut whole, home) = bits.all_mut();
    let mut source = SplitMix64::from_seed(seed.to_le_bytes());
    fill(&mut whole, element_bits(&field), &mut source);
    bits.put_all(whole, home);
    Ok(Mzed::of_packed(field, cols, bits))
}
