//! The bits of a word that elements use.

ghost use Rattle.std.specs.Prelude.{◌≡◌, ℕ, ◌%◌, ◌<◌, nat_lt, if◌then◌else◌};
ghost use Rattle.std.specs.Int.{bit_at};
ghost use Rattle.m4_model.specs.Field.{width};
ghost use Rattle.m4_field.specs.Fields.{the_field};

use m4_field::Field;

/// The word whose bits are 1 where an element of the field may have one: the low bits of each place, as many as the degree.
pub(crate) fn element_bits(field: &Field) -> u64
    ensures { (q : ℕ) → q < 64 → bit_at result q ≡ (if nat_lt (q % width (the_field field.now)) (the_field field.now).degree then 1 else 0) }
{
    let _degree = field.e();
    let first_bits = u64::MAX / ((1 << field.width()) - 1);
    first_bits * ((1 << field.e()) - 1)
}
