ghost use Rattle.std.specs.Prelude.{◌≡◌};
ghost use Rattle.m4_field.specs.Fields.{the_field};
ghost use Rattle.m4_erasure.specs.Shards.{gf256};

use m4_field::Field;

/// The field of shards.
pub(crate) fn field() -> Field
    ensures { the_field result ≡ gf256 }
{
    match Field::new(8, 0x11d) {
        Ok(field) => field,
        Err(_) => unreachable!(),
    }
}
