//! The inverses of all elements of a field, looked up.

ghost use Rattle.std.specs.Prelude.{◌≡◌, ◌≢◌, ◌^◌, ◌<◌, IfOk, length};
ghost use Rattle.m4_model.specs.Field.{mul};
ghost use Rattle.m4_field.specs.Fields.{the_field};
ghost use Rattle.m4_field.specs.Inverses.{AreInverses};

use crate::field::Field;
use m4_model::NoMemory;
use std::alloc::Global;
use std::marker::Model;

/// The inverses of all elements of a field, in a table of `2^e` entries.
#[derive(Drop)]
pub struct FieldTables {
    field: Field,
    inverses: Vec<u16>,
}

impl Model for FieldTables {
    ghost use Rattle.m4_model.specs.Field.{Field};
    ghost use Rattle.std.specs.Prelude.{◌^◌};
    ghost use Rattle.m4_field.specs.Fields.{the_field};
    ghost use Rattle.m4_field.specs.Inverses.{AreInverses};

    ghost Value = { Field };

    ghost view = { λ t. the_field t.field };

    ghost invariant = { λ t. AreInverses (the_field t.field) (2 ^ (the_field t.field).degree) t.inverses.items };
}

impl FieldTables {
    /// The table of this field.
    pub fn new(alloc: Global, f: &Field) -> Result<FieldTables, NoMemory>
        ensures { IfOk result (λ t. t ≡ the_field f.now) }
    {
        let _degree = f.e();
        let mut inverses = vec![in alloc; 0u16; 1usize << f.e()]?;
        fill_inverses(f, inverses.as_mut_slice());
        Ok(FieldTables {
            field: *f,
            inverses,
        })
    }

    /// The inverse of an element that isn't 0.
    #[inline]
    pub fn inv(&self, a: u32) -> u32
        requires element { a < 2 ^ self.now.degree }
        requires some { a ≢ 0 }
        ensures inverse { mul self.now a result ≡ 1 }
        ensures element { result < 2 ^ self.now.degree }
    {
        u32::from(self.inverses[a as usize])
    }
}

/// Writes the inverse of each element that isn't 0 to its place.
fn fill_inverses(f: &Field, inverses: &mut [u16])
    requires { length inverses.old ≡ 2 ^ (the_field f.now).degree }
    ensures { AreInverses (the_field f.now) (2 ^ (the_field f.now).degree) inverses.new }
{
    let _degree = f.e();
    for a in 1..inverses.len() {
        inverses[a] = f.inv(a as u32) as u16;
    }
}
