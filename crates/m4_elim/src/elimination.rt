//! What eliminations work with over each field.

ghost use Rattle.std.specs.Prelude.{◌≡◌, ◌⊎◌, ◌*◌, ◌≤◌, IfOk, unwrap_or};
ghost use Rattle.m4_model.specs.Field.{width};
ghost use Rattle.m4_field.specs.Fields.{the_field};
ghost use Rattle.m4_solve.specs.Context.{Serves};
ghost use Rattle.m4_elim.specs.FieldEngine.{multiplies_over, field_limits};
ghost use Rattle.m4_elim.specs.Elimination.{factors_over};

use crate::chosen::{Chosen, ELIMINATION_CUTOFF};
use crate::field_engine::{FieldEngine, shape_in_bits};
use crate::how::How;
use m4_eple::{Base, ByTables, ByWords, Halving};
use m4_field::Field;
use m4_model::NoMemory;
use m4_mzd::{MOST_SIDE, Shape};
use m4_mzed::EWinMut;
use std::alloc::Global;

/// What factors the parts of a matrix over a field that are not halved.
#[derive(Drop)]
pub(crate) enum FieldBase {
    /// Over GF(2), by words.
    Words(ByWords),
    /// Over an extension field, by tables of multiples.
    Tables(ByTables),
}

impl FieldBase {
    /// What factors parts of up to so many rows over this field.
    fn new(alloc: Global, field: Field, rows: u32) -> Result<FieldBase, NoMemory>
        ensures { IfOk result (λ base. factors_over base (the_field field)) }
    {
        if field.e() == 1 {
            Ok(FieldBase::Words(ByWords::new(alloc, rows)?))
        } else {
            Ok(FieldBase::Tables(ByTables::new(alloc, field)?))
        }
    }
}

impl Base for FieldBase {
    ghost use Rattle.m4_elim.specs.Elimination.{factors_over};

    ghost IsFor = { factors_over };

    fn strip(&self) -> u32 {
        match self {
            FieldBase::Words(words) => words.strip(),
            FieldBase::Tables(tables) => tables.strip(),
        }
    }

    fn ple(&mut self, a: &mut EWinMut, p: &mut [u32], q: &mut [u32]) -> u32 {
        match self {
            FieldBase::Words(words) => words.ple(a, p, q),
            FieldBase::Tables(tables) => tables.ple(a, p, q),
        }
    }
}

/// What an elimination works with.
pub(crate) type Elimination = Halving<FieldEngine, FieldBase>;

/// What an elimination of a matrix of so many rows and columns over this field works with: the engine that is asked for, and
/// the cutoff.
pub(crate) fn elimination(
    alloc: Global,
    how: How,
    field: Field,
    rows: u32,
    cols: u32,
) -> Result<Elimination, NoMemory>
    requires few_rows { rows ≤ MOST_SIDE }
    requires few_bits { cols * width (the_field field) ≤ MOST_SIDE }
    ensures for_field { IfOk result (λ with. multiplies_over with.engine (the_field field)) }
    ensures base_for_field { IfOk result (λ with. factors_over with.base (the_field field)) }
    ensures serves { IfOk result (λ with. Serves (field_limits with.engine) with.cutoff rows cols) }
    ensures cutoff { IfOk result (λ with. with.cutoff ≡ unwrap_or how.cutoff ELIMINATION_CUTOFF) }
{
    let shape = Shape {
        m: rows,
        l: rows.min(cols),
        n: cols,
    };
    let chosen = Chosen::for_elimination(how, shape_in_bits(field, shape));
    Ok(Halving {
        engine: FieldEngine::new(alloc, chosen, field, shape)?,
        base: FieldBase::new(alloc, field, rows)?,
        cutoff: chosen.cutoff,
    })
}
