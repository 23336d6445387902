//! The engines that multiply over a field, made in one place for products and eliminations alike.

ghost use Rattle.std.specs.Prelude.{◌≡◌, ◌*◌, ◌≢◌, ◌≤◌, IfOk};
ghost use Rattle.m4_model.specs.Field.{width};
ghost use Rattle.m4_field.specs.Fields.{the_field};
ghost use Rattle.m4_mzd.specs.Reach.{IsReached};
ghost use Rattle.m4_newton.specs.declared.newton.TheConstants.{MOST_STRIP};
ghost use Rattle.m4_elim.specs.FieldEngine.{multiplies_over, field_limits};

use crate::chosen::Chosen;
use crate::engine::Engine;
use crate::how::How;
use m4_field::Field;
use m4_model::{Algo, NoMemory};
use m4_mzd::{MOST_SIDE, Shape};
use m4_mzed::{EWin, EWinMut};
use m4_newton::{EAddMul, EPlain, MOST_STRIP, Newton, OverBits};
use std::alloc::Global;

/// One of the engines over a field.
#[derive(Drop)]
pub enum FieldEngine {
    /// Over GF(2): an engine for bits.
    Bits(OverBits<Engine>),
    /// Over an extension field, row by row.
    Rows(EPlain),
    /// Over an extension field, by an engine for bits.
    Strips(Newton<Engine>),
}

impl FieldEngine {
    /// The engine that is chosen, for products over this field up to a shape.
    pub(crate) fn new(
        alloc: Global,
        chosen: Chosen,
        field: Field,
        shape: Shape,
    ) -> Result<FieldEngine, NoMemory>
        requires few_rows { shape.m ≤ MOST_SIDE }
        requires few_inner { shape.l ≤ MOST_SIDE }
        requires few_bits { shape.n * width (the_field field) ≤ MOST_SIDE }
        ensures for_field { IfOk result (λ engine. multiplies_over engine (the_field field)) }
        ensures reached { IfOk result (λ engine. IsReached (field_limits engine) shape.m shape.l shape.n) }
    {
        let bits = shape_in_bits(field, shape);
        if field.e() == 1 {
            let engine = Engine::new(alloc, chosen, bits)?;
            return Ok(FieldEngine::Bits(OverBits { engine }));
        }
        if chosen.algo == Algo::Plain {
            return Ok(FieldEngine::Rows(EPlain));
        }
        let engine = Engine::new(alloc, chosen, bits)?;
        let newton = Newton::new(alloc, field, shape.n, engine)?;
        Ok(FieldEngine::Strips(newton))
    }
}

/// The engine that is asked for, for products over this field up to a shape. It takes memory for tables, for room in which large
/// products are worked, and over another field than GF(2) for multiples of rows of the second factor.
pub fn product_engine(
    alloc: Global,
    how: How,
    field: Field,
    shape: Shape,
) -> Result<FieldEngine, NoMemory>
    requires few_rows { shape.m ≤ MOST_SIDE }
    requires few_inner { shape.l ≤ MOST_SIDE }
    requires few_bits { shape.n * width (the_field field) ≤ MOST_SIDE }
    ensures for_field { IfOk result (λ engine. multiplies_over engine (the_field field)) }
    ensures reached { IfOk result (λ engine. IsReached (field_limits engine) shape.m shape.l shape.n) }
{
    let chosen = Chosen::for_product(how, shape_in_bits(field, shape));
    FieldEngine::new(alloc, chosen, field, shape)
}

/// The shape of the products over GF(2) that a product over this field is made of.
pub(crate) fn shape_in_bits(field: Field, shape: Shape) -> Shape
    requires few_bits { shape.n * width (the_field field) ≤ MOST_SIDE }
    ensures rows { result.m ≡ shape.m }
    ensures inner { (the_field field).degree ≡ 1 → result.l ≡ shape.l }
    ensures strip { (the_field field).degree ≢ 1 → result.l ≡ MOST_STRIP }
    ensures cols { result.n ≡ shape.n * width (the_field field) }
{
    let inner = if field.e() == 1 { shape.l } else { MOST_STRIP };
    Shape {
        m: shape.m,
        l: inner,
        n: shape.n * field.width(),
    }
}

impl EAddMul for FieldEngine {
    ghost use Rattle.m4_elim.specs.FieldEngine.{multiplies_over, field_limits};

    ghost limits = { field_limits };

    ghost IsFor = { multiplies_over };

    fn reach(&self) -> Shape {
        match self {
            FieldEngine::Bits(bits) => bits.reach(),
            FieldEngine::Rows(rows) => rows.reach(),
            FieldEngine::Strips(strips) => strips.reach(),
        }
    }

    fn addmul(&mut self, c: &mut EWinMut, a: &EWin, b: &EWin) {
        match self {
            FieldEngine::Bits(bits) => bits.addmul(c, a, b),
            FieldEngine::Rows(rows) => rows.addmul(c, a, b),
            FieldEngine::Strips(strips) => strips.addmul(c, a, b),
        }
    }
}
