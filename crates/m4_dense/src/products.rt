//! Products over every field.

ghost use Rattle.std.specs.Prelude.{◌≡◌, ◌+◌, ◌*◌, ◌%◌, ◌≤◌, IfOk, OnErr};
ghost use Rattle.m4_model.specs.Field.{width};
ghost use Rattle.m4_model.specs.Matrix.{added, product};
ghost use Rattle.m4_model.specs.Shapes.{HasRoom, with_product};
ghost use Rattle.m4_model.specs.Shapes.{cut, replace};
ghost use Rattle.m4_mzd.specs.Reach.{IsReached};
ghost use Rattle.m4_mzd.specs.Rectangles.{IsInside};
ghost use Rattle.m4_elim.specs.FieldEngine.{multiplies_over, field_limits};

use m4_elim::{FieldEngine, How, product_engine};
use m4_model::NoMemory;
use m4_mzd::{Rect, Shape};
use m4_mzed::Mzed;
use m4_newton::EAddMul;
use std::alloc::Global;

/// The product of an m x l matrix `a` and an l x n matrix `b` over the same field: an m x n matrix.
///
/// It takes memory for the product. With tables, these take `tables * 2^k` rows of the product's length besides, and past
/// 2,048 columns of bits a part of the product is worked in room of its own, of at most 3 MiB. Over another field than GF(2)
/// there are multiples of rows of `b` besides: 2 MiB at most, or 64 rows of the product's length.
///
/// Over GF(2) the tables hold the sums of `k` rows of `b`: Albrecht, Bard and Hart, Efficient multiplication of dense
/// matrices over GF(2), ACM Transactions on Mathematical Software 37, 2010. Over another field the bits of `a` are multiplied, in
/// the same way, with the multiples of the rows of `b` by the powers of x: Albrecht, The M4RIE library for dense linear algebra over
/// small fields with even characteristic, ISSAC 2012. Where `Algo::Plain` is asked for, m l multiples of a row of `b` are added.
pub fn product(alloc: Global, how: How, a: &Mzed, b: &Mzed) -> Result<Mzed, NoMemory>
    requires same_field { b.now.field ≡ a.now.field }
    requires inner { a.now.cols ≡ b.now.rows }
    ensures { IfOk result (λ c. c ≡ product a.now b.now) }
{
    let _rows = a.rows();
    let _rows_of_b = b.rows();
    let mut engine = engine_for(alloc, how, a, b)?;
    product_by(alloc, &mut engine, a, b)
}

/// The engine that is asked for, for the product of these matrices.
fn engine_for(alloc: Global, how: How, a: &Mzed, b: &Mzed) -> Result<FieldEngine, NoMemory>
    ensures for_field { IfOk result (λ engine. multiplies_over engine b.now.field) }
    ensures reached { IfOk result (λ engine. IsReached (field_limits engine) a.now.rows a.now.cols b.now.cols) }
{
    let shape = Shape {
        m: a.rows(),
        l: a.cols(),
        n: b.cols(),
    };
    product_engine(alloc, how, b.field(), shape)
}

/// The product of two matrices by an engine.
fn product_by<E: EAddMul>(
    alloc: Global,
    engine: &mut E,
    a: &Mzed,
    b: &Mzed,
) -> Result<Mzed, NoMemory>
    requires for_field { E.IsFor engine.old a.now.field }
    requires same_field { b.now.field ≡ a.now.field }
    requires inner { a.now.cols ≡ b.now.rows }
    requires reached { IsReached (E.limits engine.old) a.now.rows a.now.cols b.now.cols }
    ensures { IfOk result (λ c. c ≡ product a.now b.now) }
{
    let mut c = Mzed::zeros(alloc, a.field(), a.rows(), b.cols())?;
    let (mut all, home) = c.all_mut();
    engine.addmul(&mut all, &a.all(), &b.all());
    c.put_all(all, home);
    Ok(c)
}

/// Adds the product of an m x l matrix `a` and an l x n matrix `b` to the m x n rectangle of `c` that begins at a place, a
/// row and a column, where this column begins at a word. All else of `c` stays, and where memory is wanting all of it.
///
/// It is computed as `product` is, and takes memory for tables and the room of large products, but not for the product.
pub fn add_product(
    alloc: Global,
    how: How,
    c: &mut Mzed,
    place: (u32, u32),
    a: &Mzed,
    b: &Mzed,
) -> Result<(), NoMemory>
    requires first_field { a.now.field ≡ c.old.field }
    requires second_field { b.now.field ≡ c.old.field }
    requires inner { a.now.cols ≡ b.now.rows }
    requires room { HasRoom c.old place.0 place.1 a.now.rows b.now.cols }
    ensures sum { IfOk result (λ done. c.new ≡ with_product c.old place.0 place.1 a.now b.now) }
    ensures kept { OnErr result (c.new ≡ c.old) }
{
    let _shape = c.rows();
    let _rows = a.rows();
    let (row, col) = place;
    let rect = Rect {
        r0: row,
        c0: col,
        r1: row + a.rows(),
        c1: col + b.cols(),
    };
    let mut engine = engine_for(alloc, how, a, b)?;
    add_product_by(&mut engine, c, rect, a, b);
    Ok(())
}

/// Adds the product of `a` and `b` to a rectangle of `c` of its shape, by an engine. All else stays.
fn add_product_by<E: EAddMul>(engine: &mut E, c: &mut Mzed, rect: Rect, a: &Mzed, b: &Mzed)
    requires for_field { E.IsFor engine.old c.old.field }
    requires first_field { a.now.field ≡ c.old.field }
    requires second_field { b.now.field ≡ c.old.field }
    requires inside { IsInside rect c.old.rows c.old.cols }
    requires whole_words { rect.c0 * width c.old.field % 64 ≡ 0 }
    requires inner { a.now.cols ≡ b.now.rows }
    requires rows { rect.r1 ≡ rect.r0 + a.now.rows }
    requires cols { rect.c1 ≡ rect.c0 + b.now.cols }
    requires reached { IsReached (E.limits engine.old) a.now.rows a.now.cols b.now.cols }
    ensures { c.new ≡ replace c.old rect.r0 rect.c0 (added (cut c.old rect.r0 rect.c0 rect.r1 rect.c1) (product a.now b.now)) }
{
    let _rows = a.rows();
    let (mut part, around) = c.win_mut(rect);
    engine.addmul(&mut part, &a.all(), &b.all());
    c.put_win(part, around);
}
