//! A product of packed matrices by products of their slices.

ghost use Rattle.std.specs.Prelude.{◌≡◌, ◌+◌, ◌-◌, ◌*◌, ◌≤◌};
ghost use Rattle.m4_model.specs.Matrix.{added, product};
ghost use Rattle.m4_field.specs.Fields.{the_field};
ghost use Rattle.m4_mzd.specs.Reach.{IsReached};
ghost use Rattle.m4_mzed.specs.EWindow.{content, showing};
ghost use Rattle.m4_mzed.specs.ESeen.{e_shown};
ghost use Rattle.m4_karatsuba.specs.Counts.{karatsuba};
ghost use Rattle.m4_karatsuba.specs.Engine.{remainders_of};
ghost use Rattle.m4_karatsuba.specs.Factors.{AreFactors};
ghost use Rattle.m4_karatsuba.specs.Rooms.{words_with_product, words_with_sums};

use crate::factors::Factors;
use crate::recursion::product_in_room;
use crate::reduce::reduce;
use m4_field::Field;
use m4_mzd::{AddMul, MOST_SIDE, Room, Scratch, Shape, Steps};
use m4_mzed::{EWin, EWinMut};
use m4_slice::{add_slices, load_slices};
use std::sync::ledger::Ledger;

/// Adds `a` times `b` to `c`, all over one field, with all slices in memory that is reserved. Counts each product of slices.
pub(crate) fn add_in_scratch<M: AddMul, L: Ledger>(
    engine: &mut M,
    scratch: &mut Scratch,
    field: Field,
    c: &mut EWinMut,
    a: &EWin,
    b: &EWin,
    steps: &mut Steps<L>,
)
    requires ready { M.ready engine.old }
    requires c_field { c.old.field ≡ the_field field }
    requires a_field { (e_shown a.now).field ≡ c.old.field }
    requires b_field { (e_shown b.now).field ≡ c.old.field }
    requires rows { (e_shown a.now).rows ≡ c.old.rows }
    requires inner { (e_shown a.now).cols ≡ (e_shown b.now).rows }
    requires cols { (e_shown b.now).cols ≡ c.old.cols }
    requires few_rows { (2 * (the_field field).degree - 1) * c.old.rows ≤ MOST_SIDE }
    requires few_inner { (the_field field).degree * (e_shown a.now).cols ≤ MOST_SIDE }
    requires reached { IsReached (M.limits engine.old) c.old.rows (e_shown a.now).cols c.old.cols }
    requires enough { words_with_sums (the_field field).degree (record { m = c.old.rows; l = (e_shown a.now).cols; n = c.old.cols }) ≤ scratch.old }
    ensures sum { c.new ≡ showing c.old (added (content c.old) (product (e_shown a.now) (e_shown b.now))) }
    ensures reach { M.limits engine.new ≡ M.limits engine.old }
    ensures still_ready { M.ready engine.new }
    ensures scratch { scratch.new ≡ scratch.old }
    ensures ticks { steps.new ≤ steps.old + karatsuba (the_field field).degree }
{
    let (mut room, home) = scratch.room();
    add_in_room(engine, &mut room, field, c, a, b, steps);
    scratch.put_room(room, home);
}

/// The same with the slices of both factors in windows that are cut from the room.
fn add_in_room<M: AddMul, L: Ledger>(
    engine: &mut M,
    room: &mut Room,
    field: Field,
    c: &mut EWinMut,
    a: &EWin,
    b: &EWin,
    steps: &mut Steps<L>,
)
    requires ready { M.ready engine.old }
    requires c_field { c.old.field ≡ the_field field }
    requires a_field { (e_shown a.now).field ≡ c.old.field }
    requires b_field { (e_shown b.now).field ≡ c.old.field }
    requires rows { (e_shown a.now).rows ≡ c.old.rows }
    requires inner { (e_shown a.now).cols ≡ (e_shown b.now).rows }
    requires cols { (e_shown b.now).cols ≡ c.old.cols }
    requires few_rows { (2 * (the_field field).degree - 1) * c.old.rows ≤ MOST_SIDE }
    requires few_inner { (the_field field).degree * (e_shown a.now).cols ≤ MOST_SIDE }
    requires reached { IsReached (M.limits engine.old) c.old.rows (e_shown a.now).cols c.old.cols }
    requires enough { words_with_sums (the_field field).degree (record { m = c.old.rows; l = (e_shown a.now).cols; n = c.old.cols }) ≤ room.old.left }
    ensures sum { c.new ≡ showing c.old (added (content c.old) (product (e_shown a.now) (e_shown b.now))) }
    ensures reach { M.limits engine.new ≡ M.limits engine.old }
    ensures still_ready { M.ready engine.new }
    ensures room { room.new ≡ room.old }
    ensures ticks { steps.new ≤ steps.old + karatsuba (the_field field).degree }
{
    let _width = field.width();
    let count = field.e();
    let shape = Shape {
        m: c.rows(),
        l: a.cols(),
        n: c.cols(),
    };
    let _rows_of_b = b.rows();
    let mut slices_of_a = room.carve(count * shape.m, shape.l);
    let mut slices_of_b = room.carve(count * shape.l, shape.n);
    load_slices(&mut slices_of_a, a);
    load_slices(&mut slices_of_b, b);
    let factors = Factors {
        a: slices_of_a.see(),
        b: slices_of_b.see(),
        shape,
        count,
    };
    add_remainders(engine, room, field, c, &factors, steps);
    room.give_back(slices_of_b);
    room.give_back(slices_of_a);
}

/// Adds the remainders of the product of the factors.
fn add_remainders<M: AddMul, L: Ledger>(
    engine: &mut M,
    room: &mut Room,
    field: Field,
    c: &mut EWinMut,
    factors: &Factors,
    steps: &mut Steps<L>,
)
    requires ready { M.ready engine.old }
    requires factors { AreFactors factors.now }
    requires count { factors.now.count ≡ (the_field field).degree }
    requires field { c.old.field ≡ the_field field }
    requires rows { c.old.rows ≡ factors.now.shape.m }
    requires cols { c.old.cols ≡ factors.now.shape.n }
    requires few_rows { (2 * factors.now.count - 1) * factors.now.shape.m ≤ MOST_SIDE }
    requires reached { IsReached (M.limits engine.old) factors.now.shape.m factors.now.shape.l factors.now.shape.n }
    requires enough { words_with_product factors.now.count factors.now.shape ≤ room.old.left }
    ensures sum { c.new ≡ showing c.old (added (content c.old) (remainders_of (the_field field) factors.now)) }
    ensures reach { M.limits engine.new ≡ M.limits engine.old }
    ensures still_ready { M.ready engine.new }
    ensures room { room.new ≡ room.old }
    ensures ticks { steps.new ≤ steps.old + karatsuba factors.now.count }
{
    let mut product = product_in_room(engine, room, factors, steps);
    reduce(&mut product, field, factors.shape);
    let _rows = product.rows();
    let (remainders, _) = product.see().split_rows(factors.count * factors.shape.m);
    add_slices(c, &remainders);
    room.give_back(product);
}
