//! A product over any field by products over GF(2), strip by strip.

ghost use Rattle.std.specs.Prelude.{◌≡◌, ◌+◌, ◌*◌, ◌≤◌};
ghost use Rattle.m4_model.specs.Field.{width};
ghost use Rattle.m4_model.specs.Matrix.{added, product};
ghost use Rattle.m4_mzd.specs.Reach.{IsReached};
ghost use Rattle.m4_mzed.specs.EWindow.{content, showing};
ghost use Rattle.m4_mzed.specs.ESeen.{e_shown};
ghost use Rattle.m4_newton.specs.Multiples.{HasMultiples};
ghost use Rattle.m4_newton.specs.Strips.{AreStrips, strips_of};

use crate::multiples::put_all_multiples;
use m4_mzd::{AddMul, Rect, Steps};
use m4_mzed::{EWin, EWinMut, Mzed};
use std::sync::ledger::Ledger;

/// Adds `a` times `b` to `c`, with the multiples of as many rows of `b` at once as there is room for. Takes a step for each row
/// of `b`.
pub(crate) fn add_by_strips<M: AddMul, L: Ledger>(
    engine: &mut M,
    room: &mut Mzed,
    c: &mut EWinMut,
    a: &EWin,
    b: &EWin,
    steps: &mut Steps<L>,
)
    requires ready { M.ready engine.old }
    requires strips { AreStrips (strips_of room.old (M.limits engine.old)) }
    requires room_field { c.old.field ≡ room.old.field }
    requires a_field { (e_shown a.now).field ≡ c.old.field }
    requires b_field { (e_shown b.now).field ≡ c.old.field }
    requires rows { (e_shown a.now).rows ≡ c.old.rows }
    requires inner { (e_shown a.now).cols ≡ (e_shown b.now).rows }
    requires cols { (e_shown b.now).cols ≡ c.old.cols }
    requires few_rows { c.old.rows ≤ (M.limits engine.old).m }
    requires few_cols { c.old.cols ≤ room.old.cols }
    ensures sum { c.new ≡ showing c.old (added (content c.old) (product (e_shown a.now) (e_shown b.now))) }
    ensures still_ready { M.ready engine.new }
    ensures same { strips_of room.new (M.limits engine.new) ≡ strips_of room.old (M.limits engine.old) }
    ensures ticks { steps.new ≡ steps.old + (e_shown b.now).rows }
{
    let most = room.rows() / room.field().width();
    let _rows = c.rows();
    let mut left = *a;
    let mut below = *b;
    while most < below.rows() {
        let _left = left.rows();
        let (columns, others) = left.split_cols(most);
        let (rows, rest) = below.split_rows(most);
        add_strip(engine, room, c, &columns, &rows, steps);
        left = others;
        below = rest;
    }
    add_strip(engine, room, c, &left, &below, steps);
}

/// Adds `a` times `b` to `c`, with the multiples of all rows of `b` in `room`. Takes a step for each row of `b`.
fn add_strip<M: AddMul, L: Ledger>(
    engine: &mut M,
    room: &mut Mzed,
    c: &mut EWinMut,
    a: &EWin,
    b: &EWin,
    steps: &mut Steps<L>,
)
    requires a_field { (e_shown a.now).field ≡ c.old.field }
    requires b_field { (e_shown b.now).field ≡ c.old.field }
    requires rows { (e_shown a.now).rows ≡ c.old.rows }
    requires inner { (e_shown a.now).cols ≡ (e_shown b.now).rows }
    requires cols { (e_shown b.now).cols ≡ c.old.cols }
    requires room_field { room.old.field ≡ c.old.field }
    requires room_rows { (e_shown b.now).rows * width c.old.field ≤ room.old.rows }
    requires room_cols { c.old.cols ≤ room.old.cols }
    requires ready { M.ready engine.old }
    requires reached { IsReached (M.limits engine.old) c.old.rows ((e_shown b.now).rows * width c.old.field) (c.old.cols * width c.old.field) }
    ensures sum { c.new ≡ showing c.old (added (content c.old) (product (e_shown a.now) (e_shown b.now))) }
    ensures reach { M.limits engine.new ≡ M.limits engine.old }
    ensures still_ready { M.ready engine.new }
    ensures same_field { room.new.field ≡ room.old.field }
    ensures same_rows { room.new.rows ≡ room.old.rows }
    ensures same_cols { room.new.cols ≡ room.old.cols }
    ensures ticks { steps.new ≡ steps.old + (e_shown b.now).rows }
{
    let _room = room.rows();
    let rect = Rect {
        r0: 0,
        c0: 0,
        r1: b.rows() * b.field().width(),
        c1: b.cols(),
    };
    let (mut part, around) = room.win_mut(rect);
    put_all_multiples(&mut part, b, steps);
    add_by_bits(engine, c, a, b, &part.see());
    room.put_win(part, around);
}

/// Adds `a` times `b` to `c`, by one product over GF(2): of the bits of `a` with the multiples of the rows of `b`.
fn add_by_bits<M: AddMul>(engine: &mut M, c: &mut EWinMut, a: &EWin, b: &EWin, multiples: &EWin)
    requires a_field { (e_shown a.now).field ≡ c.old.field }
    requires b_field { (e_shown b.now).field ≡ c.old.field }
    requires multiples_field { (e_shown multiples.now).field ≡ c.old.field }
    requires rows { (e_shown a.now).rows ≡ c.old.rows }
    requires inner { (e_shown a.now).cols ≡ (e_shown b.now).rows }
    requires cols { (e_shown b.now).cols ≡ c.old.cols }
    requires multiples_cols { (e_shown multiples.now).cols ≡ c.old.cols }
    requires multiples_rows { (e_shown multiples.now).rows ≡ (e_shown b.now).rows * width c.old.field }
    requires multiples { HasMultiples (e_shown multiples.now) (e_shown b.now) (e_shown b.now).rows }
    requires ready { M.ready engine.old }
    requires reached { IsReached (M.limits engine.old) c.old.rows ((e_shown b.now).rows * width c.old.field) (c.old.cols * width c.old.field) }
    ensures sum { c.new ≡ showing c.old (added (content c.old) (product (e_shown a.now) (e_shown b.now))) }
    ensures reach { M.limits engine.new ≡ M.limits engine.old }
    ensures still_ready { M.ready engine.new }
{
    let field = c.field();
    let cols = c.cols();
    let _rows_of_b = b.rows();
    let left = a.packed();
    let _left = left.rows();
    let right = multiples.packed();
    let _right = right.rows();
    let mut bits = c.take().into_packed();
    let _rows = bits.rows();
    engine.addmul(&mut bits, &left, &right);
    let _new_rows = bits.rows();
    c.put_back(EWinMut::of_packed(field, cols, bits));
}
