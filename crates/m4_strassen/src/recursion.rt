//! The recursion: a product that is cut is seven products of quarters and three of the borders.

ghost use Rattle.std.specs.Prelude.{◌≡◌, ◌+◌, ◌*◌, ◌^◌, ◌<◌, ◌≤◌};
ghost use Rattle.m4_model.specs.Field.{gf2};
ghost use Rattle.m4_model.specs.Matrix.{added, product};
ghost use Rattle.m4_model.specs.Recursion.{HaveShape, need, products, s1, s2, s3, s4, t1, t2, t3, t4, winograd};
ghost use Rattle.m4_mzd.specs.Window.{content, showing};
ghost use Rattle.m4_mzd.specs.Seen.{shown};
ghost use Rattle.m4_mzd.specs.Reach.{IsReached};
ghost use Rattle.m4_strassen.specs.Cuts.{IsCut, IsWithin, words_for_cut, added_quarters};
ghost use Rattle.m4_strassen.specs.Level.{read, contents};
ghost use Rattle.m4_strassen.specs.Levels.{IsLevel, HaveSides, with_matrices, with_quarters};

use crate::halves::{Cut, cut_of, is_cut};
use crate::level::{Level, Read, Written, quarters};
use crate::schedule::{
    add_bottom, keep_first, set_fifth, set_seventh, set_sixth, set_third_and_fourth,
};
use m4_mzd::{AddMul, Room, Steps, Win, WinMut, counted};
use std::sync::ledger::Ledger;

/// Adds `a` times `b` to `c`: by one call of the engine below where the product isn't cut, else by halves. Each call of the
/// engine is counted.
#[cycle(halves)]
pub(crate) fn add_by_halves<M: AddMul, L: Ledger>(
    base: &mut M,
    room: &mut Room,
    cutoff: u32,
    c: &mut WinMut,
    a: &Win,
    b: &Win,
    steps: &mut Steps<L>,
)
    requires ready { M.ready base.old }
    requires least { 64 ≤ cutoff }
    requires few { cutoff ≤ 2 ^ 16 }
    requires rows { (shown a.now).rows ≡ c.old.rows }
    requires inner { (shown a.now).cols ≡ (shown b.now).rows }
    requires cols { (shown b.now).cols ≡ c.old.cols }
    requires reached { IsReached (M.limits base.old) c.old.rows (shown a.now).cols c.old.cols }
    requires enough { need c.old.rows (shown a.now).cols c.old.cols cutoff ≤ room.old.left }
    ensures sum { c.new ≡ showing c.old (added (content c.old) (product (shown a.now) (shown b.now))) }
    ensures reach { M.limits base.new ≡ M.limits base.old }
    ensures still_ready { M.ready base.new }
    ensures room { room.new ≡ room.old }
    ensures ticks { steps.new ≤ steps.old + products c.old.rows (shown a.now).cols c.old.cols cutoff }
{
    let (m, l, n) = (c.rows(), a.cols(), c.cols());
    if is_cut(m, l, n, cutoff) {
        add_rows(base, room, cut_of(m, l, n, cutoff), c, a, b, steps);
        return;
    }
    counted(base, c, a, b, steps);
}

/// Adds the product by halves in the rows that the quarters have, and the border below them by the engine.
#[cycle(halves)]
fn add_rows<M: AddMul, L: Ledger>(
    base: &mut M,
    room: &mut Room,
    cut: Cut,
    c: &mut WinMut,
    a: &Win,
    b: &Win,
    steps: &mut Steps<L>,
)
    requires ready { M.ready base.old }
    requires cut { IsCut cut }
    requires within { IsWithin cut c.old.rows (shown a.now).cols c.old.cols }
    requires rows { (shown a.now).rows ≡ c.old.rows }
    requires inner { (shown a.now).cols ≡ (shown b.now).rows }
    requires cols { (shown b.now).cols ≡ c.old.cols }
    requires reached { IsReached (M.limits base.old) c.old.rows (shown a.now).cols c.old.cols }
    requires enough { words_for_cut cut ≤ room.old.left }
    ensures sum { c.new ≡ showing c.old (added (content c.old) (product (shown a.now) (shown b.now))) }
    ensures reach { M.limits base.new ≡ M.limits base.old }
    ensures still_ready { M.ready base.new }
    ensures room { room.new ≡ room.old }
    ensures ticks { steps.new ≤ steps.old + (7 * products cut.m cut.l cut.n cut.cutoff + 3) }
{
    let _rows = c.rows();
    let at = cut.m + cut.m;
    let (first, others) = a.split_rows(at);
    let (mut top, mut bottom) = c.take().split_rows(at);
    let (_top, _bottom) = (top.rows(), bottom.rows());
    add_cols(base, room, cut, &mut top, &first, b, steps);
    counted(base, &mut bottom, &others, b, steps);
    let (_top, _bottom) = (top.rows(), bottom.rows());
    c.put_back(top.join_rows(bottom));
}

/// Adds the product by halves in the columns that the quarters have, and the border right of them by the engine.
#[cycle(halves)]
fn add_cols<M: AddMul, L: Ledger>(
    base: &mut M,
    room: &mut Room,
    cut: Cut,
    c: &mut WinMut,
    a: &Win,
    b: &Win,
    steps: &mut Steps<L>,
)
    requires ready { M.ready base.old }
    requires cut { IsCut cut }
    requires within { IsWithin cut c.old.rows (shown a.now).cols c.old.cols }
    requires height { c.old.rows ≡ cut.m + cut.m }
    requires rows { (shown a.now).rows ≡ c.old.rows }
    requires inner { (shown a.now).cols ≡ (shown b.now).rows }
    requires cols { (shown b.now).cols ≡ c.old.cols }
    requires reached { IsReached (M.limits base.old) c.old.rows (shown a.now).cols c.old.cols }
    requires enough { words_for_cut cut ≤ room.old.left }
    ensures sum { c.new ≡ showing c.old (added (content c.old) (product (shown a.now) (shown b.now))) }
    ensures reach { M.limits base.new ≡ M.limits base.old }
    ensures still_ready { M.ready base.new }
    ensures room { room.new ≡ room.old }
    ensures ticks { steps.new ≤ steps.old + (7 * products cut.m cut.l cut.n cut.cutoff + 2) }
{
    let _cols = c.cols();
    let at = cut.n + cut.n;
    let (first, others) = b.split_cols(at);
    let (mut left, mut right) = c.take().split_cols(at);
    let (_left, _right) = (left.cols(), right.cols());
    add_inner(base, room, cut, &mut left, a, &first, steps);
    counted(base, &mut right, a, &others, steps);
    let (_left, _right) = (left.cols(), right.cols());
    c.put_back(left.join_cols(right));
}

/// Adds the product by halves over the inner columns that the quarters have, and that over the others by the engine.
#[cycle(halves)]
fn add_inner<M: AddMul, L: Ledger>(
    base: &mut M,
    room: &mut Room,
    cut: Cut,
    c: &mut WinMut,
    a: &Win,
    b: &Win,
    steps: &mut Steps<L>,
)
    requires ready { M.ready base.old }
    requires cut { IsCut cut }
    requires within { IsWithin cut c.old.rows (shown a.now).cols c.old.cols }
    requires height { c.old.rows ≡ cut.m + cut.m }
    requires width { c.old.cols ≡ cut.n + cut.n }
    requires rows { (shown a.now).rows ≡ c.old.rows }
    requires inner { (shown a.now).cols ≡ (shown b.now).rows }
    requires cols { (shown b.now).cols ≡ c.old.cols }
    requires reached { IsReached (M.limits base.old) c.old.rows (shown a.now).cols c.old.cols }
    requires enough { words_for_cut cut ≤ room.old.left }
    ensures sum { c.new ≡ showing c.old (added (content c.old) (product (shown a.now) (shown b.now))) }
    ensures reach { M.limits base.new ≡ M.limits base.old }
    ensures still_ready { M.ready base.new }
    ensures room { room.new ≡ room.old }
    ensures ticks { steps.new ≤ steps.old + (7 * products cut.m cut.l cut.n cut.cutoff + 1) }
{
    let at = cut.l + cut.l;
    let (left, right) = a.split_cols(at);
    let (top, bottom) = b.split_rows(at);
    let _cols = c.cols();
    add_quarters(base, room, cut, c, &left, &top, steps);
    counted(base, c, &right, &bottom, steps);
}

/// Adds a product of matrices of four equal quarters each.
#[cycle(halves)]
fn add_quarters<M: AddMul, L: Ledger>(
    base: &mut M,
    room: &mut Room,
    cut: Cut,
    c: &mut WinMut,
    a: &Win,
    b: &Win,
    steps: &mut Steps<L>,
)
    requires ready { M.ready base.old }
    requires cut { IsCut cut }
    requires height { c.old.rows ≡ cut.m + cut.m }
    requires depth { (shown a.now).cols ≡ cut.l + cut.l }
    requires width { c.old.cols ≡ cut.n + cut.n }
    requires rows { (shown a.now).rows ≡ c.old.rows }
    requires inner { (shown a.now).cols ≡ (shown b.now).rows }
    requires cols { (shown b.now).cols ≡ c.old.cols }
    requires reached { IsReached (M.limits base.old) c.old.rows (shown a.now).cols c.old.cols }
    requires enough { words_for_cut cut ≤ room.old.left }
    ensures sum { c.new ≡ showing c.old (added (content c.old) (product (shown a.now) (shown b.now))) }
    ensures reach { M.limits base.new ≡ M.limits base.old }
    ensures still_ready { M.ready base.new }
    ensures room { room.new ≡ room.old }
    ensures ticks { steps.new ≤ steps.old + 7 * products cut.m cut.l cut.n cut.cutoff }
{
    let _rows = c.rows();
    let quarters_of_a = quarters(*a, cut.m, cut.l);
    let quarters_of_b = quarters(*b, cut.l, cut.n);
    let mut parts = Written::new(c.take(), cut.m, cut.n);
    let mut level = Level::carve(room, cut);
    add_all(
        base,
        room,
        cut,
        &mut level,
        &mut parts,
        &quarters_of_a,
        &quarters_of_b,
        steps,
    );
    level.give_back(room);
    c.put_back(parts.join());
}

/// Adds the products of quarters, all seven of them, to the quarters of the window.
#[cycle(halves)]
fn add_all<M: AddMul, L: Ledger>(
    base: &mut M,
    room: &mut Room,
    cut: Cut,
    level: &mut Level,
    c: &mut Written,
    a: &Read,
    b: &Read,
    steps: &mut Steps<L>,
)
    requires ready { M.ready base.old }
    requires cut { IsCut cut }
    requires level { IsLevel cut.m cut.l cut.n level.old }
    requires c_sides { HaveSides cut.m cut.n c.old }
    requires a_shape { HaveShape gf2 cut.m cut.l (read a.now) }
    requires b_shape { HaveShape gf2 cut.l cut.n (read b.now) }
    requires reached { IsReached (M.limits base.old) cut.m cut.l cut.n }
    requires enough { need cut.m cut.l cut.n cut.cutoff ≤ room.old.left }
    requires c_shape { HaveShape gf2 cut.m cut.n (contents c.old) }
    ensures added { c.new ≡ with_quarters c.old (added_quarters (contents c.old) (winograd (read a.now) (read b.now))) }
    ensures level { level.new ≡ with_matrices level.old (content level.new.s) (content level.new.t) (content level.new.p) (content level.new.u) }
    ensures reach { M.limits base.new ≡ M.limits base.old }
    ensures still_ready { M.ready base.new }
    ensures room { room.new ≡ room.old }
    ensures ticks { steps.new ≤ steps.old + 7 * products cut.m cut.l cut.n cut.cutoff }
{
    add_first(base, room, cut, level, c, a, b, steps);
    add_middle(base, room, cut, level, c, a, b, steps);
    add_last(base, room, cut, level, c, a, b, steps);
}

/// The first, the second and the fifth product.
#[cycle(halves)]
fn add_first<M: AddMul, L: Ledger>(
    base: &mut M,
    room: &mut Room,
    cut: Cut,
    level: &mut Level,
    c: &mut Written,
    a: &Read,
    b: &Read,
    steps: &mut Steps<L>,
)
    requires ready { M.ready base.old }
    requires cut { IsCut cut }
    requires level { IsLevel cut.m cut.l cut.n level.old }
    requires c_sides { HaveSides cut.m cut.n c.old }
    requires a_shape { HaveShape gf2 cut.m cut.l (read a.now) }
    requires b_shape { HaveShape gf2 cut.l cut.n (read b.now) }
    requires reached { IsReached (M.limits base.old) cut.m cut.l cut.n }
    requires enough { need cut.m cut.l cut.n cut.cutoff ≤ room.old.left }
    ensures added { c.new ≡ record c.old {
      top_left = showing c.old.top_left (added (added (content c.old.top_left) (product (read a.now).top_left (read b.now).top_left)) (product (read a.now).top_right (read b.now).bottom_left));
    } }
    ensures level { level.new ≡ with_matrices level.old (s1 (read a.now)) (t1 (read b.now)) (product (s1 (read a.now)) (t1 (read b.now))) (product (read a.now).top_left (read b.now).top_left) }
    ensures s_shows { content level.new.s ≡ s1 (read a.now) }
    ensures t_shows { content level.new.t ≡ t1 (read b.now) }
    ensures level_sides { IsLevel cut.m cut.l cut.n level.new }
    ensures c_sides { HaveSides cut.m cut.n c.new }
    ensures reach { M.limits base.new ≡ M.limits base.old }
    ensures still_ready { M.ready base.new }
    ensures room { room.new ≡ room.old }
    ensures ticks { steps.new ≤ steps.old + 3 * products cut.m cut.l cut.n cut.cutoff }
{
    level.p.clear();
    add_by_halves(
        base,
        room,
        cut.cutoff,
        &mut level.p,
        &a.top_left,
        &b.top_left,
        steps,
    );
    keep_first(cut, level, c);
    add_by_halves(
        base,
        room,
        cut.cutoff,
        &mut c.top_left,
        &a.top_right,
        &b.bottom_left,
        steps,
    );
    set_fifth(cut, level, a, b);
    add_by_halves(
        base,
        room,
        cut.cutoff,
        &mut level.p,
        &level.s.see(),
        &level.t.see(),
        steps,
    );
}

/// The sixth, the third and the fourth product.
#[cycle(halves)]
fn add_middle<M: AddMul, L: Ledger>(
    base: &mut M,
    room: &mut Room,
    cut: Cut,
    level: &mut Level,
    c: &mut Written,
    a: &Read,
    b: &Read,
    steps: &mut Steps<L>,
)
    requires ready { M.ready base.old }
    requires cut { IsCut cut }
    requires level { IsLevel cut.m cut.l cut.n level.old }
    requires c_sides { HaveSides cut.m cut.n c.old }
    requires a_shape { HaveShape gf2 cut.m cut.l (read a.now) }
    requires b_shape { HaveShape gf2 cut.l cut.n (read b.now) }
    requires reached { IsReached (M.limits base.old) cut.m cut.l cut.n }
    requires enough { need cut.m cut.l cut.n cut.cutoff ≤ room.old.left }
    requires s_shows { content level.old.s ≡ s1 (read a.now) }
    requires t_shows { content level.old.t ≡ t1 (read b.now) }
    ensures added { c.new ≡ record c.old {
      top_right = showing c.old.top_right (added (content c.old.top_right) (product (s4 (read a.now)) (read b.now).bottom_right));
      bottom_left = showing c.old.bottom_left (added (content c.old.bottom_left) (product (read a.now).bottom_right (t4 (read b.now))));
    } }
    ensures level { level.new ≡ with_matrices level.old (s4 (read a.now)) (t4 (read b.now)) (content level.old.p) (added (content level.old.u) (product (s2 (read a.now)) (t2 (read b.now)))) }
    ensures level_sides { IsLevel cut.m cut.l cut.n level.new }
    ensures c_sides { HaveSides cut.m cut.n c.new }
    ensures reach { M.limits base.new ≡ M.limits base.old }
    ensures still_ready { M.ready base.new }
    ensures room { room.new ≡ room.old }
    ensures ticks { steps.new ≤ steps.old + 3 * products cut.m cut.l cut.n cut.cutoff }
{
    set_sixth(cut, level, a, b);
    add_by_halves(
        base,
        room,
        cut.cutoff,
        &mut level.u,
        &level.s.see(),
        &level.t.see(),
        steps,
    );
    set_third_and_fourth(cut, level, a, b);
    add_by_halves(
        base,
        room,
        cut.cutoff,
        &mut c.top_right,
        &level.s.see(),
        &b.bottom_right,
        steps,
    );
    add_by_halves(
        base,
        room,
        cut.cutoff,
        &mut c.bottom_left,
        &a.bottom_right,
        &level.t.see(),
        steps,
    );
}

/// The seventh product, and the sums of products.
#[cycle(halves)]
fn add_last<M: AddMul, L: Ledger>(
    base: &mut M,
    room: &mut Room,
    cut: Cut,
    level: &mut Level,
    c: &mut Written,
    a: &Read,
    b: &Read,
    steps: &mut Steps<L>,
)
    requires ready { M.ready base.old }
    requires cut { IsCut cut }
    requires level { IsLevel cut.m cut.l cut.n level.old }
    requires c_sides { HaveSides cut.m cut.n c.old }
    requires a_shape { HaveShape gf2 cut.m cut.l (read a.now) }
    requires b_shape { HaveShape gf2 cut.l cut.n (read b.now) }
    requires reached { IsReached (M.limits base.old) cut.m cut.l cut.n }
    requires enough { need cut.m cut.l cut.n cut.cutoff ≤ room.old.left }
    ensures added { c.new ≡ record c.old {
      top_right = showing c.old.top_right (added (added (content c.old.top_right) (content level.old.u)) (content level.old.p));
      bottom_left = showing c.old.bottom_left (added (content c.old.bottom_left) (added (content level.old.u) (product (s3 (read a.now)) (t3 (read b.now)))));
      bottom_right = showing c.old.bottom_right (added (added (content c.old.bottom_right) (added (content level.old.u) (product (s3 (read a.now)) (t3 (read b.now))))) (content level.old.p));
    } }
    ensures level { level.new ≡ with_matrices level.old (s3 (read a.now)) (t3 (read b.now)) (content level.old.p) (added (content level.old.u) (product (s3 (read a.now)) (t3 (read b.now)))) }
    ensures reach { M.limits base.new ≡ M.limits base.old }
    ensures still_ready { M.ready base.new }
    ensures room { room.new ≡ room.old }
    ensures ticks { steps.new ≤ steps.old + products cut.m cut.l cut.n cut.cutoff }
{
    set_seventh(cut, level, c, a, b);
    add_by_halves(
        base,
        room,
        cut.cutoff,
        &mut level.u,
        &level.s.see(),
        &level.t.see(),
        steps,
    );
    add_bottom(cut, level, c);
}
