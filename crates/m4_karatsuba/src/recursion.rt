//! The recursion: a product of polynomials is three products of their halves.

ghost use Rattle.std.specs.Prelude.{◌≡◌, ℕ, ◌+◌, ◌-◌, ◌*◌, ◌^◌, ◌≤◌, bit_xor};
ghost use Rattle.m4_mzd.specs.declared.TheConstants.{MOST_SIDE};
ghost use Rattle.m4_mzd.specs.Reach.{IsReached};
ghost use Rattle.m4_mzd.specs.Seen.{shown};
ghost use Rattle.m4_karatsuba.specs.Counts.{karatsuba};
ghost use Rattle.m4_karatsuba.specs.Factors.{AreFactors, AreHalves, HasSlices, IsAdded, product_of, middle_of};
ghost use Rattle.m4_karatsuba.specs.Rooms.{room_words, words_with_product, words_with_sums, IsCut, HoldsProduct};

use crate::factors::Factors;
use crate::sums::{add_rows_from, set_sum};
use m4_mzd::{AddMul, Room, Steps, WinMut, counted};
use std::sync::ledger::Ledger;

/// Adds the product of the factors to the slices in `c`: by one call of the engine below for factors of one slice, else by their
/// halves. Each call of the engine is counted.
#[cycle(parts)]
pub(crate) fn add_by_parts<M: AddMul, L: Ledger>(
    base: &mut M,
    room: &mut Room,
    c: &mut WinMut,
    factors: &Factors,
    steps: &mut Steps<L>,
)
    requires ready { M.ready base.old }
    requires factors { AreFactors factors.now }
    requires slices { HasSlices (2 * factors.now.count - 1) factors.now.shape c.old }
    requires reached { IsReached (M.limits base.old) factors.now.shape.m factors.now.shape.l factors.now.shape.n }
    requires enough { room_words factors.now.count factors.now.shape ≤ room.old.left }
    ensures sum { IsAdded (2 * factors.now.count - 1) factors.now.shape c.old c.new (product_of factors.now) }
    ensures reach { M.limits base.new ≡ M.limits base.old }
    ensures still_ready { M.ready base.new }
    ensures room { room.new ≡ room.old }
    ensures ticks { steps.new ≤ steps.old + karatsuba factors.now.count }
{
    if factors.count > 1 {
        add_by_halves(base, room, c, factors, steps);
        return;
    }
    counted(base, c, &factors.a, &factors.b, steps);
}

/// Adds the product of factors of more than one slice: those of the lower and of the upper halves at two places each, and that of
/// the sums of both.
#[cycle(parts)]
fn add_by_halves<M: AddMul, L: Ledger>(
    base: &mut M,
    room: &mut Room,
    c: &mut WinMut,
    factors: &Factors,
    steps: &mut Steps<L>,
)
    requires ready { M.ready base.old }
    requires factors { AreFactors factors.now }
    requires some { 2 ≤ factors.now.count }
    requires slices { HasSlices (2 * factors.now.count - 1) factors.now.shape c.old }
    requires reached { IsReached (M.limits base.old) factors.now.shape.m factors.now.shape.l factors.now.shape.n }
    requires enough { room_words factors.now.count factors.now.shape ≤ room.old.left }
    ensures sum { IsAdded (2 * factors.now.count - 1) factors.now.shape c.old c.new (product_of factors.now) }
    ensures reach { M.limits base.new ≡ M.limits base.old }
    ensures still_ready { M.ready base.new }
    ensures room { room.new ≡ room.old }
    ensures ticks { steps.new ≤ steps.old + karatsuba factors.now.count }
{
    let (low, high) = factors.halves();
    let half = low.count;
    add_twice(base, room, c, (0, half), &low, steps);
    add_twice(base, room, c, (half, 2 * half), &high, steps);
    add_middle(base, room, c, &low, &high, steps);
}

/// Adds the product of the factors to the slices in `c` from two places on.
#[cycle(parts)]
fn add_twice<M: AddMul, L: Ledger>(
    base: &mut M,
    room: &mut Room,
    c: &mut WinMut,
    places: (u32, u32),
    factors: &Factors,
    steps: &mut Steps<L>,
)
    requires ready { M.ready base.old }
    requires factors { AreFactors factors.now }
    requires first_place { (places.0 + (2 * factors.now.count - 1)) * factors.now.shape.m ≤ c.old.rows }
    requires second_place { (places.1 + (2 * factors.now.count - 1)) * factors.now.shape.m ≤ c.old.rows }
    requires cols { c.old.cols ≡ factors.now.shape.n }
    requires reached { IsReached (M.limits base.old) factors.now.shape.m factors.now.shape.l factors.now.shape.n }
    requires enough { words_with_product factors.now.count factors.now.shape ≤ room.old.left }
    ensures sum { (count : ℕ) → HasSlices count factors.now.shape c.old → places.0 + (2 * factors.now.count - 1) ≤ count → places.1 + (2 * factors.now.count - 1) ≤ count
        → IsAdded count factors.now.shape c.old c.new (λ i j. bit_xor (product_of factors.now i j * 2 ^ places.0) (product_of factors.now i j * 2 ^ places.1)) }
    ensures reach { M.limits base.new ≡ M.limits base.old }
    ensures still_ready { M.ready base.new }
    ensures room { room.new ≡ room.old }
    ensures rows { c.new.rows ≡ c.old.rows }
    ensures cols { c.new.cols ≡ c.old.cols }
    ensures ticks { steps.new ≤ steps.old + karatsuba factors.now.count }
{
    let _rows = c.rows();
    let product = product_in_room(base, room, factors, steps);
    add_rows_from(c, places.0 * factors.shape.m, &product.see());
    add_rows_from(c, places.1 * factors.shape.m, &product.see());
    room.give_back(product);
}

/// Adds the product of the sums of the lower and the upper halves of both factors to the slices in `c` from as many on as a lower
/// half has.
#[cycle(parts)]
fn add_middle<M: AddMul, L: Ledger>(
    base: &mut M,
    room: &mut Room,
    c: &mut WinMut,
    low: &Factors,
    high: &Factors,
    steps: &mut Steps<L>,
)
    requires ready { M.ready base.old }
    requires low { AreFactors low.now }
    requires high { AreFactors high.now }
    requires same_shape { high.now.shape ≡ low.now.shape }
    requires no_more { high.now.count ≤ low.now.count }
    requires place { (low.now.count + (2 * low.now.count - 1)) * low.now.shape.m ≤ c.old.rows }
    requires cols { c.old.cols ≡ low.now.shape.n }
    requires reached { IsReached (M.limits base.old) low.now.shape.m low.now.shape.l low.now.shape.n }
    requires enough { words_with_sums low.now.count low.now.shape ≤ room.old.left }
    ensures sum { (count : ℕ) → HasSlices count low.now.shape c.old → low.now.count + (2 * low.now.count - 1) ≤ count
        → IsAdded count low.now.shape c.old c.new (λ i j. middle_of low.now high.now i j * 2 ^ low.now.count) }
    ensures reach { M.limits base.new ≡ M.limits base.old }
    ensures still_ready { M.ready base.new }
    ensures room { room.new ≡ room.old }
    ensures ticks { steps.new ≤ steps.old + karatsuba low.now.count }
{
    let (shape, count) = (low.shape, low.count);
    let _rows = low.a.rows();
    let _rows_of_b = low.b.rows();
    let mut a = room.carve(count * shape.m, shape.l);
    let mut b = room.carve(count * shape.l, shape.n);
    set_sum(&mut a, &low.a, &high.a);
    set_sum(&mut b, &low.b, &high.b);
    let sums = Factors {
        a: a.see(),
        b: b.see(),
        shape,
        count,
    };
    add_once(base, room, c, count, &sums, steps);
    room.give_back(b);
    room.give_back(a);
}

/// Adds the product of the factors to the slices in `c` from one place on.
#[cycle(parts)]
fn add_once<M: AddMul, L: Ledger>(
    base: &mut M,
    room: &mut Room,
    c: &mut WinMut,
    place: u32,
    factors: &Factors,
    steps: &mut Steps<L>,
)
    requires ready { M.ready base.old }
    requires factors { AreFactors factors.now }
    requires place { (place + (2 * factors.now.count - 1)) * factors.now.shape.m ≤ c.old.rows }
    requires cols { c.old.cols ≡ factors.now.shape.n }
    requires reached { IsReached (M.limits base.old) factors.now.shape.m factors.now.shape.l factors.now.shape.n }
    requires enough { words_with_product factors.now.count factors.now.shape ≤ room.old.left }
    ensures sum { (count : ℕ) → HasSlices count factors.now.shape c.old → place + (2 * factors.now.count - 1) ≤ count
        → IsAdded count factors.now.shape c.old c.new (λ i j. product_of factors.now i j * 2 ^ place) }
    ensures reach { M.limits base.new ≡ M.limits base.old }
    ensures still_ready { M.ready base.new }
    ensures room { room.new ≡ room.old }
    ensures ticks { steps.new ≤ steps.old + karatsuba factors.now.count }
{
    let _rows = c.rows();
    let product = product_in_room(base, room, factors, steps);
    add_rows_from(c, place * factors.shape.m, &product.see());
    room.give_back(product);
}

/// The product of the factors, in a window that is cut from the room.
#[cycle(parts)]
pub(crate) fn product_in_room<M: AddMul, L: Ledger>(
    base: &mut M,
    room: &mut Room,
    factors: &Factors,
    steps: &mut Steps<L>,
) -> WinMut
    requires ready { M.ready base.old }
    requires factors { AreFactors factors.now }
    requires few { (2 * factors.now.count - 1) * factors.now.shape.m ≤ MOST_SIDE }
    requires reached { IsReached (M.limits base.old) factors.now.shape.m factors.now.shape.l factors.now.shape.n }
    requires enough { words_with_product factors.now.count factors.now.shape ≤ room.old.left }
    ensures product { HoldsProduct (2 * factors.now.count - 1) factors.now.shape result (product_of factors.now) }
    ensures cut { IsCut result room.old room.new }
    ensures reach { M.limits base.new ≡ M.limits base.old }
    ensures still_ready { M.ready base.new }
    ensures ticks { steps.new ≤ steps.old + karatsuba factors.now.count }
{
    let _cols = factors.b.cols();
    let mut product = room.carve((2 * factors.count - 1) * factors.shape.m, factors.shape.n);
    product.clear();
    add_by_parts(base, room, &mut product, factors, steps);
    product
}
