//! Products by halves: worked cases, borders, and which products the engine below is given.

ghost use Rattle.std.specs.Prelude.{◌≡◌, ◌^◌, ◌≤◌, ◌<◌};
ghost use Rattle.m4_mzd.specs.Reach.{IsReached};

use crate::Strassen;
use m4_model::NoMemory;
use m4_mul::{Plain, Table};
use m4_mzd::{AddMul, MOST_SIDE, Mzd, Scratch, Shape, Win, WinMut, mixed};
use std::alloc::Global;
use std::test::Fail;

/// An engine that notes how many products of 64 x 64 matrices it is given, and how many others with no side of 0.
#[derive(Drop)]
struct Noting {
    squares: u32,
    others: u32,
}

impl AddMul for Noting {
    ghost limits = { λ _. record { m = 2 ^ 24; l = 2 ^ 24; n = 2 ^ 24 } };

    fn reach(&self) -> Shape {
        Plain.reach()
    }

    fn addmul(&mut self, c: &mut WinMut, a: &Win, b: &Win) {
        let sides = (c.rows(), a.cols(), c.cols());
        if sides == (64, 64, 64) {
            self.squares = self.squares.saturating_add(1);
        } else if sides.0 > 0 && sides.1 > 0 && sides.2 > 0 {
            self.others = self.others.saturating_add(1);
        }
        Plain.addmul(c, a, b);
    }
}

/// The sides of products: of matrices of `m` x `l` and `l` x `n` entries.
const SIDES: [(u32, u32, u32); 8] = [
    (2, 2, 2),
    (127, 128, 128),
    (128, 128, 128),
    (129, 191, 129),
    (130, 195, 259),
    (256, 256, 256),
    (257, 300, 260),
    (128, 640, 192),
];

/// The product of two matrices of made-up digits, added to a third.
fn added_by<M: AddMul>(
    alloc: Global,
    engine: &mut M,
    sides: (u32, u32, u32),
) -> Result<Mzd, NoMemory>
    requires ready { M.ready engine.old }
    requires few_rows { sides.0 ≤ MOST_SIDE }
    requires few_inner { sides.1 ≤ MOST_SIDE }
    requires few_cols { sides.2 ≤ MOST_SIDE }
    requires reached { IsReached (M.limits engine.old) sides.0 sides.1 sides.2 }
    ensures ready { M.ready engine.new }
    ensures reach { M.limits engine.new ≡ M.limits engine.old }
{
    let (m, l, n) = sides;
    let a = mixed(alloc, m, l, 1)?;
    let b = mixed(alloc, l, n, 2)?;
    let mut c = mixed(alloc, m, n, 3)?;
    let (mut all, home) = c.all_mut();
    engine.addmul(&mut all, &a.all(), &b.all());
    c.put_all(all, home);
    Ok(c)
}

/// Whether the engine by halves over tables, and over the plain engine, adds the product that the plain one does.
fn same_sums(alloc: Global, sides: (u32, u32, u32)) -> Result<bool, NoMemory>
    requires few_rows { sides.0 ≤ MOST_SIDE }
    requires few_inner { sides.1 ≤ MOST_SIDE }
    requires few_cols { sides.2 ≤ MOST_SIDE }
{
    let (m, l, n) = sides;
    let shape = Shape { m, l, n };
    let sum = added_by(alloc, &mut Plain, sides)?;
    let mut over_plain = Strassen::new(alloc, shape, 64, Plain)?;
    let mut over_tables = Strassen::new(alloc, shape, 64, Table::new(alloc, n, 6, 4)?)?;
    Ok(
        added_by(alloc, &mut over_plain, sides)? == sum
            && added_by(alloc, &mut over_tables, sides)? == sum,
    )
}

/// Which products an engine is given for one of 128 x 128 matrices that is cut once.
fn products_of_one_level(alloc: Global) -> Result<(u32, u32), NoMemory> {
    let noting = Noting {
        squares: 0,
        others: 0,
    };
    let (m, l, n) = (128, 128, 128);
    let mut engine = Strassen::new(alloc, Shape { m, l, n }, 64, noting)?;
    let _sum = added_by(alloc, &mut engine, (m, l, n))?;
    Ok((engine.base.squares, engine.base.others))
}

/// The words of a room before a window is cut from it, meanwhile, and once it is given back.
fn words_left(alloc: Global) -> Result<(u64, u64, u64), NoMemory> {
    let mut scratch = Scratch::new(alloc, 256)?;
    let (mut room, home) = scratch.room();
    let all = room.left();
    let window = room.carve(64, 65);
    let meanwhile = room.left();
    room.give_back(window);
    let again = room.left();
    scratch.put_room(room, home);
    Ok((all, meanwhile, again))
}

#[test]
fn sums_are_those_of_the_plain_engine(rt: HostRuntime) -> Result<(), Fail> {
    for sides in &SIDES {
        let few = (
            sides.0.min(MOST_SIDE),
            sides.1.min(MOST_SIDE),
            sides.2.min(MOST_SIDE),
        );
        assert!(rt; same_sums(rt.alloc(), few)?);
    }
    Ok(())
}

#[test]
fn one_level_is_seven_products(rt: HostRuntime) -> Result<(), Fail> {
    assert!(rt; products_of_one_level(rt.alloc())? == (7, 0));
    Ok(())
}

#[test]
fn words_are_cut_off_and_given_back(rt: HostRuntime) -> Result<(), Fail> {
    assert!(rt; words_left(rt.alloc())? == (256, 128, 256));
    Ok(())
}
