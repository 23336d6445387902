//! Worked solves, and random ones that are multiplied back, over fields of several widths.

ghost use Rattle.std.specs.Prelude.{◌≡◌, ◌≤◌, ◌^◌, IfOk};
ghost use Rattle.m4_field.specs.Fields.{the_field};
ghost use Rattle.m4_mzed.specs.EWindow.{content, showing};
ghost use Rattle.m4_mzed.specs.ESeen.{e_shown};

use super::*;
use crate::side::Side;
use m4_field::Field;
use m4_model::NoMemory;
use m4_mzd::Shape;
use m4_mzed::{EWin, EWinMut, Mzed};
use m4_newton::{EAddMul, EPlain};
use std::alloc::Global;
use std::process::Abort;
use std::test::Fail;

/// The plain engine, which counts its calls.
#[derive(Drop)]
struct Counting {
    calls: u32,
}

impl EAddMul for Counting {
    ghost use Rattle.std.specs.Prelude.{◌^◌};

    ghost limits = { λ _. record { m = 2 ^ 24; l = 2 ^ 24; n = 2 ^ 24 } };

    ghost IsFor = { λ _ _. Unit };

    fn reach(&self) -> Shape {
        EPlain.reach()
    }

    fn addmul(&mut self, c: &mut EWinMut, a: &EWin, b: &EWin) {
        self.calls = self.calls.saturating_add(1);
        EPlain.addmul(c, a, b);
    }
}

/// Where the triangle stands.
#[derive(Clone, Copy)]
struct Place {
    side: Side,
    on_left: bool,
}

const PLACES: [Place; 4] = [
    Place {
        side: Side::Lower,
        on_left: true,
    },
    Place {
        side: Side::Upper,
        on_left: true,
    },
    Place {
        side: Side::Lower,
        on_left: false,
    },
    Place {
        side: Side::Upper,
        on_left: false,
    },
];

/// Solves with the triangle at this place, and answers how often the engine was called.
fn calls_of(rt: &impl Abort, place: Place, t: &Mzed, b: &mut Mzed, cutoff: u32) -> u32
    requires field { t.now.field ≡ b.old.field }
    ensures field { b.new.field ≡ b.old.field }
{
    let side = if place.on_left { b.rows() } else { b.cols() };
    assert!(rt; t.rows() == side && t.cols() == side && cutoff >= 64);
    let mut engine = Counting { calls: 0 };
    let t = t.all();
    let (mut all, home) = b.all_mut();
    solve_at(rt, place, &t, &mut all, &mut engine, cutoff);
    b.put_all(all, home);
    engine.calls
}

/// Solves with the triangle on this side.
fn solve_at(
    rt: &impl Abort,
    place: Place,
    t: &EWin,
    b: &mut EWinMut,
    engine: &mut Counting,
    cutoff: u32,
)
    requires field { (e_shown t.now).field ≡ b.old.field }
    requires cutoff { 64 ≤ cutoff }
    ensures stays { b.new ≡ showing b.old (content b.new) }
{
    if place.on_left {
        solve_on_left(rt, place.side, t, b, engine, cutoff);
    } else {
        solve_on_right(rt, place.side, t, b, engine, cutoff);
    }
}

/// Solves with the triangle on the left.
fn solve_on_left(
    rt: &impl Abort,
    side: Side,
    t: &EWin,
    b: &mut EWinMut,
    engine: &mut Counting,
    cutoff: u32,
)
    requires field { (e_shown t.now).field ≡ b.old.field }
    requires cutoff { 64 ≤ cutoff }
    ensures stays { b.new ≡ showing b.old (content b.new) }
{
    assert!(rt; t.rows() == b.rows() && t.cols() == b.rows());
    let _cols = b.cols();
    match side {
        Side::Lower => solve_lower_left(t, b, engine, cutoff),
        Side::Upper => solve_upper_left(t, b, engine, cutoff),
    }
}

/// Solves with the triangle on the right.
fn solve_on_right(
    rt: &impl Abort,
    side: Side,
    t: &EWin,
    b: &mut EWinMut,
    engine: &mut Counting,
    cutoff: u32,
)
    requires field { (e_shown t.now).field ≡ b.old.field }
    requires cutoff { 64 ≤ cutoff }
    ensures stays { b.new ≡ showing b.old (content b.new) }
{
    assert!(rt; t.rows() == b.cols() && t.cols() == b.cols());
    let _rows = b.rows();
    match side {
        Side::Lower => solve_lower_right(t, b, engine, cutoff),
        Side::Upper => solve_upper_right(t, b, engine, cutoff),
    }
}

/// Writes an entry, where the matrix has it and its field the element.
fn set(m: &mut Mzed, r: u32, c: u32, x: u32)
    ensures field { m.new.field ≡ m.old.field }
    ensures rows { m.new.rows ≡ m.old.rows }
    ensures cols { m.new.cols ≡ m.old.cols }
{
    let field = m.field();
    if r < m.rows() && c < m.cols() && x >> field.e().min(31) == 0 {
        m.put(r, c, x);
    }
}

/// The entry in row `r` and column `c`, or 0 outside of the matrix.
fn entry(m: &Mzed, r: u32, c: u32) -> u32 {
    if r < m.rows() && c < m.cols() {
        m.get(r, c)
    } else {
        0
    }
}

/// A matrix of elements that look random, by the generator of Knuth.
fn mixed(alloc: Global, field: Field, rows: u32, cols: u32, seed: u64) -> Result<Mzed, NoMemory>
    requires few_rows { rows ≤ 1000 }
    requires few_cols { cols ≤ 1000 }
    ensures field { IfOk result (λ m. m.field ≡ the_field field) }
{
    let _width = field.width();
    let mut m = Mzed::zeros(alloc, field, rows, cols)?;
    let mut state = seed;
    for r in 0..rows {
        state = fill_row(&mut m, r, state);
    }
    Ok(m)
}

/// Fills row `r`.
fn fill_row(m: &mut Mzed, r: u32, seed: u64) -> u64
    ensures field { m.new.field ≡ m.old.field }
{
    let spare = 16 - m.field().e().min(16);
    let mut state = seed;
    for c in 0..m.cols() {
        state = state
            .wrapping_mul(6364136223846793005)
            .wrapping_add(1442695040888963407);
        set(m, r, c, (state >> 48) as u32 >> spare);
    }
    state
}

/// The triangle with ones on its diagonal.
fn triangle_of(alloc: Global, side: Side, t: &Mzed) -> Result<Mzed, NoMemory>
    ensures field { IfOk result (λ m. m.field ≡ t.now.field) }
{
    let mut m = t.copy(alloc)?;
    for i in 0..t.rows() {
        keep_inside(&mut m, i, side);
    }
    Ok(m)
}

/// Puts a one on the diagonal in row `i`, and zeros on its other side.
fn keep_inside(m: &mut Mzed, i: u32, side: Side)
    ensures field { m.new.field ≡ m.old.field }
{
    for j in 0..m.cols() {
        let inside = match side {
            Side::Lower => j < i,
            Side::Upper => i < j,
        };
        if !inside {
            set(m, i, j, u32::from(i == j));
        }
    }
}

/// Adds the product of the triangle and `x` to `b`.
fn add_back(rt: &impl Abort, place: Place, triangle: &Mzed, x: &Mzed, b: &mut Mzed)
    requires field { triangle.now.field ≡ b.old.field }
    requires x_field { x.now.field ≡ b.old.field }
{
    let side = if place.on_left { x.rows() } else { x.cols() };
    assert!(rt; triangle.rows() == side && triangle.cols() == side);
    assert!(rt; b.rows() == x.rows() && b.cols() == x.cols());
    let (mut all, home) = b.all_mut();
    if place.on_left {
        EPlain.addmul(&mut all, &triangle.all(), &x.all());
    } else {
        EPlain.addmul(&mut all, &x.all(), &triangle.all());
    }
    b.put_all(all, home);
}

/// Solves at random, and multiplies back.
fn gives_back(
    rt: &impl Abort,
    alloc: Global,
    field: Field,
    place: Place,
    sizes: (u32, u32),
    cutoff: u32,
) -> Result<(), Fail>
    requires few { sizes.0 ≤ 1000 }
    requires few_others { sizes.1 ≤ 1000 }
{
    let (side, other) = sizes;
    let seed = u64::from(side * 1000 + other + 1);
    let t = mixed(alloc, field, side, side, seed)?;
    let (rows, cols) = if place.on_left {
        (side, other)
    } else {
        (other, side)
    };
    let mut b = mixed(alloc, field, rows, cols, seed + 7)?;
    let mut x = b.copy(alloc)?;
    calls_of(rt, place, &t, &mut x, cutoff);
    add_back(rt, place, &triangle_of(alloc, place.side, &t)?, &x, &mut b);
    for i in 0..b.rows() {
        for j in 0..b.cols() {
            assert!(rt; entry(&b, i, j) == 0);
        }
    }
    Ok(())
}

/// A field of this degree and polynomial, or GF(2).
fn field_of(e: u32, poly: u32) -> Field {
    match Field::new(e, poly) {
        Ok(field) => field,
        Err(_) => Field::gf2(),
    }
}

/// A degree, its polynomial, and for each place the solution of a triangle with the entry 2 or 1 inside, of 1 and 3 or of 1
/// and 1.
const WORKED: [(u32, u32, u32, [u32; 2], [[u32; 2]; 4]); 2] = [
    (1, 2, 1, [1, 1], [[1, 0], [0, 1], [0, 1], [1, 0]]),
    (2, 7, 2, [1, 3], [[1, 1], [0, 3], [0, 3], [1, 1]]),
];

#[test]
fn worked_solves(rt: HostRuntime) -> Result<(), Fail> {
    for (e, poly, inside, given, wanted) in &WORKED {
        let field = field_of(*e, *poly);
        let mut t = Mzed::zeros(rt.alloc(), field, 2, 2)?;
        set(&mut t, 0, 1, *inside);
        set(&mut t, 1, 0, *inside);
        for (place, solution) in PLACES.iter().zip(wanted) {
            let (rows, cols) = if place.on_left { (2, 1) } else { (1, 2) };
            let mut b = Mzed::zeros(rt.alloc(), field, rows, cols)?;
            set(&mut b, 0, 0, given[0]);
            set(&mut b, rows - 1, cols - 1, given[1]);
            calls_of(&rt, *place, &t, &mut b, 64);
            assert_eq!(rt; [entry(&b, 0, 0), entry(&b, rows - 1, cols - 1)], *solution);
        }
    }
    Ok(())
}

#[test]
fn random_solves_are_multiplied_back(rt: HostRuntime) -> Result<(), Fail> {
    for field in [
        Field::gf2(),
        field_of(3, 0xb),
        field_of(8, 0x11b),
        field_of(16, 0x1002b),
    ] {
        for place in &PLACES {
            for sizes in [(1, 1), (63, 65), (64, 0), (65, 130), (130, 1), (200, 65)] {
                gives_back(&rt, rt.alloc(), field, *place, sizes, 64)?;
                gives_back(&rt, rt.alloc(), field, *place, sizes, 1000)?;
            }
        }
    }
    Ok(())
}

#[test]
fn the_engine_is_called_past_the_cutoff_alone(rt: HostRuntime) -> Result<(), Fail> {
    for place in &PLACES {
        let small = mixed(rt.alloc(), Field::gf2(), 64, 64, 1)?;
        let mut b = mixed(rt.alloc(), Field::gf2(), 64, 64, 2)?;
        assert_eq!(rt; calls_of(&rt, *place, &small, &mut b, 64), 0);
        let large = mixed(rt.alloc(), Field::gf2(), 130, 130, 1)?;
        let mut b = mixed(rt.alloc(), Field::gf2(), 130, 130, 2)?;
        assert!(rt; calls_of(&rt, *place, &large, &mut b, 64) > 0);
    }
    Ok(())
}
