//! Products by slices over each field: worked cases, those of the plain engine, and how many products over GF(2) they take.

ghost use Rattle.std.specs.Prelude.{◌≡◌, ◌^◌, ◌<◌, ◌≤◌, IfOk};
ghost use Rattle.m4_field.specs.Fields.{the_field};
ghost use Rattle.m4_mzd.specs.Reach.{IsReached};

use crate::KaratsubaMul;
use m4_field::Field;
use m4_gen::generate;
use m4_model::NoMemory;
use m4_mul::Plain;
use m4_mzd::{AddMul, Shape, Win, WinMut};
use m4_mzed::Mzed;
use m4_newton::{EAddMul, EPlain};
use std::alloc::Global;
use std::test::Fail;

/// An engine that counts the products that it is given.
#[derive(Drop)]
struct Counting {
    products: u32,
}

impl AddMul for Counting {
    ghost limits = { λ _. record { m = 2 ^ 24; l = 2 ^ 24; n = 2 ^ 24 } };

    fn reach(&self) -> Shape {
        Plain.reach()
    }

    fn addmul(&mut self, c: &mut WinMut, a: &Win, b: &Win) {
        self.products = self.products.saturating_add(1);
        Plain.addmul(c, a, b);
    }
}

// Adds the product of two matrices to a third.
fn add<E: EAddMul>(engine: &mut E, c: &mut Mzed, a: &Mzed, b: &Mzed)
    requires for_field { E.IsFor engine.old c.old.field }
    requires a_field { a.now.field ≡ c.old.field }
    requires b_field { b.now.field ≡ c.old.field }
    requires rows { a.now.rows ≡ c.old.rows }
    requires inner { a.now.cols ≡ b.now.rows }
    requires cols { b.now.cols ≡ c.old.cols }
    requires reached { IsReached (E.limits engine.old) c.old.rows a.now.cols c.old.cols }
    ensures rows { c.new.rows ≡ c.old.rows }
    ensures cols { c.new.cols ≡ c.old.cols }
{
    let (mut all, home) = c.all_mut();
    engine.addmul(&mut all, &a.all(), &b.all());
    c.put_all(all, home);
}

// The matrix of one entry.
fn one_entry(alloc: Global, field: Field, x: u32) -> Result<Mzed, NoMemory>
    requires { x < 2 ^ (the_field field).degree }
    ensures shape { IfOk result (λ m. (m.rows ≡ 1) × (m.cols ≡ 1)) }
    ensures field { IfOk result (λ m. m.field ≡ the_field field) }
{
    let _width = field.width();
    let mut m = Mzed::zeros(alloc, field, 1, 1)?;
    m.put(0, 0, x);
    Ok(m)
}

// The product of two matrices of one entry.
fn product(alloc: Global, field: Field, x: u32, y: u32) -> Result<u32, NoMemory>
    requires first { x < 2 ^ (the_field field).degree }
    requires second { y < 2 ^ (the_field field).degree }
{
    let _degree = field.e();
    let a = one_entry(alloc, field, x)?;
    let b = one_entry(alloc, field, y)?;
    let mut c = one_entry(alloc, field, 0)?;
    let mut engine = KaratsubaMul::new(alloc, field, Shape { m: 1, l: 1, n: 1 }, Plain)?;
    add(&mut engine, &mut c, &a, &b);
    Ok(c.get(0, 0))
}

#[test]
fn matrices_of_one_entry_are_multiplied(rt: HostRuntime) -> Result<(), Fail> {
    if let Ok(field) = Field::new(3, 0xb) {
        if field.e() == 3 {
            assert_eq!(rt; product(rt.alloc(), field, 6, 5)?, 3);
        }
    }
    Ok(())
}

// Whether products by slices are those of the plain engine, added to what is there already.
fn products_agree(alloc: Global, field: Field) -> Result<bool, NoMemory> {
    let _degree = field.e();
    let _width = field.width();
    let a = generate(alloc, field, 70, 90, 1)?;
    let b = generate(alloc, field, 90, 65, 2)?;
    let mut c = generate(alloc, field, 70, 65, 3)?;
    let mut d = c.copy(alloc)?;
    let reach = Shape {
        m: 80,
        l: 100,
        n: 130,
    };
    let mut engine = KaratsubaMul::new(alloc, field, reach, Plain)?;
    add(&mut engine, &mut c, &a, &b);
    add(&mut EPlain, &mut d, &a, &b);
    Ok(c == d)
}

// A polynomial for each degree.
const FIELDS: [(u32, u32); 15] = [
    (2, 7),
    (3, 0xb),
    (4, 0x13),
    (5, 0x25),
    (6, 0x43),
    (7, 0x83),
    (8, 0x11b),
    (9, 0x203),
    (10, 0x409),
    (11, 0x805),
    (12, 0x1053),
    (13, 0x201b),
    (14, 0x4443),
    (15, 0x8003),
    (16, 0x1_002b),
];

#[test]
fn products_are_those_of_the_plain_engine(rt: HostRuntime) -> Result<(), Fail> {
    assert!(rt; products_agree(rt.alloc(), Field::gf2())?);
    for case in &FIELDS {
        let right = match Field::new(case.0, case.1) {
            Ok(field) => products_agree(rt.alloc(), field)?,
            Err(_) => false,
        };
        assert!(rt; right);
    }
    Ok(())
}

// How many products over GF(2) a product over a field takes.
fn products_taken(alloc: Global, field: Field) -> Result<u32, NoMemory> {
    let _degree = field.e();
    let _width = field.width();
    let a = generate(alloc, field, 70, 90, 1)?;
    let b = generate(alloc, field, 90, 65, 2)?;
    let mut c = Mzed::zeros(alloc, field, 70, 65)?;
    let reach = Shape {
        m: 70,
        l: 90,
        n: 65,
    };
    let mut engine = KaratsubaMul::new(alloc, field, reach, Counting { products: 0 })?;
    add(&mut engine, &mut c, &a, &b);
    Ok(engine.engine.products)
}

#[test]
fn eight_slices_take_27_products(rt: HostRuntime) -> Result<(), Fail> {
    if let Ok(field) = Field::new(8, 0x11b) {
        assert_eq!(rt; products_taken(rt.alloc(), field)?, 27);
    }
    Ok(())
}
