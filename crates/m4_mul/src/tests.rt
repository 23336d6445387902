//! Products by both engines, and how many rows a product by tables adds.

ghost use Rattle.std.specs.Prelude.{◌≡◌, ◌+◌, ◌<◌, ◌≤◌, IfOk};
ghost use Rattle.m4_mzd.specs.Reach.{IsReached};
ghost use Rattle.m4_mul.specs.Room.{AreBlocks};

use crate::blocks::add_in_blocks;
use crate::packed::{Blocks, Packed};
use crate::{Plain, Table};
use m4_gray::{MOST_K, MOST_TABLES};
use m4_model::NoMemory;
use m4_mzd::{AddMul, Mzd, Shape, Steps, mixed};
use std::alloc::Global;
use std::marker::Brand;
use std::sync::ledger::{Blank, Ledger};
use std::test::Fail;

#[test]
fn a_product_is_added(rt: HostRuntime) -> Result<(), Fail> {
    let mut a = Mzd::zeros(rt.alloc(), 2, 2)?;
    a.put(0, 0, true);
    a.put(0, 1, true);
    let mut b = Mzd::zeros(rt.alloc(), 2, 130)?;
    b.put(0, 0, true);
    b.put(1, 64, true);
    b.put(1, 129, true);
    let mut c = Mzd::zeros(rt.alloc(), 2, 130)?;
    c.put(0, 129, true);
    c.put(1, 129, true);
    let (mut all, home) = c.all_mut();
    Plain.addmul(&mut all, &a.all(), &b.all());
    assert!(rt; all.get(0, 0));
    assert!(rt; all.get(0, 64));
    assert!(rt; !all.get(0, 129));
    assert!(rt; !all.get(1, 0));
    assert!(rt; all.get(1, 129));
    c.put_all(all, home);
    Ok(())
}

#[test]
fn the_factors_are_parts_of_the_same_matrix(rt: HostRuntime) -> Result<(), Fail> {
    let mut m = Mzd::zeros(rt.alloc(), 1, 129)?;
    m.put(0, 67, true);
    m.put(0, 128, true);
    let (all, home) = m.all_mut();
    let (mut left, rest) = all.split_cols(64);
    let (middle, right) = rest.see().split_cols(64);
    Plain.addmul(&mut left, &right, &middle);
    assert!(rt; left.get(0, 3));
    assert!(rt; !left.get(0, 4));
    m.put_all(left.join_cols(rest), home);
    Ok(())
}

// The product of two square matrices by an engine.
fn times<E: AddMul>(alloc: Global, engine: &mut E, a: &Mzd, b: &Mzd) -> Result<Mzd, NoMemory>
    requires square { (a.now.rows ≡ a.now.cols) × (b.now.cols ≡ a.now.cols) }
    requires inner { a.now.cols ≡ b.now.rows }
    requires ready { E.ready engine.old }
    requires reached { IsReached (E.limits engine.old) a.now.rows a.now.cols a.now.cols }
    ensures { IfOk result (λ c. (c.rows ≡ a.now.rows) × (c.cols ≡ a.now.cols)) }
{
    let mut c = Mzd::zeros(alloc, a.rows(), b.cols())?;
    let (mut all, home) = c.all_mut();
    engine.addmul(&mut all, &a.all(), &b.all());
    c.put_all(all, home);
    Ok(c)
}

// Multiplies matrices of ones by tables of four entries: 16 rows are added, however many tables there are.
fn multiply_ones<L: Ledger>(
    alloc: Global,
    tables: u32,
    steps: &mut Steps<L>,
) -> Result<bool, NoMemory>
    requires some { 1 ≤ tables }
    requires few { tables ≤ MOST_TABLES }
    ensures { IfOk result (λ _. steps.new ≡ steps.old + 16) }
{
    let a = Mzd::from_digits(alloc, &[*b"11111"; 3])?;
    let b = Mzd::from_digits(alloc, &[*b"11"; 5])?;
    let mut c = Mzd::zeros(alloc, 3, 2)?;
    let mut table = Table::new(alloc, 2, 2, tables)?;
    let (mut all, home) = c.all_mut();
    table.addmul_counted(&mut all, &a.all(), &b.all(), steps);
    c.put_all(all, home);
    Ok(c.get(2, 1))
}

// Whether each number of tables gives the product.
fn all_give_ones<L: Ledger>(alloc: Global, blank: Blank) -> Result<bool, NoMemory>
    requires name { blank.name ≡ L.name }
    requires parts { blank.parts ≡ L.parts }
    requires one { blank.parts ≡ 1 }
{
    let mut steps = Steps::<L>::new(blank);
    let mut ones = true;
    for tables in 1..9 {
        let one = multiply_ones(alloc, tables, &mut steps)?;
        ones = ones && one;
    }
    Ok(ones)
}

#[test]
fn any_number_of_tables_adds_as_many_rows(rt: HostRuntime) -> Result<(), Fail> {
    assert!(rt; all_give_ones::<Brand>(rt.alloc(), Blank::new(1))?);
    Ok(())
}

// Whether both engines agree on square matrices of this size.
fn engines_agree(alloc: Global, n: u32, k: u32, tables: u32) -> Result<bool, NoMemory>
    requires size { n ≤ 1000 }
    requires some_k { 1 ≤ k }
    requires small_k { k ≤ MOST_K }
    requires some_tables { 1 ≤ tables }
    requires few_tables { tables ≤ MOST_TABLES }
{
    let a = mixed(alloc, n, n, 0x9E37_79B9_7F4A_7C15)?;
    let b = mixed(alloc, n, n, 0xD1B5_4A32_D192_ED03)?;
    let mut table = Table::new(alloc, n, k, tables)?;
    let by_table = times(alloc, &mut table, &a, &b)?;
    let by_rows = times(alloc, &mut Plain, &a, &b)?;
    Ok(by_table == by_rows)
}

#[test]
fn both_engines_agree(rt: HostRuntime) -> Result<(), Fail> {
    for tables in 1..9 {
        for k in 1..9 {
            assert!(rt; engines_agree(rt.alloc(), 65, k, tables)?);
        }
        assert!(rt; engines_agree(rt.alloc(), 127, 9 - tables, tables)?);
        assert!(rt; engines_agree(rt.alloc(), 128, tables, tables)?);
    }
    assert!(rt; engines_agree(rt.alloc(), 130, 8, 8)?);
    assert!(rt; engines_agree(rt.alloc(), 130, 3, 5)?);
    assert!(rt; engines_agree(rt.alloc(), 1000, 6, 4)?);
    assert!(rt; engines_agree(rt.alloc(), 1000, 8, 8)?);
    Ok(())
}

// Adds a product to a matrix by an engine.
fn add_by<E: AddMul>(engine: &mut E, c: &mut Mzd, a: &Mzd, b: &Mzd)
    requires rows { a.now.rows ≡ c.old.rows }
    requires inner { a.now.cols ≡ b.now.rows }
    requires cols { b.now.cols ≡ c.old.cols }
    requires ready { E.ready engine.old }
    requires reached { IsReached (E.limits engine.old) c.old.rows a.now.cols c.old.cols }
{
    let (mut all, home) = c.all_mut();
    engine.addmul(&mut all, &a.all(), &b.all());
    c.put_all(all, home);
}

// Adds a product to a matrix by blocks.
fn add_by_blocks<L: Ledger>(packed: &mut Packed, c: &mut Mzd, a: &Mzd, b: &Mzd, blank: Blank)
    requires name { blank.name ≡ L.name }
    requires parts { blank.parts ≡ L.parts }
    requires one { blank.parts ≡ 1 }
    requires rows { a.now.rows ≡ c.old.rows }
    requires inner { a.now.cols ≡ b.now.rows }
    requires cols { b.now.cols ≡ c.old.cols }
{
    let mut steps = Steps::<L>::new(blank);
    let (mut all, home) = c.all_mut();
    add_in_blocks(packed, &mut all, &a.all(), &b.all(), &mut steps);
    c.put_all(all, home);
}

// Whether blocks of this size add what the plain engine adds, for an `m` x `l` matrix times an `l` x `n` matrix.
fn blocks_agree(alloc: Global, blocks: Blocks, shape: Shape, k: u32) -> Result<bool, NoMemory>
    requires blocks { AreBlocks blocks }
    requires rows { shape.m ≤ 300 }
    requires inner { shape.l ≤ 300 }
    requires cols { shape.n ≤ 300 }
    requires some_k { 1 ≤ k }
    requires small_k { k ≤ MOST_K }
{
    let a = mixed(alloc, shape.m, shape.l, 0x9E37_79B9_7F4A_7C15)?;
    let b = mixed(alloc, shape.l, shape.n, 0xD1B5_4A32_D192_ED03)?;
    let mut c = mixed(alloc, shape.m, shape.n, 0xA24B_AED4_963E_E407)?;
    let mut d = mixed(alloc, shape.m, shape.n, 0xA24B_AED4_963E_E407)?;
    let mut packed = Packed::new(alloc, blocks, k, 8)?;
    add_by_blocks::<Brand>(&mut packed, &mut c, &a, &b, Blank::new(1));
    add_by(&mut Plain, &mut d, &a, &b);
    Ok(c == d)
}

// Whether a product with so many columns that it goes block by block is the same by the plain engine.
fn wide_products_agree(alloc: Global, m: u32, l: u32, n: u32) -> Result<bool, NoMemory>
    requires rows { m ≤ 3000 }
    requires inner { l ≤ 3000 }
    requires cols { n ≤ 3000 }
{
    let a = mixed(alloc, m, l, 0x9E37_79B9_7F4A_7C15)?;
    let b = mixed(alloc, l, n, 0xD1B5_4A32_D192_ED03)?;
    let mut c = mixed(alloc, m, n, 0xA24B_AED4_963E_E407)?;
    let mut d = mixed(alloc, m, n, 0xA24B_AED4_963E_E407)?;
    let mut table = Table::new(alloc, n, 8, 8)?;
    add_by(&mut table, &mut c, &a, &b);
    add_by(&mut Plain, &mut d, &a, &b);
    Ok(c == d)
}

#[test]
fn wide_products_are_the_same(rt: HostRuntime) -> Result<(), Fail> {
    assert!(rt; wide_products_agree(rt.alloc(), 3, 520, 2048)?);
    assert!(rt; wide_products_agree(rt.alloc(), 3, 512, 2060)?);
    assert!(rt; wide_products_agree(rt.alloc(), 20, 520, 2060)?);
    Ok(())
}

// Products of these numbers of rows, inner rows and columns, by blocks of rows, words and words of a panel.
const IN_BLOCKS: [([u32; 3], [u32; 3]); 8] = [
    ([1, 1, 1], [1, 1, 1]),
    ([5, 64, 64], [5, 1, 1]),
    ([6, 65, 65], [5, 1, 1]),
    ([11, 129, 193], [5, 1, 1]),
    ([16, 200, 300], [3, 2, 2]),
    ([9, 300, 128], [8, 1, 3]),
    ([7, 0, 130], [2, 1, 1]),
    ([0, 70, 130], [2, 1, 1]),
];

#[test]
fn products_in_blocks_agree(rt: HostRuntime) -> Result<(), Fail> {
    for (shape, blocks) in &IN_BLOCKS {
        let &[m, l, n] = shape;
        let &[rows, words, panel] = blocks;
        let shape = Shape { m, l, n };
        let blocks = Blocks { rows, words, panel };
        assert!(rt; blocks_agree(rt.alloc(), blocks, shape, 8)?);
        assert!(rt; blocks_agree(rt.alloc(), blocks, shape, 3)?);
    }
    Ok(())
}
