//! PLE by halves beside the plain elimination, over GF(2) and over extension fields, and a PLUQ.

ghost use Rattle.std.specs.Prelude.{◌≡◌, ◌^◌, ◌<◌, ◌≤◌, length, IfOk};
ghost use Rattle.m4_model.specs.Field.{gf2};
ghost use Rattle.m4_field.specs.Fields.{the_field};

use crate::{Base, ByTables, ByWords, Halving, Plain as PlainBase, ple_by_halves, pluq};
use m4_field::Field;
use m4_model::NoMemory;
use m4_mul::Plain;
use m4_mzd::{AddMul, Mzd, mixed};
use m4_mzed::{EWinMut, Mzed};
use m4_newton::{EPlain, OverBits};
use m4_ple::ple_plain;
use std::alloc::Global;
use std::test::Fail;

/// The product of two matrices.
fn product(alloc: Global, a: &Mzd, b: &Mzd) -> Result<Mzd, NoMemory>
    requires inner { a.now.cols ≡ b.now.rows }
    ensures shape { IfOk result (λ c. (c.rows ≡ a.now.rows) × (c.cols ≡ b.now.cols)) }
{
    let _rows = a.rows();
    let mut c = Mzd::zeros(alloc, a.rows(), b.cols())?;
    let (mut all, home) = c.all_mut();
    Plain.addmul(&mut all, &a.all(), &b.all());
    c.put_all(all, home);
    Ok(c)
}

/// Makes zeros of the ones on the diagonal, and ones of the zeros: mixed bits alone have a rank of at most 64.
fn flip_diagonal(m: &mut Mzd)
    ensures rows { m.new.rows ≡ m.old.rows }
    ensures cols { m.new.cols ≡ m.old.cols }
{
    for i in 0..m.rows().min(m.cols()) {
        let bit = m.get(i, i);
        m.put(i, i, !bit);
    }
}

/// A matrix that looks random, of at most this rank, and of at least half of it.
fn of_rank(alloc: Global, rows: u32, cols: u32, rank: u32) -> Result<Mzd, NoMemory>
    requires few_rows { rows ≤ 1000 }
    requires few_cols { cols ≤ 1000 }
    requires few { rank ≤ 1000 }
    ensures shape { IfOk result (λ c. (c.rows ≡ rows) × (c.cols ≡ cols)) }
{
    let mut a = mixed(alloc, rows, rank, 1)?;
    let mut b = mixed(alloc, rank, cols, 2)?;
    flip_diagonal(&mut a);
    flip_diagonal(&mut b);
    product(alloc, &a, &b)
}

/// Factors the matrix by halves over a base.
fn factor<B: Base>(
    alloc: Global,
    m: &mut Mzd,
    p: &mut [u32],
    q: &mut [u32],
    with: &mut Halving<OverBits<Plain>, B>,
) -> Result<u32, NoMemory>
    requires for_field { B.IsFor with.old.base gf2 }
    requires cutoff { 64 ≤ with.old.cutoff }
    requires few_rows { m.old.rows ≤ 1000 }
    requires few_cols { m.old.cols ≤ 1000 }
    requires exchanges { length p.old ≡ m.old.rows }
    requires pivots { m.old.cols ≤ length q.old }
    ensures rows { IfOk result (λ _. m.new.rows ≡ m.old.rows) }
    ensures cols { IfOk result (λ _. m.new.cols ≡ m.old.cols) }
{
    let mut row = Mzd::zeros(alloc, 1, m.cols())?;
    let (all, home) = m.all_mut();
    let (spare, spare_home) = row.all_mut();
    let mut window = EWinMut::of_bits(all);
    let mut spare = EWinMut::of_bits(spare);
    let rank = ple_by_halves(&mut window, p, q, &mut spare, with);
    m.put_all(window.into_bits(), home);
    row.put_all(spare.into_bits(), spare_home);
    Ok(rank)
}

/// Whether a matrix of about this rank is factored by halves as without them: the plain elimination takes the same pivots in the
/// same rows, so the exchanges, the pivots and the factors are the same.
fn are_alike<B: Base>(
    alloc: Global,
    rows: u32,
    cols: u32,
    rank: u32,
    with: &mut Halving<OverBits<Plain>, B>,
) -> Result<bool, NoMemory>
    requires for_field { B.IsFor with.old.base gf2 }
    requires cutoff { 64 ≤ with.old.cutoff }
    requires few_rows { rows ≤ 1000 }
    requires few_cols { cols ≤ 1000 }
    requires few { rank ≤ 1000 }
{
    let mut halved = of_rank(alloc, rows, cols, rank)?;
    let mut plain = of_rank(alloc, rows, cols, rank)?;
    let mut p = vec![in alloc; 0u32; rows as usize]?;
    let mut q = vec![in alloc; 0u32; cols as usize]?;
    let mut plain_p = vec![in alloc; 0u32; rows as usize]?;
    let mut plain_q = vec![in alloc; 0u32; cols as usize]?;
    let r = factor(alloc, &mut halved, &mut p, &mut q, with)?;
    let (all, home) = plain.all_mut();
    let mut window = EWinMut::of_bits(all);
    let plain_r = ple_plain(&mut window, &mut plain_p, &mut plain_q);
    plain.put_all(window.into_bits(), home);
    Ok(
        r <= rank
            && rank <= 2 * r
            && plain_r == r
            && p == plain_p
            && q == plain_q
            && halved == plain,
    )
}

// Rows, columns and about the rank of matrices that are factored: of nearly full rank, of fewer pivots than a half has
// columns, with few rows, and with few columns.
const SHAPES: [(u32, u32, u32); 5] = [
    (150, 200, 150),
    (200, 150, 40),
    (200, 260, 100),
    (20, 300, 20),
    (300, 70, 70),
];

/// Whether such a matrix is factored alike by halves over windows that are eliminated whole.
fn halves_are_alike(alloc: Global, rows: u32, cols: u32, rank: u32) -> Result<bool, NoMemory>
    requires few_rows { rows ≤ 1000 }
    requires few_cols { cols ≤ 1000 }
    requires few { rank ≤ 1000 }
{
    let mut with = Halving {
        engine: OverBits { engine: Plain },
        base: PlainBase,
        cutoff: 64,
    };
    are_alike(alloc, rows, cols, rank, &mut with)
}

/// Whether such a matrix is factored alike by strips of one word, below this cutoff, and by halves above it.
fn strips_are_alike(
    alloc: Global,
    rows: u32,
    cols: u32,
    rank: u32,
    cutoff: u32,
) -> Result<bool, NoMemory>
    requires few_rows { rows ≤ 1000 }
    requires few_cols { cols ≤ 1000 }
    requires few { rank ≤ 1000 }
    requires cutoff { 64 ≤ cutoff }
{
    let mut with = Halving {
        engine: OverBits { engine: Plain },
        base: ByWords::new(alloc, rows)?,
        cutoff,
    };
    are_alike(alloc, rows, cols, rank, &mut with)
}

#[test]
fn halves_and_strips_are_factored_as_the_whole(rt: HostRuntime) -> Result<(), Fail> {
    for (rows, cols, rank) in SHAPES {
        assert!(rt; rows <= 1000 && cols <= 1000 && rank <= 1000);
        assert!(rt; halves_are_alike(rt.alloc(), rows, cols, rank)?);
        assert!(rt; strips_are_alike(rt.alloc(), rows, cols, rank, 64)?);
        assert!(rt; strips_are_alike(rt.alloc(), rows, cols, rank, 1000)?);
    }
    Ok(())
}

/// An element without an order for a place. The columns whose number has the remainder 4 on division by 5 are zeros.
fn element(field: Field, r: u32, c: u32) -> u32
    ensures { result < 2 ^ (the_field field).degree }
{
    let _degree = field.e();
    let elements = 1u32 << field.e();
    let place = u64::from(r) << 32 | u64::from(c) + 1;
    let word = if c % 5 == 4 { 0 } else { place };
    (word.wrapping_mul(0x9E37_79B9_7F4A_7C15) >> 40) as u32 % elements
}

/// A matrix of 150 rows and 140 columns of such elements, in which every seventh row is the one above it again.
fn elements(alloc: Global, field: Field) -> Result<Mzed, NoMemory>
    ensures shape { IfOk result (λ m. (m.rows ≡ 150) × (m.cols ≡ 140)) }
    ensures field { IfOk result (λ m. m.field ≡ the_field field) }
{
    let _width = field.width();
    let mut m = Mzed::zeros(alloc, field, 150, 140)?;
    for r in 0..150 {
        put_elements(&mut m, field, r);
    }
    Ok(m)
}

/// Writes row `r`.
fn put_elements(m: &mut Mzed, field: Field, r: u32)
    requires field { m.old.field ≡ the_field field }
    requires rows { r < m.old.rows }
    ensures rows { m.new.rows ≡ m.old.rows }
    ensures cols { m.new.cols ≡ m.old.cols }
    ensures field { m.new.field ≡ m.old.field }
{
    let source = if r % 7 == 6 { r - 1 } else { r };
    for c in 0..m.cols() {
        m.put(r, c, element(field, source, c));
    }
}

/// Whether such a matrix is factored alike by strips and tables of multiples, and row by row.
fn tables_are_alike(alloc: Global, field: Field) -> Result<bool, NoMemory> {
    let _width = field.width();
    let mut halved = elements(alloc, field)?;
    let mut plain = elements(alloc, field)?;
    let mut row = Mzed::zeros(alloc, field, 1, 140)?;
    let mut with = Halving {
        engine: EPlain,
        base: ByTables::new(alloc, field)?,
        cutoff: 64,
    };
    let mut p = vec![in alloc; 0u32; 150]?;
    let mut q = vec![in alloc; 0u32; 140]?;
    let mut plain_p = vec![in alloc; 0u32; 150]?;
    let mut plain_q = vec![in alloc; 0u32; 140]?;
    let (mut all, home) = halved.all_mut();
    let (mut spare, spare_home) = row.all_mut();
    let rank = ple_by_halves(&mut all, &mut p, &mut q, &mut spare, &mut with);
    halved.put_all(all, home);
    row.put_all(spare, spare_home);
    let (mut whole, place) = plain.all_mut();
    let plain_rank = ple_plain(&mut whole, &mut plain_p, &mut plain_q);
    plain.put_all(whole, place);
    Ok(64 < rank && rank == plain_rank && p == plain_p && q == plain_q && halved == plain)
}

// Degrees with one part of a table, and with two, and a polynomial of each.
const FIELDS: [(u32, u32); 4] = [(2, 0x7), (8, 0x11b), (9, 0x203), (16, 0x1002b)];

#[test]
fn tables_of_multiples_factor_as_rows_do(rt: HostRuntime) -> Result<(), Fail> {
    for case in &FIELDS {
        let field = Field::new(case.0, case.1)?;
        assert!(rt; tables_are_alike(rt.alloc(), field)?);
    }
    Ok(())
}

// A matrix over GF(4), x^2 + x + 1, whose first column is zero, and what its PLUQ leaves in its place: the inverse of 3 is
// 2, and the factor that clears the second row is 3, the square of 2.
const ROWS_OVER_GF4: [[u32; 3]; 3] = [[0, 3, 1], [0, 2, 2], [0, 0, 0]];

const PLUQ_OVER_GF4: [[u32; 3]; 3] = [[3, 1, 0], [3, 1, 0], [0, 0, 0]];

/// A matrix over GF(4) of these elements.
fn over_gf4(alloc: Global, field: Field, rows: &[[u32; 3]; 3]) -> Result<Mzed, NoMemory>
    ensures shape { IfOk result (λ m. (m.rows ≡ 3) × (m.cols ≡ 3)) }
    ensures field { IfOk result (λ m. m.field ≡ the_field field) }
{
    let _width = field.width();
    let mut m = Mzed::zeros(alloc, field, 3, 3)?;
    put_row(&mut m, 0, &rows[0]);
    put_row(&mut m, 1, &rows[1]);
    put_row(&mut m, 2, &rows[2]);
    Ok(m)
}

/// Writes row `r`.
fn put_row(m: &mut Mzed, r: u32, row: &[u32; 3])
    requires { r < m.old.rows }
    ensures rows { m.new.rows ≡ m.old.rows }
    ensures cols { m.new.cols ≡ m.old.cols }
    ensures field { m.new.field ≡ m.old.field }
{
    let field = m.field();
    let _degree = field.e();
    let elements = 1u32 << field.e();
    for c in 0..m.cols() {
        m.put(r, c, row[c as usize % 3] % elements);
    }
}

#[test]
fn pluq_over_gf4(rt: HostRuntime) -> Result<(), Fail> {
    let alloc = rt.alloc();
    let field = Field::new(2, 7)?;
    let _width = field.width();
    let mut m = over_gf4(alloc, field, &ROWS_OVER_GF4)?;
    let mut row = Mzed::zeros(alloc, field, 1, 3)?;
    let mut with = Halving {
        engine: EPlain,
        base: ByTables::new(alloc, field)?,
        cutoff: 64,
    };
    let mut p = [7u32; 3];
    let mut q = [7u32; 3];
    let (mut all, home) = m.all_mut();
    let (mut spare, spare_home) = row.all_mut();
    let rank = pluq(&mut all, &mut p, &mut q, &mut spare, &mut with);
    m.put_all(all, home);
    row.put_all(spare, spare_home);
    assert_eq!(rt; rank, 2);
    assert_eq!(rt; p, [0, 1, 2]);
    assert_eq!(rt; q, [1, 2, 7]);
    assert_eq!(rt; m, over_gf4(alloc, field, &PLUQ_OVER_GF4)?);
    Ok(())
}
