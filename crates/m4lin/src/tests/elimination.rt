//! Eliminations over extension fields: worked by hand, and of matrices whose answers are known.

ghost use Rattle.std.specs.Prelude.{◌<◌, ◌≤◌};

use super::fields::{FIELDS, Field, elements, multiplied_out, text_of};
use super::random::{assert_factored, factors_of};
use super::{
    AMPLE, Case, Outside, assert_case, assert_ended, assert_past_a_limit, repeated, run_on,
};
use m4_cmd::Status;
use m4_model::NoMemory;
use rand_core::SeedableRng;
use rand_xoshiro::Xoshiro256PlusPlus;
use std::alloc::{AllocError, Global};
use std::process::Abort;
use std::test::Fail;

/// What is answered over extension fields, and what is refused.
const CASES: [Case<'static>; 16] = [
    (
        &["inverse", "A"],
        "gf2e 8 11b 1 1\n53\n",
        "",
        Status::Done,
        "gf2e 8 11b 1 1\nca\n",
    ),
    (
        &["inverse", "A"],
        "gf2e 3 b 1 1\n2\n",
        "",
        Status::Done,
        "gf2e 3 b 1 1\n5\n",
    ),
    (
        &["inverse", "A"],
        "gf2e 2 7 2 2\n12\n23\n",
        "",
        Status::No,
        "singular\n",
    ),
    (
        &["inverse", "A"],
        "gf2e 2 7 1 2\n12\n",
        "",
        Status::Shape,
        "",
    ),
    (
        &["echelon", "A"],
        "gf2e 2 7 2 2\n12\n23\n",
        "",
        Status::Done,
        "gf2e 2 7 2 2\n12\n00\n",
    ),
    (
        &["rank", "A"],
        "gf2e 2 7 2 2\n12\n23\n",
        "",
        Status::Done,
        "rank 1\n",
    ),
    (
        &["kernel", "A"],
        "gf2e 2 7 2 2\n12\n23\n",
        "",
        Status::Done,
        "gf2e 2 7 1 2\n21\n",
    ),
    (
        &["ple", "A"],
        "gf2e 2 7 1 1\n2\n",
        "",
        Status::Done,
        "rank 1\nrows 0\npivots 0\ngf2e 2 7 1 1\n1\ngf2e 2 7 1 1\n2\n",
    ),
    (
        &["ple", "A"],
        "gf2e 2 7 2 1\n2\n1\n",
        "",
        Status::Done,
        "rank 1\nrows 0 1\npivots 0\ngf2e 2 7 2 2\n10\n31\ngf2e 2 7 2 1\n2\n0\n",
    ),
    (
        &["pluq", "A"],
        "gf2e 2 7 1 2\n01\n",
        "",
        Status::Done,
        "rank 1\nrows 0\ncolumns 1 0\ngf2e 2 7 1 1\n1\ngf2e 2 7 1 2\n10\n",
    ),
    (
        &["solve", "A", "B"],
        "gf2e 2 7 1 2\n23\n",
        "gf2e 2 7 1 1\n1\n",
        Status::Done,
        "gf2e 2 7 2 1\n3\n0\n",
    ),
    (
        &["solve", "A", "B"],
        "gf2e 2 7 2 2\n11\n00\n",
        "gf2e 2 7 2 1\n1\n0\n",
        Status::Done,
        "gf2e 2 7 2 1\n1\n0\n",
    ),
    (
        &["solve", "A", "B"],
        "gf2e 2 7 2 2\n11\n00\n",
        "gf2e 2 7 2 1\n1\n1\n",
        Status::No,
        "no solution\n",
    ),
    (
        &["solve", "A", "B"],
        "gf2e 2 7 1 1\n0\n",
        "gf2e 2 7 1 0\n\n",
        Status::Done,
        "gf2e 2 7 1 0\n\n",
    ),
    (
        &["solve", "A", "B"],
        "gf2e 2 7 1 1\n1\n",
        "gf2 1 1\n1\n",
        Status::Shape,
        "",
    ),
    (
        &["kernel", "A", "--out=bare"],
        "gf2e 2 7 1 1\n1\n",
        "",
        Status::Shape,
        "",
    ),
];

#[test]
fn eliminations_over_extension_fields(rt: HostRuntime) -> Result<(), Fail> {
    for case in &CASES {
        assert_case(&rt, rt.alloc(), *case)?;
    }
    Ok(())
}

#[test]
fn a_factor_past_a_limit_for_its_width(rt: HostRuntime) -> Result<(), Fail> {
    let tall = repeated(rt.alloc(), "gf2e 16 1002b 4097 0\n", "\n", 4096)?;
    for command in ["ple", "pluq"] {
        assert_past_a_limit(&rt, rt.alloc(), &[command, "A"], &tall, "")?;
    }
    Ok(())
}

/// The rows and columns of square matrices.
const SIDE: usize = 12;

/// The columns of right sides.
const RIGHTS: usize = 7;

/// A square matrix that isn't singular: one with ones on its diagonal and zeros above it, times one with zeros below its
/// diagonal, on which no entry is 0 or 1.
fn invertible(
    rt: &impl Abort,
    alloc: Global,
    source: &mut Xoshiro256PlusPlus,
    field: Field,
) -> Result<Vec<u32>, AllocError>
    requires { field.0 ≤ 16 }
{
    let entries = elements(alloc, source, field.0, SIDE * SIDE)?;
    let mut lower = Vec::new(alloc);
    let mut upper = Vec::new(alloc);
    for (place, entry) in entries.iter().enumerate() {
        let (row, col) = (place / SIDE, place % SIDE);
        lower.push(if col < row {
            *entry
        } else {
            u32::from(col == row)
        })?;
        upper.push(if row < col {
            *entry
        } else if row == col {
            2
        } else {
            0
        })?;
    }
    multiplied_out(rt, alloc, &lower, SIDE, &upper, SIDE, field)
}

/// Sees that these words over these operands have this answer, by halves too.
fn assert_answer(
    rt: &impl Abort,
    alloc: Global,
    words: &[&str],
    [a, b]: [&str; 2],
    answer: &str,
) -> Result<(), NoMemory> {
    let outside = Outside {
        out_room: 65_536,
        ..AMPLE
    };
    for option in ["--cutoff=64", "--algo=plain", "--algo=strassen"] {
        let mut all = Vec::from_slice(alloc, words)?;
        all.push(option)?;
        let ended = run_on(alloc, &all, a.as_bytes(), b.as_bytes(), &outside)?;
        assert_ended(rt, &ended, Status::Done, answer.as_bytes(), "");
    }
    Ok(())
}

/// Sees that the inverse of a matrix times the matrix is the identity.
fn assert_inverted(
    rt: &impl Abort,
    alloc: Global,
    a: &[u32],
    field: Field,
) -> Result<(), NoMemory> {
    let mut units = Vec::new(alloc);
    for place in 0..SIDE * SIDE {
        units.push(u32::from(place / SIDE == place % SIDE))?;
    }
    let text = text_of(alloc, a, SIDE, field)?;
    let identity = text_of(alloc, &units, SIDE, field)?;
    let inverse = run_on(alloc, &["inverse", "A"], text.as_bytes(), b"", &AMPLE)?;
    let words = ["mul", "A", "B"];
    let product = run_on(alloc, &words, text.as_bytes(), inverse.out.taken(), &AMPLE)?;
    assert_ended(rt, &product, Status::Done, identity.as_bytes(), "");
    Ok(())
}

/// Sees that equations have the solution that they were made of, and that a matrix times its inverse is the identity.
fn assert_solved(
    rt: &impl Abort,
    alloc: Global,
    source: &mut Xoshiro256PlusPlus,
    field: Field,
) -> Result<(), NoMemory>
    requires { field.0 ≤ 16 }
{
    let a = invertible(rt, alloc, source, field)?;
    let x = elements(alloc, source, field.0, SIDE * RIGHTS)?;
    let b = multiplied_out(rt, alloc, &a, SIDE, &x, RIGHTS, field)?;
    let left = text_of(alloc, &a, SIDE, field)?;
    let right = text_of(alloc, &b, RIGHTS, field)?;
    let solution = text_of(alloc, &x, RIGHTS, field)?;
    let operands = [left.as_str(), right.as_str()];
    assert_answer(rt, alloc, &["solve", "A", "B"], operands, solution.as_str())?;
    assert_inverted(rt, alloc, &a, field)
}

/// The rows of matrices of a low rank, their columns, which fill more than two strips, and their rank.
const ROWS: usize = 9;

const COLS: usize = 70;

const RANK: usize = 5;

/// A random matrix of `ROWS` rows whose first rows have ones on the diagonal and zeros above it.
fn lower_part(
    alloc: Global,
    source: &mut Xoshiro256PlusPlus,
    field: Field,
) -> Result<Vec<u32>, AllocError>
    requires { field.0 ≤ 16 }
{
    let mut lower = Vec::new(alloc);
    let entries = elements(alloc, source, field.0, ROWS * RANK)?;
    for (place, entry) in entries.iter().enumerate() {
        let (row, col) = (place / RANK, place % RANK);
        lower.push(if col < row {
            *entry
        } else {
            u32::from(col == row)
        })?;
    }
    Ok(lower)
}

/// A random matrix in reduced form, whose pivots are every other column.
fn reduced_rows(
    alloc: Global,
    source: &mut Xoshiro256PlusPlus,
    field: Field,
) -> Result<Vec<u32>, AllocError>
    requires { field.0 ≤ 16 }
{
    let mut reduced = Vec::new(alloc);
    let entries = elements(alloc, source, field.0, RANK * COLS)?;
    for (place, entry) in entries.iter().enumerate() {
        let (row, col) = (place / COLS, place % COLS);
        let is_pivot = col % 2 == 0 && col < 2 * RANK;
        let is_free = 2 * row < col && !is_pivot;
        reduced.push(if is_free {
            *entry
        } else {
            u32::from(col == 2 * row)
        })?;
    }
    Ok(reduced)
}

/// The basis of the kernel of a matrix with this reduced form: for each free column the entries of that column at the pivots,
/// and a one.
fn kernel_rows(alloc: Global, reduced: &[u32]) -> Result<Vec<u32>, AllocError> {
    let mut basis = Vec::new(alloc);
    for free in 0..COLS {
        if free % 2 == 1 || 2 * RANK <= free {
            for col in 0..COLS {
                let is_pivot = col % 2 == 0 && col < 2 * RANK;
                let at_pivot = reduced.get(col / 2 * COLS + free).copied().unwrap_or(0);
                basis.push(if is_pivot {
                    at_pivot
                } else {
                    u32::from(col == free)
                })?;
            }
        }
    }
    Ok(basis)
}

/// Sees that a product of a low rank has that rank, the reduced form that it was made of, and the kernel of that.
fn assert_reduced(
    rt: &impl Abort,
    alloc: Global,
    source: &mut Xoshiro256PlusPlus,
    field: Field,
) -> Result<(), NoMemory>
    requires { field.0 ≤ 16 }
{
    let lower = lower_part(alloc, source, field)?;
    let mut reduced = reduced_rows(alloc, source, field)?;
    let a = multiplied_out(rt, alloc, &lower, RANK, &reduced, COLS, field)?;
    let basis = kernel_rows(alloc, &reduced)?;
    reduced.resize(ROWS * COLS, 0)?;
    let text = text_of(alloc, &a, COLS, field)?;
    let form = text_of(alloc, &reduced, COLS, field)?;
    let kernel = text_of(alloc, &basis, COLS, field)?;
    let operands = [text.as_str(), ""];
    assert_answer(rt, alloc, &["rank", "A"], operands, "rank 5\n")?;
    assert_answer(rt, alloc, &["echelon", "A"], operands, form.as_str())?;
    assert_answer(rt, alloc, &["kernel", "A"], operands, kernel.as_str())
}

/// Sees that the factors of a matrix of a low rank, whose first row is zero, multiply to it.
fn assert_factors(
    rt: &impl Abort,
    alloc: Global,
    source: &mut Xoshiro256PlusPlus,
    field: Field,
) -> Result<(), NoMemory>
    requires { field.0 ≤ 16 }
{
    let mut left = Vec::new(alloc);
    left.resize(RANK, 0)?;
    left.extend(elements(alloc, source, field.0, (ROWS - 1) * RANK)?)?;
    let right = elements(alloc, source, field.0, RANK * SIDE)?;
    let a = multiplied_out(rt, alloc, &left, RANK, &right, SIDE, field)?;
    let text = text_of(alloc, &a, SIDE, field)?;
    let mut in_place = Vec::new(alloc);
    in_place.extend(0..SIDE)?;
    let digits = field.0.div_ceil(4).max(1) as usize;
    let ple = factors_of(rt, alloc, ("ple", "pivots"), text.as_str())?;
    assert_factored(rt, alloc, text.as_str(), digits, &ple, &in_place)?;
    let pluq = factors_of(rt, alloc, ("pluq", "columns"), text.as_str())?;
    assert_factored(rt, alloc, text.as_str(), digits, &pluq, &pluq.columns)
}

#[test]
fn eliminations_over_fields_of_each_degree(rt: HostRuntime) -> Result<(), Fail> {
    let mut source = Xoshiro256PlusPlus::seed_from_u64(11);
    for &field in &FIELDS {
        if field.0 <= 16 {
            assert_solved(&rt, rt.alloc(), &mut source, field)?;
            assert_reduced(&rt, rt.alloc(), &mut source, field)?;
            assert_factors(&rt, rt.alloc(), &mut source, field)?;
        }
    }
    Ok(())
}
