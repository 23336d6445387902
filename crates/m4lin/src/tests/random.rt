//! Random matrices and systems of equations: the answers meet their definitions, whatever engine is chosen.

ghost use Rattle.std.specs.Prelude.{◌<◌};

use super::{AMPLE, ENGINES, Outside, run_on, run_over};
use m4_cmd::Status;
use m4_model::NoMemory;
use rand_core::{Rng, SeedableRng};
use rand_xoshiro::Xoshiro256PlusPlus;
use std::alloc::{AllocError, Global};
use std::process::Abort;
use std::str::Lines;
use std::test::Fail;

/// Room for the text of two matrices of 1030 x 1030.
const ROOMY: Outside<'static> = Outside {
    out_room: 1 << 22,
    ..AMPLE
};

/// A row of random digits, at the end of a text.
fn push_random(
    text: &mut String,
    source: &mut Xoshiro256PlusPlus,
    cols: u32,
) -> Result<(), AllocError> {
    for _ in 0..cols {
        let one = source.next_u32() % 2 == 1;
        text.push(if one { '1' } else { '0' })?;
    }
    Ok(text.push('\n')?)
}

/// The text of a random matrix.
fn random(
    alloc: Global,
    source: &mut Xoshiro256PlusPlus,
    rows: u32,
    cols: u32,
) -> Result<String, AllocError> {
    let mut text = format!(in alloc; "gf2 {rows} {cols}\n")?;
    for _ in 0..rows {
        push_random(&mut text, source, cols)?;
    }
    Ok(text)
}

/// What the words end with over the files A and B, and the text that they write.
fn written(
    rt: &impl Abort,
    alloc: Global,
    words: &[&str],
    a: &str,
    b: &str,
) -> Result<(Status, String), NoMemory> {
    let ended = run_on(alloc, words, a.as_bytes(), b.as_bytes(), &ROOMY)?;
    let text = std::str::from_utf8(ended.out.taken()).expect(rt, "a text");
    Ok((ended.status, String::from_str(alloc, text)?))
}

/// What the words answer over the files A and B, with every choice of engine.
fn answer(
    rt: &impl Abort,
    alloc: Global,
    words: &[&str],
    a: &str,
    b: &str,
) -> Result<(Status, String), NoMemory> {
    let (status, text) = written(rt, alloc, words, a, b)?;
    for options in &ENGINES {
        let mut chosen = Vec::from_slice(alloc, words)?;
        chosen.extend_from_slice(options)?;
        let (other, same) = written(rt, alloc, &chosen, a, b)?;
        assert!(rt; other == status && same == text);
    }
    Ok((status, text))
}

/// The text that these words answer, done.
fn done(
    rt: &impl Abort,
    alloc: Global,
    words: &[&str],
    a: &str,
    b: &str,
) -> Result<String, NoMemory> {
    let (status, text) = answer(rt, alloc, words, a, b)?;
    assert_eq!(rt; status, Status::Done);
    Ok(text)
}

/// The rank that `rank` tells.
fn rank_of(rt: &impl Abort, alloc: Global, a: &str) -> Result<u64, NoMemory> {
    let line = done(rt, alloc, &["rank", "A"], a, "")?;
    let digits = line.strip_prefix("rank ").expect(rt, "a line of a rank");
    Ok(digits.trim_end().parse().expect(rt, "a number"))
}

/// The rows and columns of a matrix that is the product of two random ones, and the columns of the first.
const SHAPES: [(u32, u32, u32); 10] = [
    (1, 1, 1),
    (3, 2, 0),
    (63, 64, 64),
    (64, 63, 20),
    (65, 65, 65),
    (65, 65, 64),
    (130, 100, 70),
    (100, 130, 130),
    (300, 300, 290),
    (1030, 70, 64),
];

/// Sees that a matrix which should be random is: its rank is hardly less than this number.
fn assert_real(rt: &impl Abort, alloc: Global, a: &str, most: u32) -> Result<(), NoMemory> {
    let (_, line) = written(rt, alloc, &["rank", "A"], a, "")?;
    let digits = line.strip_prefix("rank ").expect(rt, "a line of a rank");
    let rank: u32 = digits.trim_end().parse().expect(rt, "a number");
    assert!(rt; rank <= most && most - rank < 8);
    Ok(())
}

/// A random matrix of this shape.
fn matrix(
    rt: &impl Abort,
    alloc: Global,
    source: &mut Xoshiro256PlusPlus,
    (rows, cols, inner): (u32, u32, u32),
) -> Result<String, NoMemory> {
    let left = random(alloc, source, rows, inner)?;
    let right = random(alloc, source, inner, cols)?;
    let product = done(rt, alloc, &["mul", "A", "B"], &left, &right)?;
    assert_real(rt, alloc, &product, rows.min(cols).min(inner))?;
    Ok(product)
}

/// Solves the equations of this matrix and right side, and sees that the solution meets them.
fn assert_solved(rt: &impl Abort, alloc: Global, a: &str, right: &str) -> Result<(), NoMemory> {
    let solution = done(rt, alloc, &["solve", "A", "B"], a, right)?;
    let product = done(rt, alloc, &["mul", "A", "B"], a, &solution)?;
    assert!(rt; product.as_str() == right);
    Ok(())
}

/// Sees that there is a solution exactly where the right side, a column, leaves the rank as it is.
fn assert_decided(rt: &impl Abort, alloc: Global, a: &str, right: &str) -> Result<(), NoMemory> {
    let both = done(rt, alloc, &["augment", "A", "B"], a, right)?;
    let rank = rank_of(rt, alloc, a)?;
    let more = rank_of(rt, alloc, &both)?;
    if more == rank {
        return assert_solved(rt, alloc, a, right);
    }
    let (status, text) = answer(rt, alloc, &["solve", "A", "B"], a, right)?;
    assert_eq!(rt; (more.checked_sub(rank), status), (Some(1), Status::No));
    assert_eq!(rt; text.as_str(), "no solution\n");
    Ok(())
}

#[test]
fn systems(rt: HostRuntime) -> Result<(), Fail> {
    let alloc = rt.alloc();
    let mut source = Xoshiro256PlusPlus::seed_from_u64(1);
    for &shape in &SHAPES {
        let a = matrix(&rt, alloc, &mut source, shape)?;
        let chosen = random(alloc, &mut source, shape.1, 3)?;
        let right = done(&rt, alloc, &["mul", "A", "B"], &a, &chosen)?;
        assert_solved(&rt, alloc, &a, &right)?;
        let column = random(alloc, &mut source, shape.0, 1)?;
        assert_decided(&rt, alloc, &a, &column)?;
    }
    Ok(())
}

/// Sees that the reduced form of a matrix of this rank has its rank, spans the same rows and is its own reduced form.
fn assert_form(rt: &impl Abort, alloc: Global, a: &str, rank: u64) -> Result<(), NoMemory> {
    let form = done(rt, alloc, &["echelon", "A"], a, "")?;
    let both = done(rt, alloc, &["stack", "A", "B"], a, &form)?;
    let again = done(rt, alloc, &["echelon", "A"], &form, "")?;
    assert!(rt; again == form);
    let ranks = (rank_of(rt, alloc, &form)?, rank_of(rt, alloc, &both)?);
    assert_eq!(rt; ranks, (rank, rank));
    Ok(())
}

/// Sees that the basis of the kernel is of this rank, and that the matrix takes it to zero.
fn assert_kernel(
    rt: &impl Abort,
    alloc: Global,
    a: &str,
    free: Option<u64>,
) -> Result<(), NoMemory> {
    let basis = done(rt, alloc, &["kernel", "A"], a, "")?;
    let columns = done(rt, alloc, &["transpose", "A"], &basis, "")?;
    let zeros = done(rt, alloc, &["mul", "A", "B"], a, &columns)?;
    let ranks = (rank_of(rt, alloc, &basis)?, rank_of(rt, alloc, &zeros)?);
    assert_eq!(rt; (Some(ranks.0), ranks.1), (free, 0));
    Ok(())
}

#[test]
fn forms(rt: HostRuntime) -> Result<(), Fail> {
    let alloc = rt.alloc();
    let mut source = Xoshiro256PlusPlus::seed_from_u64(2);
    for &shape in &SHAPES {
        let a = matrix(&rt, alloc, &mut source, shape)?;
        let rank = rank_of(&rt, alloc, &a)?;
        assert_form(&rt, alloc, &a, rank)?;
        assert_kernel(&rt, alloc, &a, u64::from(shape.1).checked_sub(rank))?;
    }
    Ok(())
}

/// Sees that a matrix of n rows and columns has an inverse, on both sides, exactly where its rank is n.
fn assert_inverse(rt: &impl Abort, alloc: Global, a: &str, n: u32) -> Result<(), NoMemory> {
    if rank_of(rt, alloc, a)? < u64::from(n) {
        let (status, text) = answer(rt, alloc, &["inverse", "A"], a, "")?;
        assert_eq!(rt; (status, text.as_str()), (Status::No, "singular\n"));
        return Ok(());
    }
    let inverse = done(rt, alloc, &["inverse", "A"], a, "")?;
    let one = done(rt, alloc, &["mul", "A", "B"], a, &inverse)?;
    let product = done(rt, alloc, &["mul", "A", "B"], &one, a)?;
    assert!(rt; product.as_str() == a);
    assert_eq!(rt; rank_of(rt, alloc, &one)?, u64::from(n));
    Ok(())
}

#[test]
fn inverses(rt: HostRuntime) -> Result<(), Fail> {
    let alloc = rt.alloc();
    let mut source = Xoshiro256PlusPlus::seed_from_u64(3);
    for n in [1, 2, 63, 64, 65, 130, 300, 1030] {
        let a = random(alloc, &mut source, n, n)?;
        assert_real(&rt, alloc, &a, n)?;
        assert_inverse(&rt, alloc, &a, n)?;
    }
    Ok(())
}

/// The numbers of a line behind its name.
fn numbers(
    rt: &impl Abort,
    alloc: Global,
    line: Option<&str>,
    name: &str,
) -> Result<Vec<usize>, NoMemory> {
    let mut numbers = Vec::new(alloc);
    let mut words = line.expect(rt, "a line").split_whitespace();
    assert_eq!(rt; words.next(), Some(name));
    for word in words {
        numbers.push(word.parse().expect(rt, "a number"))?;
    }
    Ok(numbers)
}

/// The entries of a row, of so many digits each, in this order at the end of a text.
fn push_reordered(
    rt: &impl Abort,
    alloc: Global,
    text: &mut String,
    digits: &[u8],
    count: usize,
    order: &[usize],
) -> Result<(), AllocError>
    requires { 0 < count }
{
    let mut entries = Vec::new(alloc);
    entries.extend(digits.chunks(count))?;
    for place in order {
        let entry = *entries.get(*place).expect(rt, "an entry");
        text.push_str(std::str::from_utf8(entry).expect(rt, "digits"))?;
    }
    Ok(text.push('\n')?)
}

/// A matrix, whose entries have so many digits, with its rows and columns in these orders.
fn reordered(
    rt: &impl Abort,
    alloc: Global,
    a: &str,
    count: usize,
    rows: &[usize],
    columns: &[usize],
) -> Result<String, NoMemory>
    requires { 0 < count }
{
    let mut lines = a.lines();
    let mut text = format!(in alloc; "{}\n", lines.next().expect(rt, "a header"))?;
    let mut all = Vec::new(alloc);
    for line in lines {
        all.push(line.as_bytes())?;
    }
    for row in rows {
        let digits = *all.get(*row).expect(rt, "a row");
        push_reordered(rt, alloc, &mut text, digits, count, columns)?;
    }
    Ok(text)
}

/// The next lines, which are the text of a matrix of so many rows.
fn next_matrix(
    rt: &impl Abort,
    alloc: Global,
    lines: &mut Lines<'_>,
    rows: usize,
) -> Result<String, NoMemory> {
    let mut text = String::new(alloc);
    for _ in 0..=rows {
        text.push_str(lines.next().expect(rt, "a line"))?;
        text.push('\n')?;
    }
    Ok(text)
}

/// What is written of the factors of a matrix: the order of the rows, what is told of the columns, and two matrices.
#[derive(Drop)]
pub(super) struct Factored {
    rows: Vec<usize>,
    pub(super) columns: Vec<usize>,
    lower: String,
    upper: String,
}

/// The factors on the next lines, where the columns are told under this name.
fn next_factors(
    rt: &impl Abort,
    alloc: Global,
    lines: &mut Lines<'_>,
    name: &str,
) -> Result<Factored, NoMemory> {
    let rows = numbers(rt, alloc, lines.next(), "rows")?;
    let columns = numbers(rt, alloc, lines.next(), name)?;
    let lower = next_matrix(rt, alloc, lines, rows.len())?;
    let upper = next_matrix(rt, alloc, lines, rows.len())?;
    Ok(Factored {
        rows,
        columns,
        lower,
        upper,
    })
}

/// The factors that a command writes of this matrix, below its rank.
pub(super) fn factors_of(
    rt: &impl Abort,
    alloc: Global,
    (command, name): (&str, &str),
    a: &str,
) -> Result<Factored, NoMemory> {
    let (status, text) = written(rt, alloc, &[command, "A"], a, "")?;
    assert_eq!(rt; status, Status::Done);
    let mut lines = text.lines();
    let rank = format!(in alloc; "rank {}", rank_of(rt, alloc, a)?)?;
    assert_eq!(rt; lines.next(), Some(rank.as_str()));
    let factors = next_factors(rt, alloc, &mut lines, name)?;
    assert_eq!(rt; lines.next(), None);
    Ok(factors)
}

/// Sees that factors multiply to this matrix, whose entries have so many digits, with its rows and columns in order.
pub(super) fn assert_factored(
    rt: &impl Abort,
    alloc: Global,
    a: &str,
    count: usize,
    factors: &Factored,
    columns: &[usize],
) -> Result<(), NoMemory>
    requires { 0 < count }
{
    let product = done(
        rt,
        alloc,
        &["mul", "A", "B"],
        &factors.lower,
        &factors.upper,
    )?;
    assert!(rt; product == reordered(rt, alloc, a, count, &factors.rows, columns)?);
    Ok(())
}

#[test]
fn factors(rt: HostRuntime) -> Result<(), Fail> {
    let alloc = rt.alloc();
    let mut source = Xoshiro256PlusPlus::seed_from_u64(4);
    for &shape in &SHAPES {
        let right = matrix(&rt, alloc, &mut source, shape)?;
        let line = format!(in alloc; "{}\n", "0".repeat(alloc, 64)?)?;
        let zeros = format!(in alloc;
            "gf2 {} 64\n{}",
            shape.0,
            line.repeat(alloc, shape.0 as usize)?
        )?;
        let a = done(&rt, alloc, &["augment", "A", "B"], &zeros, &right)?;
        let mut in_place = Vec::new(alloc);
        in_place.extend(0..shape.1 as usize + 64)?;
        let ple = factors_of(&rt, alloc, ("ple", "pivots"), &a)?;
        assert_factored(&rt, alloc, &a, 1, &ple, &in_place)?;
        let pluq = factors_of(&rt, alloc, ("pluq", "columns"), &a)?;
        assert_factored(&rt, alloc, &a, 1, &pluq, &pluq.columns)?;
        assert_eq!(rt; pluq.columns.len(), in_place.len());
        assert_eq!(rt;
            pluq.columns.get(..ple.columns.len()),
            Some(ple.columns.as_slice())
        );
    }
    Ok(())
}

/// What is cut of a matrix: the rows and columns between these.
fn cut(rt: &impl Abort, alloc: Global, a: &str, corners: [&str; 4]) -> Result<String, NoMemory> {
    let [row, col, row_end, col_end] = corners;
    done(rt, alloc, &["sub", "A", row, col, row_end, col_end], a, "")
}

#[test]
fn parts_of_a_tall_matrix(rt: HostRuntime) -> Result<(), Fail> {
    let alloc = rt.alloc();
    let mut source = Xoshiro256PlusPlus::seed_from_u64(5);
    let a = random(alloc, &mut source, 1030, 70)?;
    assert_real(&rt, alloc, &a, 70)?;
    let top = cut(&rt, alloc, &a, ["0", "0", "1000", "70"])?;
    let bottom = cut(&rt, alloc, &a, ["1000", "0", "1030", "70"])?;
    assert!(rt; done(&rt, alloc, &["stack", "A", "B"], &top, &bottom)? == a);
    let left = cut(&rt, alloc, &a, ["0", "0", "1030", "65"])?;
    let right = cut(&rt, alloc, &a, ["0", "65", "1030", "70"])?;
    assert!(rt; done(&rt, alloc, &["augment", "A", "B"], &left, &right)? == a);
    let turned = done(&rt, alloc, &["transpose", "A"], &a, "")?;
    assert!(rt; done(&rt, alloc, &["transpose", "A"], &turned, "")? == a);
    let zeros = done(&rt, alloc, &["add", "A", "B"], &a, &a)?;
    assert!(rt; done(&rt, alloc, &["add", "A", "B"], &zeros, &a)? == a);
    assert!(rt; done(&rt, alloc, &["convert", "A"], &a, "")? == a);
    Ok(())
}

#[test]
fn a_product_added_to_a_tall_matrix(rt: HostRuntime) -> Result<(), Fail> {
    let alloc = rt.alloc();
    let mut source = Xoshiro256PlusPlus::seed_from_u64(6);
    let c = random(alloc, &mut source, 1030, 70)?;
    let a = random(alloc, &mut source, 1010, 33)?;
    let b = random(alloc, &mut source, 33, 6)?;
    let words = ["addmul", "C", "20", "64", "A", "B"];
    let operands = [a.as_bytes(), b.as_bytes(), c.as_bytes()];
    let ended = run_over(alloc, &words, operands, &ROOMY)?;
    let sum = std::str::from_utf8(ended.out.taken()).expect(&rt, "a text");
    let product = done(&rt, alloc, &["mul", "A", "B"], &a, &b)?;
    let place = ["20", "64", "1030", "70"];
    let before = cut(&rt, alloc, &c, place)?;
    let changed = done(&rt, alloc, &["add", "A", "B"], &before, &product)?;
    assert!(rt; cut(&rt, alloc, sum, place)? == changed);
    for around in [["0", "0", "1030", "64"], ["0", "64", "20", "70"]] {
        assert!(rt; cut(&rt, alloc, sum, around)? == cut(&rt, alloc, &c, around)?);
    }
    Ok(())
}
