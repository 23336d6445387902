//! Runs over files and sinks in memory, with what they end with.
ghost use Rattle.std.specs.Prelude.{◌<◌};

mod elimination;
mod fields;
mod generated;
mod questions;
mod random;

use m4_cmd::{MemShelf, MemSink, OpenGate, Status, run};
use m4_model::NoMemory;
use std::alloc::{AllocError, Global};
use std::process::Abort;
use std::test::Fail;

const MUL: [&str; 3] = ["mul", "A", "B"];

const LEFT: &[u8] = b"gf2 2 2\n11\n01\n";

const RIGHT: &[u8] = b"gf2 2 2\n10\n11\n";

const PRODUCT: &[u8] = b"gf2 2 2\n01\n11\n";

/// Where a run reads and writes: the bytes of one read, the calls of the files that fail, and the room of the sinks.
#[derive(Clone, Copy)]
struct Outside<'a> {
    step: usize,
    failing: &'a [u64],
    out_room: usize,
    err_room: usize,
}

const AMPLE: Outside<'static> = Outside {
    step: 4096,
    failing: &[],
    out_room: 4096,
    err_room: 4096,
};

/// What a run ended with.
#[derive(Drop)]
struct Ended {
    status: Status,
    out: MemSink,
    err: MemSink,
}

fn texts(alloc: Global, texts: &[&str]) -> Result<Vec<String>, AllocError> {
    let mut all = Vec::new(alloc);
    for text in texts {
        all.push(String::from_str(alloc, text)?)?;
    }
    Ok(all)
}

/// The files A, B and C.
fn files(alloc: Global, [a, b, c]: [&[u8]; 3]) -> Result<Vec<(String, Vec<u8>)>, AllocError> {
    let mut all = Vec::new(alloc);
    for (name, bytes) in [("A", a), ("B", b), ("C", c)] {
        all.push((
            String::from_str(alloc, name)?,
            Vec::from_slice(alloc, bytes)?,
        ))?;
    }
    Ok(all)
}

/// Runs these words over the files A and B.
fn run_on(
    alloc: Global,
    words: &[&str],
    a: &[u8],
    b: &[u8],
    outside: &Outside,
) -> Result<Ended, NoMemory>
    requires { 0 < outside.now.step }
{
    run_over(alloc, words, [a, b, b""], outside)
}

/// Runs these words over the files A, B and C.
fn run_over(
    alloc: Global,
    words: &[&str],
    operands: [&[u8]; 3],
    outside: &Outside,
) -> Result<Ended, NoMemory>
    requires { 0 < outside.now.step }
{
    let words = texts(alloc, words)?;
    let failing = Vec::from_slice(alloc, outside.failing)?;
    let mut shelf = MemShelf::new(files(alloc, operands)?, outside.step, failing);
    let mut out = MemSink::new(alloc, outside.out_room, Vec::new(alloc))?;
    let mut err = MemSink::new(alloc, outside.err_room, Vec::new(alloc))?;
    let status = run(alloc, &words, &mut shelf, &mut out, &mut err, &OpenGate);
    Ok(Ended { status, out, err })
}

fn assert_ended(rt: &impl Abort, ended: &Ended, status: Status, out: &[u8], err: &str) {
    assert_eq!(rt; ended.status, status);
    assert_eq!(rt; ended.out.taken(), out);
    assert_eq!(rt; ended.err.taken(), err.as_bytes());
}

/// A command, the texts of its operands A and B, and the status and the text that it ends with.
type Case<'a> = (&'a [&'a str], &'a str, &'a str, Status, &'a str);

/// Runs a command and sees what it ends with.
fn assert_case(rt: &impl Abort, alloc: Global, case: Case<'_>) -> Result<(), NoMemory> {
    let (words, a, b, status, answer) = case;
    let ended = run_on(alloc, words, a.as_bytes(), b.as_bytes(), &AMPLE)?;
    let asked = words.join(alloc, " ")?;
    assert_eq!(rt;
        (ended.status, ended.out.taken()),
        (status, answer.as_bytes()),
        "{asked} {a:?} {b:?}"
    );
    Ok(())
}

/// Options that choose how products are computed.
const ENGINES: [&[&str]; 5] = [
    &[],
    &["--algo=plain"],
    &["--algo=table", "--k=1", "--tables=8"],
    &["--tables=1", "--k=8", "--cutoff=64"],
    &["--algo=strassen", "--cutoff=64"],
];

/// This head, the same piece so many times, and the end of the last line.
fn repeated(alloc: Global, head: &str, piece: &str, times: usize) -> Result<String, AllocError> {
    Ok(format!(in alloc; "{head}{}\n", piece.repeat(alloc, times)?)?)
}

/// Sees that the product is this one, however it is computed.
fn assert_product(
    rt: &impl Abort,
    alloc: Global,
    a: &[u8],
    b: &[u8],
    product: &[u8],
) -> Result<(), NoMemory> {
    for options in &ENGINES {
        let mut words = Vec::from_slice(alloc, &MUL)?;
        words.extend_from_slice(options)?;
        let ended = run_on(alloc, &words, a, b, &AMPLE)?;
        assert_ended(rt, &ended, Status::Done, product, "");
    }
    Ok(())
}

#[test]
fn products(rt: HostRuntime) -> Result<(), Fail> {
    let alloc = rt.alloc();
    let row = repeated(alloc, "gf2 1 65\n", "1", 65)?;
    let column = repeated(alloc, "gf2 65 1\n1", "\n1", 64)?;
    assert_product(&rt, alloc, LEFT, RIGHT, PRODUCT)?;
    assert_product(
        &rt,
        alloc,
        b"gf2 2 0\n\n\n",
        b"gf2 0 3\n",
        b"gf2 2 3\n000\n000\n",
    )?;
    assert_product(
        &rt,
        alloc,
        row.as_bytes(),
        column.as_bytes(),
        b"gf2 1 1\n1\n",
    )?;
    assert_product(&rt, alloc, b"gf2 0 0\n", b"gf2 0 0\n", b"gf2 0 0\n")?;
    Ok(())
}

const ONE: &str = "gf2 1 1\n1\n";

const TWO_ONES: &str = "gf2 1 2\n11\n";

/// Runs `addmul` over a file with this text, at this place, with factors of these texts.
fn add_to(
    alloc: Global,
    c: &[u8],
    row: &str,
    col: &str,
    a: &str,
    b: &str,
) -> Result<Ended, NoMemory> {
    let words = ["addmul", "C", row, col, "A", "B"];
    let operands = [a.as_bytes(), b.as_bytes(), c];
    run_over(alloc, &words, operands, &AMPLE)
}

#[test]
fn products_that_are_added(rt: HostRuntime) -> Result<(), Fail> {
    let ones = "1".repeat(rt.alloc(), 130)?;
    let c = format!(in rt.alloc(); "gf2 2 130\n{ones}\n{ones}\n")?;
    for (col, left, right) in [("0", 0, 128), ("64", 64, 64), ("128", 128, 0)] {
        let left = "1".repeat(rt.alloc(), left)?;
        let right = "1".repeat(rt.alloc(), right)?;
        let sum = format!(in rt.alloc(); "gf2 2 130\n{ones}\n{left}00{right}\n")?;
        let ended = add_to(rt.alloc(), c.as_bytes(), "1", col, ONE, TWO_ONES)?;
        assert_ended(&rt, &ended, Status::Done, sum.as_bytes(), "");
    }
    Ok(())
}

/// Places and factors that `addmul` refuses for a matrix of two rows and 130 columns.
const MISFITS: [(&str, &str, &str, &str); 6] = [
    ("1", "3", ONE, TWO_ONES),
    ("2", "64", ONE, TWO_ONES),
    ("1", "192", ONE, "gf2 1 0\n\n"),
    ("999999999", "64", ONE, TWO_ONES),
    ("1", "128", ONE, "gf2 1 3\n111\n"),
    ("1", "64", TWO_ONES, TWO_ONES),
];

#[test]
fn products_that_are_not_added(rt: HostRuntime) -> Result<(), Fail> {
    let zeros = "0".repeat(rt.alloc(), 130)?;
    let c = format!(in rt.alloc(); "gf2 2 130\n{zeros}\n{zeros}\n")?;
    for &(row, col, a, b) in &MISFITS {
        let ended = add_to(rt.alloc(), c.as_bytes(), row, col, a, b)?;
        assert_eq!(rt; ended.status, Status::Shape);
        assert_eq!(rt; ended.out.taken().len(), 0);
    }
    let ended = add_to(rt.alloc(), c.as_bytes(), "1", "64", ONE, "gf2 1 2\n12\n")?;
    assert_eq!(rt; ended.status, Status::Text { operand: 3, at: 9 });
    Ok(())
}

/// Words that are refused, and the number of the first.
const REFUSED_WORDS: [(&[&str], u64); 25] = [
    (&[], 1),
    (&["multiply", "A", "B"], 1),
    (&["--in=text", "mul", "A", "B"], 1),
    (&["mul", "A"], 3),
    (&["mul", "A", "--out=jcf"], 4),
    (&["mul", "A", "B", "C"], 4),
    (&["mul", "--k=9", "A", "B"], 2),
    (&["mul", "--k=08", "A", "B"], 2),
    (&["mul", "A", "B", "--k=4", "--k=4"], 5),
    (&["mul", "A", "B", "--tables=0"], 4),
    (&["mul", "A", "B", "--algo=fast"], 4),
    (&["mul", "A", "B", "--cutoff=63"], 4),
    (&["mul", "A", "B", "--in=text", "--in=text"], 5),
    (
        &["mul", "--out=bare", "A", "--in=bare", "--out=jcf", "B"],
        5,
    ),
    (&["convert", "A", "--in=hex"], 3),
    (&["convert", "A", "--in"], 3),
    (&["convert", "A", "--in=bare=jcf"], 3),
    (&["convert", "--", "A"], 2),
    (&["convert", "A", "A", "--in=hex"], 3),
    (&["addmul", "C", "1", "64", "A"], 6),
    (&["addmul", "C", "1", "64", "A", "B", "C"], 7),
    (&["addmul", "C", "01", "64", "A", "B"], 3),
    (&["addmul", "C", "1", "+64", "A", "B"], 4),
    (&["addmul", "C", "1", "1000000000", "A", "B"], 4),
    (&["addmul", "C", "", "64", "--", "B"], 3),
];

#[test]
fn words(rt: HostRuntime) -> Result<(), Fail> {
    for &(words, word) in &REFUSED_WORDS {
        let ended = run_on(rt.alloc(), words, LEFT, RIGHT, &AMPLE)?;
        let line = format!(in rt.alloc(); "m4lin: word {word} is not understood\n")?;
        assert_ended(&rt, &ended, Status::Words(word), b"", line.as_str());
    }
    Ok(())
}

/// Options of `convert`, the text of its operand, the status and the text of its answer.
const CONVERSIONS: [(&[&str], &str, Status, &str); 39] = [
    (&[], "gf2 1 2\n01\n", Status::Done, "gf2 1 2\n01\n"),
    (
        &["--out=bare"],
        "gf2 2 2\n10\n01\n",
        Status::Done,
        "10\n01\n",
    ),
    (&["--out=bare"], "gf2 2 0\n\n\n", Status::Done, "\n\n"),
    (&["--out=bare"], "gf2 0 3\n", Status::Shape, ""),
    (&["--out=bare"], "gf2 0 0\n", Status::Done, ""),
    (&["--out=jcf"], "gf2 2 2\n00\n01\n", Status::Shape, ""),
    (
        &["--out=jcf"],
        "gf2 2 2\n01\n00\n",
        Status::Done,
        "2 2 2\n1\n-2\n",
    ),
    (
        &["--in=jcf"],
        "2 3 2\n3\n-1 3 -2\n",
        Status::Done,
        "gf2 2 3\n101\n010\n",
    ),
    (
        &["--in=jcf"],
        "1 2 2\n2\n-1 1\n",
        Status::Done,
        "gf2 1 2\n10\n",
    ),
    (
        &["--in=jcf", "--out=jcf"],
        "2 3 2\n3\n-1 3 -2\n",
        Status::Done,
        "2 3 2\n3\n-1 3\n-2\n",
    ),
    (
        &["--in=jcf"],
        "2 3 2\n3\n-4\n",
        Status::Text { operand: 1, at: 8 },
        "",
    ),
    (
        &["--in=jcf"],
        "2 3 3\n1\n-1\n",
        Status::Text { operand: 1, at: 4 },
        "",
    ),
    (
        &["--in=jcf"],
        "2 3 2\n1\n1\n",
        Status::Text { operand: 1, at: 8 },
        "",
    ),
    (
        &["--in=jcf"],
        "2 3 2\n1\n-0\n",
        Status::Text { operand: 1, at: 8 },
        "",
    ),
    (
        &["--in=jcf"],
        "1 3 2\n2\n-1 -2\n",
        Status::Text { operand: 1, at: 11 },
        "",
    ),
    (
        &["--in=jcf"],
        "1 3 2\n1\n-1 x\n",
        Status::Text { operand: 1, at: 11 },
        "",
    ),
    (&["--in=jcf"], "2 3", Status::Text { operand: 1, at: 3 }, ""),
    (
        &["--in=bare"],
        "10\n01\n",
        Status::Done,
        "gf2 2 2\n10\n01\n",
    ),
    (&["--in=bare"], "", Status::Done, "gf2 0 0\n"),
    (
        &["--in=bare"],
        "10\n1\n",
        Status::Text { operand: 1, at: 4 },
        "",
    ),
    (
        &[],
        "gf2 2 2\n11\n0",
        Status::Text { operand: 1, at: 12 },
        "",
    ),
    (&[], "gf2 1 1\n1", Status::Text { operand: 1, at: 9 }, ""),
    (&[], "gf2 65537 1\n", Status::Limit, ""),
    (
        &[],
        "gf2 16384 16384\n",
        Status::Text { operand: 1, at: 16 },
        "",
    ),
    (
        &["--out=hex"],
        "gf2 1 8\n11110101\n",
        Status::Done,
        "gf2x 1 8\nfa\n",
    ),
    (
        &["--out=hex"],
        "gf2 1 5\n11111\n",
        Status::Done,
        "gf2x 1 5\nf1\n",
    ),
    (
        &["--out=hex"],
        "gf2 2 0\n\n\n",
        Status::Done,
        "gf2x 2 0\n\n\n",
    ),
    (
        &["--out=hex"],
        "gf2e 2 7 1 1\n3\n",
        Status::Done,
        "gf2e 2 7 1 1\n3\n",
    ),
    (&[], "gf2x 1 5\nf1\n", Status::Done, "gf2 1 5\n11111\n"),
    (
        &[],
        "gf2x 1 5\nf2\n",
        Status::Text { operand: 1, at: 10 },
        "",
    ),
    (&[], "gf2x 1 4\nF\n", Status::Text { operand: 1, at: 9 }, ""),
    (&[], "gf2x 65537 1\n", Status::Limit, ""),
    (
        &[],
        "gf2e 9 203 1 2\n1af11d\n",
        Status::Done,
        "gf2e 9 203 1 2\n1af11d\n",
    ),
    (&["--out=bare"], "gf2e 2 7 1 1\n3\n", Status::Shape, ""),
    (&["--out=jcf"], "gf2e 2 7 1 1\n3\n", Status::Shape, ""),
    (
        &[],
        "gf2e 1 2 65537 1\n",
        Status::Text { operand: 1, at: 5 },
        "",
    ),
    (
        &[],
        "gf2e 2 5 65537 1\n",
        Status::Text { operand: 1, at: 7 },
        "",
    ),
    (
        &[],
        "gf2e 3 b 1 1\n8\n",
        Status::Text { operand: 1, at: 13 },
        "",
    ),
    (&[], "gf2e 16 1002b 65536 257\n", Status::Limit, ""),
];

#[test]
fn conversions(rt: HostRuntime) -> Result<(), Fail> {
    for &(options, text, status, answer) in &CONVERSIONS {
        let mut words = Vec::from_slice(rt.alloc(), &["convert", "A"])?;
        words.extend_from_slice(options)?;
        assert_case(&rt, rt.alloc(), (&words, text, "", status, answer))?;
    }
    Ok(())
}

/// Commands on the parts of matrices, with their texts bare.
const PARTS: [Case<'static>; 17] = [
    (&["add", "A", "B"], "11\n", "01\n", Status::Done, "10\n"),
    (&["add", "A", "B"], "11\n", "0\n", Status::Shape, ""),
    (&["add", "A", "B"], "11\n", "01\n01\n", Status::Shape, ""),
    (
        &["transpose", "A"],
        "110\n011\n",
        "",
        Status::Done,
        "10\n11\n01\n",
    ),
    (&["transpose", "A"], "\n\n", "", Status::Shape, ""),
    (&["transpose", "A", "B"], "1\n", "", Status::Words(3), ""),
    (
        &["stack", "A", "B"],
        "10\n",
        "01\n",
        Status::Done,
        "10\n01\n",
    ),
    (&["stack", "A", "B"], "10\n", "0\n", Status::Shape, ""),
    (
        &["augment", "A", "B"],
        "10\n",
        "01\n",
        Status::Done,
        "1001\n",
    ),
    (&["augment", "A", "B"], "10\n", "0\n1\n", Status::Shape, ""),
    (
        &["sub", "A", "0", "1", "2", "3"],
        "110\n011\n",
        "",
        Status::Done,
        "10\n11\n",
    ),
    (
        &["sub", "A", "0", "3", "2", "3"],
        "110\n011\n",
        "",
        Status::Done,
        "\n\n",
    ),
    (
        &["sub", "A", "1", "1", "1", "1"],
        "110\n011\n",
        "",
        Status::Done,
        "",
    ),
    (
        &["sub", "A", "1", "1", "1", "3"],
        "110\n011\n",
        "",
        Status::Shape,
        "",
    ),
    (
        &["sub", "A", "1", "0", "0", "1"],
        "110\n011\n",
        "",
        Status::Shape,
        "",
    ),
    (
        &["sub", "A", "0", "0", "1", "4"],
        "110\n011\n",
        "",
        Status::Shape,
        "",
    ),
    (
        &["sub", "A", "0", "0", "3", "1"],
        "110\n011\n",
        "",
        Status::Shape,
        "",
    ),
];

#[test]
fn parts(rt: HostRuntime) -> Result<(), Fail> {
    for &(command, a, b, status, answer) in &PARTS {
        let mut words = Vec::from_slice(rt.alloc(), command)?;
        words.extend_from_slice(&["--in=bare", "--out=bare"])?;
        assert_case(&rt, rt.alloc(), (&words, a, b, status, answer))?;
    }
    Ok(())
}

/// Sees that the answer of these words would pass a limit.
fn assert_past_a_limit(
    rt: &impl Abort,
    alloc: Global,
    words: &[&str],
    a: &str,
    b: &str,
) -> Result<(), NoMemory> {
    let ended = run_on(alloc, words, a.as_bytes(), b.as_bytes(), &AMPLE)?;
    assert_ended(rt, &ended, Status::Limit, b"", "m4lin: limit passed\n");
    Ok(())
}

#[test]
fn answers_past_a_limit(rt: HostRuntime) -> Result<(), Fail> {
    let alloc = rt.alloc();
    let tall = repeated(alloc, "gf2 65536 0\n", "\n", 65535)?;
    let wide = repeated(alloc, "gf2 1 65536\n", "1", 65536)?;
    assert_past_a_limit(&rt, alloc, &MUL, &tall, "gf2 0 65536\n")?;
    assert_past_a_limit(&rt, alloc, &["stack", "A", "B"], &tall, "gf2 1 0\n\n")?;
    assert_past_a_limit(&rt, alloc, &["augment", "A", "B"], &wide, ONE)?;
    Ok(())
}

#[test]
fn factors_past_a_limit(rt: HostRuntime) -> Result<(), Fail> {
    let alloc = rt.alloc();
    let zeros = repeated(alloc, "gf2 16385 1\n0", "\n0", 16384)?;
    assert_past_a_limit(&rt, alloc, &["ple", "A"], &zeros, "")?;
    assert_past_a_limit(&rt, alloc, &["pluq", "A"], &zeros, "")?;
    let ended = run_on(alloc, &["rank", "A"], zeros.as_bytes(), b"", &AMPLE)?;
    assert_ended(&rt, &ended, Status::Done, b"rank 0\n", "");
    Ok(())
}

#[test]
fn options_stand_anywhere(rt: HostRuntime) -> Result<(), Fail> {
    let words = ["mul", "--in=bare", "A", "B", "--out=jcf"];
    let ended = run_on(rt.alloc(), &words, b"11\n01\n", b"10\n11\n", &AMPLE)?;
    assert_ended(&rt, &ended, Status::Done, b"2 2 2\n3\n-2\n-1 2\n", "");
    Ok(())
}

/// The texts of two operands that are refused, and with what status.
const REFUSALS: [(&str, &str, Status); 13] = [
    ("", "gf2 0 0\n", Status::Text { operand: 1, at: 0 }),
    ("gf3 2 2\n11\n01\n", "", Status::Text { operand: 1, at: 2 }),
    ("gf2e 2 7 1 1\n1\n", "", Status::Text { operand: 2, at: 0 }),
    ("gf2 02 2\n11\n01\n", "", Status::Text { operand: 1, at: 5 }),
    (
        "gf2 2 2\r\n11\r\n01\r\n",
        "",
        Status::Text { operand: 1, at: 7 },
    ),
    ("gf2 2 2\n11\n01", "", Status::Text { operand: 1, at: 13 }),
    (
        "gf2 1 1\n1\n",
        "gf2 1 1\n1\n\n",
        Status::Text { operand: 2, at: 10 },
    ),
    (
        "gf2 1 1\n1\n",
        "gf2 1 1\n2\n",
        Status::Text { operand: 2, at: 8 },
    ),
    (
        "gf2 1 1\n1\n",
        "no text",
        Status::Text { operand: 2, at: 0 },
    ),
    ("gf2 65537 1\n", "", Status::Limit),
    ("gf2 16385 16384\n", "", Status::Limit),
    ("gf2 16384 16384\n", "", Status::Text { operand: 1, at: 16 }),
    ("gf2 1 1\n1\n", "gf2 2 1\n1\n1\n", Status::Shape),
];

#[test]
fn refusals(rt: HostRuntime) -> Result<(), Fail> {
    for &(a, b, status) in &REFUSALS {
        assert_case(&rt, rt.alloc(), (&MUL, a, b, status, ""))?;
    }
    let ended = run_on(rt.alloc(), &MUL, b"gf2 1 1\n1\n", RIGHT, &AMPLE)?;
    assert_ended(
        &rt,
        &ended,
        Status::Shape,
        b"",
        "m4lin: shapes do not fit\n",
    );
    Ok(())
}

#[test]
fn texts_cut_short(rt: HostRuntime) -> Result<(), Fail> {
    for at in 0..RIGHT.len() {
        let ended = run_on(rt.alloc(), &MUL, LEFT, &RIGHT[..at], &AMPLE)?;
        let at = at as u64;
        let line = format!(in rt.alloc(); "m4lin: operand 2: bad text at byte {at}\n")?;
        assert_ended(
            &rt,
            &ended,
            Status::Text { operand: 2, at },
            b"",
            line.as_str(),
        );
    }
    Ok(())
}

#[test]
fn reads_that_fail(rt: HostRuntime) -> Result<(), Fail> {
    // A start and five reads of each file, the last of which finds its end.
    for call in 0..13 {
        let failing = [call];
        let outside = Outside {
            step: 4,
            failing: &failing,
            ..AMPLE
        };
        let ended = run_on(rt.alloc(), &MUL, LEFT, RIGHT, &outside)?;
        if call < 12 {
            assert_ended(&rt, &ended, Status::Read, b"", "m4lin: read failed\n");
        } else {
            assert_ended(&rt, &ended, Status::Done, PRODUCT, "");
        }
    }
    let ended = run_on(rt.alloc(), &["mul", "A", "D"], LEFT, RIGHT, &AMPLE)?;
    assert_ended(&rt, &ended, Status::Read, b"", "m4lin: read failed\n");
    Ok(())
}

#[test]
fn writes_that_fail(rt: HostRuntime) -> Result<(), Fail> {
    for room in 0..PRODUCT.len() {
        let outside = Outside {
            out_room: room,
            ..AMPLE
        };
        let ended = run_on(rt.alloc(), &MUL, LEFT, RIGHT, &outside)?;
        assert_ended(
            &rt,
            &ended,
            Status::Write,
            &PRODUCT[..room],
            "m4lin: write failed\n",
        );
    }
    let line = b"m4lin: operand 1: bad text at byte 9\n";
    for room in 0..line.len() {
        let outside = Outside {
            err_room: room,
            ..AMPLE
        };
        let ended = run_on(rt.alloc(), &MUL, b"gf2 1 1\n1", RIGHT, &outside)?;
        assert_eq!(rt; ended.status, Status::Text { operand: 1, at: 9 });
        assert_eq!(rt; ended.err.taken(), &line[..room]);
    }
    Ok(())
}
