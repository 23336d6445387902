//! What is asked about a matrix, worked by hand.

use super::{AMPLE, Case, Outside, assert_case, assert_ended, run_on};
use m4_cmd::Status;
use std::test::Fail;

/// What is asked about matrices.
const QUESTIONS: [Case<'static>; 26] = [
    (&["rank", "A"], "gf2 0 5\n", "", Status::Done, "rank 0\n"),
    (
        &["rank", "A", "--out=jcf"],
        "gf2 3 3\n011\n010\n001\n",
        "",
        Status::Done,
        "rank 2\n",
    ),
    (
        &["rank", "A"],
        "gf2 2 2\n11\n0",
        "",
        Status::Text { operand: 1, at: 12 },
        "",
    ),
    (
        &["echelon", "A"],
        "gf2 3 3\n011\n010\n000\n",
        "",
        Status::Done,
        "gf2 3 3\n010\n001\n000\n",
    ),
    (
        &["inverse", "A"],
        "gf2 2 2\n11\n01\n",
        "",
        Status::Done,
        "gf2 2 2\n11\n01\n",
    ),
    (
        &["inverse", "A"],
        "gf2 2 2\n11\n11\n",
        "",
        Status::No,
        "singular\n",
    ),
    (
        &["inverse", "A", "--out=jcf"],
        "gf2 2 2\n11\n11\n",
        "",
        Status::No,
        "singular\n",
    ),
    (
        &["inverse", "A"],
        "gf2 2 3\n110\n011\n",
        "",
        Status::Shape,
        "",
    ),
    (
        &["inverse", "A"],
        "gf2 0 0\n",
        "",
        Status::Done,
        "gf2 0 0\n",
    ),
    (
        &["solve", "A", "B"],
        "gf2 2 2\n11\n00\n",
        "gf2 2 1\n1\n0\n",
        Status::Done,
        "gf2 2 1\n1\n0\n",
    ),
    (
        &["solve", "A", "B"],
        "gf2 2 2\n11\n00\n",
        "gf2 2 1\n1\n1\n",
        Status::No,
        "no solution\n",
    ),
    (
        &["solve", "A", "B"],
        "gf2 1 1\n0\n",
        "gf2 1 0\n\n",
        Status::Done,
        "gf2 1 0\n\n",
    ),
    (
        &["solve", "A", "B"],
        "gf2 1 1\n0\n",
        "gf2 2 0\n\n\n",
        Status::Shape,
        "",
    ),
    (&["solve", "A"], "gf2 1 1\n0\n", "", Status::Words(3), ""),
    (
        &["kernel", "A"],
        "gf2 2 3\n110\n011\n",
        "",
        Status::Done,
        "gf2 1 3\n111\n",
    ),
    (
        &["kernel", "A"],
        "gf2 2 2\n10\n01\n",
        "",
        Status::Done,
        "gf2 0 2\n",
    ),
    (
        &["kernel", "A", "--out=bare"],
        "gf2 2 2\n10\n01\n",
        "",
        Status::Shape,
        "",
    ),
    (
        &["kernel", "A", "--out=jcf"],
        "gf2 2 3\n110\n011\n",
        "",
        Status::Done,
        "1 3 2\n3\n-1 2 3\n",
    ),
    (
        &["kernel", "A", "B"],
        "gf2 1 1\n0\n",
        "",
        Status::Words(3),
        "",
    ),
    (
        &["echelon", "A", "--in=bare", "--out=bare"],
        "11\n01\n",
        "",
        Status::Done,
        "10\n01\n",
    ),
    (
        &["ple", "A"],
        "gf2 2 2\n01\n10\n",
        "",
        Status::Done,
        "rank 2\nrows 1 0\npivots 0 1\ngf2 2 2\n10\n01\ngf2 2 2\n10\n01\n",
    ),
    (
        &["ple", "A", "--out=bare"],
        "gf2 2 3\n000\n011\n",
        "",
        Status::Done,
        "rank 1\nrows 1 0\npivots 1\ngf2 2 2\n10\n01\ngf2 2 3\n011\n000\n",
    ),
    (
        &["ple", "A"],
        "gf2 1 1\n0\n",
        "",
        Status::Done,
        "rank 0\nrows 0\npivots\ngf2 1 1\n1\ngf2 1 1\n0\n",
    ),
    (
        &["ple", "A"],
        "gf2 0 2\n",
        "",
        Status::Done,
        "rank 0\nrows\npivots\ngf2 0 0\ngf2 0 2\n",
    ),
    (
        &["pluq", "A"],
        "gf2 1 2\n01\n",
        "",
        Status::Done,
        "rank 1\nrows 0\ncolumns 1 0\ngf2 1 1\n1\ngf2 1 2\n10\n",
    ),
    (
        &["pluq", "A", "B"],
        "gf2 1 1\n0\n",
        "",
        Status::Words(3),
        "",
    ),
];

#[test]
fn questions(rt: HostRuntime) -> Result<(), Fail> {
    for case in &QUESTIONS {
        assert_case(&rt, rt.alloc(), *case)?;
    }
    Ok(())
}

#[test]
fn lines_that_are_not_written(rt: HostRuntime) -> Result<(), Fail> {
    for (command, text) in [
        ("inverse", b"singular\n".as_slice()),
        (
            "ple",
            b"rank 0\nrows 0\npivots\ngf2 1 1\n1\ngf2 1 1\n0\n".as_slice(),
        ),
    ] {
        for room in 0..text.len() {
            let outside = Outside {
                out_room: room,
                ..AMPLE
            };
            let ended = run_on(rt.alloc(), &[command, "A"], b"gf2 1 1\n0\n", b"", &outside)?;
            assert_ended(
                &rt,
                &ended,
                Status::Write,
                &text[..room],
                "m4lin: write failed\n",
            );
        }
    }
    Ok(())
}
