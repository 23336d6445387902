//! Generated matrices, and trials of them.

use super::{AMPLE, ENGINES, assert_case, assert_ended, run_on};
use m4_cmd::Status;
use std::test::Fail;

/// Matrices and trials that were computed apart from the program, limits, and words that name none.
const CASES: [(&[&str], Status, &str); 17] = [
    (
        &["make", "gf2", "2", "8", "0"],
        Status::Done,
        "gf2 2 8\n11110101\n00101111\n",
    ),
    (
        &["make", "4:13", "1", "4", "0"],
        Status::Done,
        "gf2e 4 13 1 4\nfadc\n",
    ),
    (
        &["make", "2:7", "1", "4", "0"],
        Status::Done,
        "gf2e 2 7 1 4\n3322\n",
    ),
    (
        &["make", "16:1002b", "1", "2", "0"],
        Status::Done,
        "gf2e 16 1002b 1 2\ncdaf7b1d\n",
    ),
    (
        &["make", "9:203", "1", "2", "0"],
        Status::Done,
        "gf2e 9 203 1 2\n1af11d\n",
    ),
    (
        &["make", "gf2", "2", "8", "0", "--out=hex"],
        Status::Done,
        "gf2x 2 8\nfa\n4f\n",
    ),
    (
        &["make", "2:7", "1", "4", "0", "--out=bare"],
        Status::Shape,
        "",
    ),
    (&["make", "gf2", "65537", "1", "0"], Status::Limit, ""),
    (
        &["trial", "16:1002b", "4097", "65536", "0"],
        Status::Limit,
        "",
    ),
    (
        &["trial", "gf2", "2", "8", "0"],
        Status::Done,
        "rank 2\nnonzeros 10\n",
    ),
    (
        &["trial", "2:7", "1", "4", "0", "--out=bare"],
        Status::Done,
        "rank 1\nnonzeros 4\n",
    ),
    (
        &["trial", "gf2", "0", "5", "7"],
        Status::Done,
        "rank 0\nnonzeros 0\n",
    ),
    (&["make", "2:5", "1", "1", "0"], Status::Words(2), ""),
    (&["make", "17:20009", "1", "1", "0"], Status::Words(2), ""),
    (&["make", "2:07", "1", "1", "0"], Status::Words(2), ""),
    (
        &["trial", "gf2", "1", "1", "18446744073709551616"],
        Status::Words(5),
        "",
    ),
    (&["make", "gf2", "1", "1"], Status::Words(5), ""),
];

#[test]
fn generated_matrices_and_trials(rt: HostRuntime) -> Result<(), Fail> {
    for &(words, status, answer) in &CASES {
        assert_case(&rt, rt.alloc(), (words, "", "", status, answer))?;
    }
    Ok(())
}

/// Fields of each width, with degrees that fill it and degrees that don't.
const FIELDS: [&str; 7] = ["gf2", "2:7", "3:b", "5:25", "8:11b", "9:203", "16:1002b"];

#[test]
fn generated_matrices_are_read_back(rt: HostRuntime) -> Result<(), Fail> {
    for field in &FIELDS {
        let words = ["make", field, "7", "35", "18446744073709551615"];
        let made = run_on(rt.alloc(), &words, b"", b"", &AMPLE)?;
        let text = made.out.taken();
        assert!(rt; text.len() > 7 * 35);
        let read = run_on(rt.alloc(), &["convert", "A"], text, b"", &AMPLE)?;
        assert_ended(&rt, &read, Status::Done, text, "");
    }
    Ok(())
}

#[test]
fn a_trial_is_one_for_every_engine(rt: HostRuntime) -> Result<(), Fail> {
    for options in &ENGINES {
        let mut words = Vec::from_slice(rt.alloc(), &["trial", "gf2", "200", "290", "1"])?;
        words.extend_from_slice(options)?;
        let ended = run_on(rt.alloc(), &words, b"", b"", &AMPLE)?;
        assert_ended(&rt, &ended, Status::Done, b"rank 200\nnonzeros 9138\n", "");
    }
    Ok(())
}
