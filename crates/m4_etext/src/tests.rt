//! Texts in every form, read byte by byte and cut at each place, and written.
use crate::*;
use m4_field::{Field, FieldFault};
use m4_io::MemSink;
use m4_mzed::Mzed;
use std::alloc::Global;
use std::process::Abort;
use std::test::Fail;

/// Reads the bytes in two pieces.
fn read_cut(alloc: Global, form: Form, bytes: &[u8], cut: usize) -> Result<Mzed, TextFault> {
    let cut = cut.min(bytes.len());
    let mut reader = Reader::new(alloc, form);
    let _ = reader.feed(&bytes[..cut]);
    let _ = reader.feed(&bytes[cut..]);
    reader.finish()
}

/// Reads the bytes one by one.
fn read_bytes(alloc: Global, form: Form, bytes: &[u8]) -> Result<Mzed, TextFault> {
    let mut reader = Reader::new(alloc, form);
    for byte in bytes {
        let _ = reader.feed(&[*byte]);
    }
    reader.finish()
}

/// The matrix is written in this form as these bytes.
fn is_written(
    rt: &impl Abort,
    alloc: Global,
    m: &Mzed,
    form: Form,
    text: &[u8],
) -> Result<(), Fail> {
    let mut sink = MemSink::new(alloc, 100, Vec::new(alloc))?;
    let held = can_write(m, form);
    assert!(rt; held);
    if held {
        write_text(m, form, &mut sink)?;
    }
    assert_eq!(rt; sink.taken(), text);
    Ok(())
}

/// The bytes are refused with this fault, however they are cut.
fn is_refused(rt: &impl Abort, read: Result<Mzed, TextFault>, fault: TextFault) {
    match read {
        Ok(_) => assert!(rt; false, "read"),
        Err(found) => assert_eq!(rt; found, fault),
    }
}

/// A matrix in version 1, and in version 2.
const TEXTS: [(&[u8], &[u8]); 9] = [
    (b"gf2 2 2\n11\n01\n", b"gf2x 2 2\n3\n2\n"),
    (b"gf2 2 0\n\n\n", b"gf2x 2 0\n\n\n"),
    (b"gf2 0 3\n", b"gf2x 0 3\n"),
    (b"gf2 1 8\n11110101\n", b"gf2x 1 8\nfa\n"),
    (b"gf2 1 5\n11111\n", b"gf2x 1 5\nf1\n"),
    (b"gf2e 2 7 1 2\n13\n", b"gf2e 2 7 1 2\n13\n"),
    (b"gf2e 8 11b 2 1\n53\nca\n", b"gf2e 8 11b 2 1\n53\nca\n"),
    (b"gf2e 9 203 1 2\n1af11d\n", b"gf2e 9 203 1 2\n1af11d\n"),
    (
        b"gf2e 16 1002b 1 2\ncdaf7b1d\n",
        b"gf2e 16 1002b 1 2\ncdaf7b1d\n",
    ),
];

#[test]
fn headed_texts_are_read_and_written(rt: HostRuntime) -> Result<(), Fail> {
    let alloc = rt.alloc();
    for case in &TEXTS {
        for text in &[case.0, case.1] {
            let m = read_bytes(alloc, Form::Hex, text)?;
            is_written(&rt, alloc, &m, Form::Headed, case.0)?;
            for cut in 0..text.len() {
                let m = read_cut(alloc, Form::Headed, text, cut)?;
                is_written(&rt, alloc, &m, Form::Hex, case.1)?;
            }
        }
    }
    Ok(())
}

/// Bare text and JCF, the headed text of the same matrix, and its text in the first form once more.
const PLAIN: [(Form, &[u8], &[u8], &[u8]); 8] = [
    (Form::Bare, b"", b"gf2 0 0\n", b""),
    (Form::Bare, b"\n\n", b"gf2 2 0\n\n\n", b"\n\n"),
    (Form::Bare, b"10\n01\n", b"gf2 2 2\n10\n01\n", b"10\n01\n"),
    (Form::Bare, b"011\n", b"gf2 1 3\n011\n", b"011\n"),
    (
        Form::Bare,
        b"1\n0\n0\n1\n1\n",
        b"gf2 5 1\n1\n0\n0\n1\n1\n",
        b"1\n0\n0\n1\n1\n",
    ),
    (Form::Jcf, b"2 2 2 0", b"gf2 2 2\n00\n00\n", b"2 2 2\n0\n"),
    (
        Form::Jcf,
        b" 2 3 2 9 -03\t1 -2",
        b"gf2 2 3\n101\n010\n",
        b"2 3 2\n3\n-1 3\n-2\n",
    ),
    (Form::Jcf, b"0 2 2 0\n", b"gf2 0 2\n", b"0 2 2\n0\n"),
];

#[test]
fn plain_texts_are_read_and_written(rt: HostRuntime) -> Result<(), Fail> {
    let alloc = rt.alloc();
    for case in &PLAIN {
        let m = read_bytes(alloc, case.0, case.1)?;
        is_written(&rt, alloc, &m, Form::Headed, case.2)?;
        for cut in 0..case.1.len() {
            let m = read_cut(alloc, case.0, case.1, cut)?;
            is_written(&rt, alloc, &m, case.0, case.3)?;
        }
    }
    Ok(())
}

/// Headed texts of matrices that a form can't hold.
const UNHELD: [(&[u8], Form); 4] = [
    (b"gf2 0 3\n", Form::Bare),
    (b"gf2 2 2\n00\n01\n", Form::Jcf),
    (b"gf2e 2 7 1 1\n3\n", Form::Bare),
    (b"gf2e 2 7 1 1\n3\n", Form::Jcf),
];

#[test]
fn forms_that_hold_not_all(rt: HostRuntime) -> Result<(), Fail> {
    let alloc = rt.alloc();
    for case in &UNHELD {
        let m = read_bytes(alloc, Form::Headed, case.0)?;
        assert!(rt; !can_write(&m, case.1));
    }
    Ok(())
}

/// Files that are refused, and why.
const REFUSED: [(&[u8], TextFault); 24] = [
    (b"", TextFault::Bad { at: 0 }),
    (b"gf2 2 2", TextFault::Bad { at: 7 }),
    (b"gf2 02 2\n", TextFault::Bad { at: 5 }),
    (b"gf2 1234567890 1\n", TextFault::Bad { at: 13 }),
    (b"gf2 1 1\r\n", TextFault::Bad { at: 7 }),
    (b"gf2 1 1\n2\n", TextFault::Bad { at: 8 }),
    (b"gf2 1 1\n1\n\n", TextFault::Bad { at: 10 }),
    (b"gf2 1 1\n1", TextFault::Bad { at: 9 }),
    (b"gf2 65537 x", TextFault::Bad { at: 10 }),
    (b"gf2 65537 1\n", TextFault::Limit),
    (b"gf2e 4 1F 1 1\n1\n", TextFault::Bad { at: 8 }),
    (b"gf2e 3 b 1 1\n8\n", TextFault::Bad { at: 13 }),
    (b"gf2e 8 11b 1 1\n5\n", TextFault::Bad { at: 16 }),
    (b"gf2e 9 203 1 1\n200\n", TextFault::Bad { at: 15 }),
    (b"gf2e 16 1002b 65536 257\n", TextFault::Limit),
    (
        b"gf2e 1 2 65537 1\n",
        TextFault::Field {
            at: 5,
            fault: FieldFault::BadDegree,
        },
    ),
    (
        b"gf2e 17 20009 1 1\n1\n",
        TextFault::Field {
            at: 5,
            fault: FieldFault::BadDegree,
        },
    ),
    (
        b"gf2e 2 5 65537 1\n",
        TextFault::Field {
            at: 7,
            fault: FieldFault::Reducible,
        },
    ),
    (
        b"gf2e 10 5 1 1\n",
        TextFault::Field {
            at: 8,
            fault: FieldFault::Reducible,
        },
    ),
    (b"gf2x 1 5\nf2\n", TextFault::Bad { at: 10 }),
    (b"gf2x 1 5\nf\n", TextFault::Bad { at: 10 }),
    (b"gf2x 1 4\nF\n", TextFault::Bad { at: 9 }),
    (b"gf2x 65537 1\n", TextFault::Limit),
    (b"gf2y 1 1\n1\n", TextFault::Bad { at: 3 }),
];

/// Bare texts and JCF that are refused, and why.
const REFUSED_PLAIN: [(Form, &[u8], TextFault); 15] = [
    (Form::Bare, b"1\r\n", TextFault::Bad { at: 1 }),
    (Form::Bare, b"1", TextFault::Bad { at: 1 }),
    (Form::Bare, b"\n1", TextFault::Bad { at: 1 }),
    (Form::Bare, b"x", TextFault::Bad { at: 0 }),
    (Form::Bare, b"10\n0", TextFault::Bad { at: 4 }),
    (Form::Bare, b"10\n01", TextFault::Bad { at: 5 }),
    (Form::Bare, b"10\n01\n100\n", TextFault::Bad { at: 8 }),
    (Form::Bare, b"10\n01\n1\n", TextFault::Bad { at: 7 }),
    (Form::Jcf, b"", TextFault::Bad { at: 0 }),
    (Form::Jcf, b"+2 2 2 0", TextFault::Bad { at: 0 }),
    (Form::Jcf, b"2 2 2 0 -1 -2 -1", TextFault::Bad { at: 14 }),
    (
        Form::Jcf,
        b"1 1 2 1 -1000000000000000000",
        TextFault::Bad { at: 8 },
    ),
    (Form::Jcf, b"1 1 2 1 --1", TextFault::Bad { at: 8 }),
    (Form::Jcf, b"65537 1 2 0", TextFault::Limit),
    (Form::Jcf, b"65537 1 3 0", TextFault::Bad { at: 8 }),
];

/// The bytes are refused with this fault, in whichever two pieces they come, or one by one.
fn is_refused_cut(rt: &impl Abort, alloc: Global, form: Form, bytes: &[u8], fault: TextFault) {
    is_refused(rt, read_bytes(alloc, form, bytes), fault);
    for cut in 0..bytes.len() + 1 {
        is_refused(rt, read_cut(alloc, form, bytes, cut), fault);
    }
}

#[test]
fn other_texts_are_refused(rt: HostRuntime) -> Result<(), Fail> {
    let alloc = rt.alloc();
    for case in &REFUSED {
        is_refused_cut(&rt, alloc, Form::Headed, case.0, case.1);
    }
    for case in &REFUSED_PLAIN {
        is_refused_cut(&rt, alloc, case.0, case.1, case.2);
    }
    Ok(())
}

/// Bare texts of one byte so many times and an ending, and why they are refused, if they are.
const REPEATED: [(u8, usize, &[u8], Option<TextFault>); 6] = [
    (b'1', 65536, b"\n", None),
    (b'1', 65536, b"", Some(TextFault::Bad { at: 65536 })),
    (b'1', 65536, b"1", Some(TextFault::Limit)),
    (b'\n', 65535, b"\n", None),
    (b'\n', 65536, b"\n", Some(TextFault::Limit)),
    (b'\n', 65536, b"1", Some(TextFault::Bad { at: 65536 })),
];

#[test]
fn long_bare_texts(rt: HostRuntime) -> Result<(), Fail> {
    let alloc = rt.alloc();
    for case in &REPEATED {
        let mut bytes = Vec::new(alloc);
        for _ in 0..case.1 {
            bytes.push(case.0)?;
        }
        bytes.extend_from_slice(case.2)?;
        for cut in &[0, 1000, case.1] {
            let read = read_cut(alloc, Form::Bare, &bytes, *cut);
            match case.3 {
                None => assert!(rt; read.is_ok()),
                Some(fault) => is_refused(&rt, read, fault),
            }
        }
    }
    Ok(())
}

/// The next number of a sequence without an order.
fn next(seed: &mut u64) -> u64 {
    let mut word = *seed;
    word ^= word << 13;
    word ^= word >> 7;
    word ^= word << 17;
    *seed = word;
    word
}

/// A field of degree 1, 2, 4, 8, 9 or 16.
fn random_field(seed: &mut u64) -> Field {
    const FIELDS: [(u32, u32); 5] = [(2, 0x7), (4, 0x13), (8, 0x11b), (9, 0x203), (16, 0x1002b)];
    match FIELDS.get((next(seed) % 8) as usize) {
        Some(&(degree, poly)) => Field::new(degree, poly).unwrap_or(Field::gf2()),
        None => Field::gf2(),
    }
}

/// Writes an element without an order in this place, if there is one.
fn put_random(m: &mut Mzed, r: u32, c: u32, seed: &mut u64) {
    let field = m.field();
    let _degree = field.e();
    let elements = 1u64 << field.e();
    if r < m.rows() && c < m.cols() {
        m.put(r, c, (next(seed) % elements) as u32);
    }
}

/// The text in this form of a matrix of a few rows and columns, where the form can hold it, else nothing.
fn random_text(alloc: Global, form: Form, seed: &mut u64) -> Result<Vec<u8>, Fail> {
    let field = random_field(seed);
    let _width = field.width();
    let rows = (next(seed) % 4) as u32;
    let cols = (next(seed) % 70) as u32;
    let mut m = Mzed::zeros(alloc, field, rows, cols)?;
    for r in 0..rows {
        for c in 0..cols {
            put_random(&mut m, r, c, seed);
        }
    }
    let mut sink = MemSink::new(alloc, 2000, Vec::new(alloc))?;
    if can_write(&m, form) {
        write_text(&m, form, &mut sink)?;
    }
    Ok(Vec::from_slice(alloc, sink.taken())?)
}

/// The text with one byte exchanged, dropped or doubled, or as it is.
fn spoiled(alloc: Global, text: &[u8], seed: &mut u64) -> Result<Vec<u8>, Fail> {
    const BYTES: [u8; 8] = *b"01f -\n2a";
    let place = (next(seed) % (text.len() as u64 + 1)) as usize;
    let mut bytes = Vec::new(alloc);
    let how = next(seed) % 4;
    for (at, byte) in text.iter().enumerate() {
        if at != place || how == 0 {
            bytes.push(*byte)?;
        } else if how == 1 {
            bytes.push(BYTES[(next(seed) % 8) as usize])?;
        } else if how == 2 {
            bytes.push(*byte)?;
            bytes.push(*byte)?;
        }
    }
    Ok(bytes)
}

/// Reads the bytes in three pieces.
fn read_in_three(
    alloc: Global,
    form: Form,
    bytes: &[u8],
    first: usize,
    second: usize,
) -> Result<Mzed, TextFault> {
    let second = second.min(bytes.len());
    let first = first.min(second);
    let mut reader = Reader::new(alloc, form);
    let _ = reader.feed(&bytes[..first]);
    let _ = reader.feed(&bytes[first..second]);
    let _ = reader.feed(&bytes[second..]);
    reader.finish()
}

#[test]
fn cuts_change_no_answer(rt: HostRuntime) -> Result<(), Fail> {
    const FORMS: [Form; 4] = [Form::Headed, Form::Hex, Form::Bare, Form::Jcf];
    let alloc = rt.alloc();
    let mut seed = 0x9e37_79b9_7f4a_7c15;
    for case in 0..400usize {
        let form = FORMS[case % 4];
        let text = random_text(alloc, form, &mut seed)?;
        let bytes = spoiled(alloc, &text, &mut seed)?;
        let first = (next(&mut seed) % 300) as usize;
        let second = (next(&mut seed) % 300) as usize;
        let whole = read_in_three(alloc, form, &bytes, 0, 0);
        match (whole, read_in_three(alloc, form, &bytes, first, second)) {
            (Ok(a), Ok(b)) => assert!(rt; a == b),
            (Err(a), Err(b)) => assert_eq!(rt; a, b),
            _ => assert!(rt; false, "case {case}"),
        }
    }
    Ok(())
}
