//! Worked texts in each form, read whole and cut at each place.
use super::*;
use m4_io::MemSink;
use std::alloc::Global;
use std::process::Abort;
use std::test::Fail;

/// Reads the bytes in two pieces.
fn read_in_pieces(
    alloc: Global,
    form: Form,
    bytes: &[u8],
    cut: usize,
) -> Result<m4_mzd::Mzd, TextFault> {
    let cut = cut.min(bytes.len());
    let mut reader = Reader::new(alloc, form);
    let _ = reader.feed(&bytes[..cut]);
    let _ = reader.feed(&bytes[cut..]);
    reader.finish()
}

/// Refuses the bytes with this fault, whole and in pieces.
fn refuses(rt: &impl Abort, alloc: Global, form: Form, bytes: &[u8], fault: TextFault) {
    match read_as(alloc, form, bytes) {
        Ok(_) => assert!(rt; false, "read"),
        Err(found) => assert_eq!(rt; found, fault),
    }
    for cut in 0..bytes.len() {
        match read_in_pieces(alloc, form, bytes, cut) {
            Ok(_) => assert!(rt; false, "read in pieces"),
            Err(found) => assert_eq!(rt; found, fault),
        }
    }
}

/// Reads the bytes as the matrix of this headed text, whole and in pieces.
fn reads(
    rt: &impl Abort,
    alloc: Global,
    form: Form,
    bytes: &[u8],
    headed: &[u8],
) -> Result<(), Fail> {
    let m = read_as(alloc, form, bytes)?;
    let mut sink = MemSink::new(alloc, 100, Vec::new(alloc))?;
    write_text(&m, &mut sink)?;
    assert_eq!(rt; sink.taken(), headed);
    for cut in 0..bytes.len() {
        let m = read_in_pieces(alloc, form, bytes, cut)?;
        let mut sink = MemSink::new(alloc, 100, Vec::new(alloc))?;
        write_text(&m, &mut sink)?;
        assert_eq!(rt; sink.taken(), headed);
    }
    Ok(())
}

/// Writes the matrix of this headed text as these bytes.
fn writes(
    rt: &impl Abort,
    alloc: Global,
    headed: &[u8],
    form: Form,
    bytes: &[u8],
) -> Result<(), Fail> {
    let m = read_text(alloc, headed)?;
    if can_write(&m, form) {
        let mut sink = MemSink::new(alloc, 100, Vec::new(alloc))?;
        write_as(&m, form, &mut sink)?;
        assert_eq!(rt; sink.taken(), bytes);
    } else {
        assert!(rt; false, "not held");
    }
    Ok(())
}

/// The form can't hold the matrix of this headed text.
fn holds_not(rt: &impl Abort, alloc: Global, headed: &[u8], form: Form) -> Result<(), Fail> {
    let m = read_text(alloc, headed)?;
    assert!(rt; !can_write(&m, form));
    Ok(())
}

#[test]
fn headed_texts_are_read_and_written(rt: HostRuntime) -> Result<(), Fail> {
    let texts: [&[u8]; 4] = [
        b"gf2 2 2\n11\n01\n",
        b"gf2 2 0\n\n\n",
        b"gf2 0 3\n",
        b"gf2 1 10\n0110100110\n",
    ];
    for text in texts {
        reads(&rt, rt.alloc(), Form::Headed, text, text)?;
        writes(&rt, rt.alloc(), text, Form::Headed, text)?;
    }
    Ok(())
}

/// The headed text of a matrix of so many rows and columns, whose entries have a period of 3.
fn long_text(alloc: Global, header: &[u8], rows: usize, cols: usize) -> Result<Vec<u8>, Fail> {
    let mut text = Vec::from_slice(alloc, header)?;
    for r in 0..rows {
        for c in 0..cols {
            text.push(if (r ^ c) % 3 == 0 { b'1' } else { b'0' })?;
        }
        text.push(b'\n')?;
    }
    Ok(text)
}

/// Reads a long text, and writes it again.
fn is_written_again(
    rt: &impl Abort,
    alloc: Global,
    header: &[u8],
    rows: usize,
    cols: usize,
) -> Result<(), Fail> {
    let text = long_text(alloc, header, rows, cols)?;
    let m = read_text(alloc, &text)?;
    let mut sink = MemSink::new(alloc, 1_000_000, Vec::new(alloc))?;
    write_text(&m, &mut sink)?;
    assert_eq!(rt; sink.taken(), &text[..]);
    Ok(())
}

#[test]
fn long_texts_are_read_and_written(rt: HostRuntime) -> Result<(), Fail> {
    is_written_again(&rt, rt.alloc(), b"gf2 600 63\n", 600, 63)?;
    is_written_again(&rt, rt.alloc(), b"gf2 600 64\n", 600, 64)?;
    is_written_again(&rt, rt.alloc(), b"gf2 600 65\n", 600, 65)?;
    is_written_again(&rt, rt.alloc(), b"gf2 3 40000\n", 3, 40000)
}

#[test]
fn bare_texts_are_read_and_written(rt: HostRuntime) -> Result<(), Fail> {
    let rows: [(&[u8], &[u8]); 4] = [
        (b"10\n01\n", b"gf2 2 2\n10\n01\n"),
        (b"", b"gf2 0 0\n"),
        (b"\n\n", b"gf2 2 0\n\n\n"),
        (b"011\n", b"gf2 1 3\n011\n"),
    ];
    for (bare, headed) in rows {
        reads(&rt, rt.alloc(), Form::Bare, bare, headed)?;
        writes(&rt, rt.alloc(), headed, Form::Bare, bare)?;
    }
    holds_not(&rt, rt.alloc(), b"gf2 0 3\n", Form::Bare)
}

#[test]
fn jcf_is_read_and_written(rt: HostRuntime) -> Result<(), Fail> {
    let rows: [(&[u8], &[u8]); 4] = [
        (b"2 3 2\n3\n-1 3 -2\n", b"gf2 2 3\n101\n010\n"),
        (b"1 2 2\n2\n-1 1\n", b"gf2 1 2\n10\n"),
        (b" 002\t3\r\n2 \x0b9\x0c-2", b"gf2 2 3\n010\n000\n"),
        (b"0 0 2 0", b"gf2 0 0\n"),
    ];
    for (jcf, headed) in rows {
        reads(&rt, rt.alloc(), Form::Jcf, jcf, headed)?;
    }
    let rows: [(&[u8], &[u8]); 3] = [
        (b"gf2 2 3\n101\n010\n", b"2 3 2\n3\n-1 3\n-2\n"),
        (b"gf2 2 2\n01\n00\n", b"2 2 2\n1\n-2\n"),
        (b"gf2 0 3\n", b"0 3 2\n0\n"),
    ];
    for (headed, jcf) in rows {
        writes(&rt, rt.alloc(), headed, Form::Jcf, jcf)?;
    }
    holds_not(&rt, rt.alloc(), b"gf2 2 2\n00\n01\n", Form::Jcf)
}

#[test]
fn a_text_cut_short_goes_wrong_at_its_end(rt: HostRuntime) {
    let bytes = b"gf2 2 10\n1100000000\n0100000001\n";
    for len in 0..bytes.len() {
        let fault = TextFault::Bad { at: len as u64 };
        refuses(&rt, rt.alloc(), Form::Headed, &bytes[..len], fault);
    }
    let bytes = b"110\n010\n";
    for len in 0..bytes.len() {
        if len % 4 > 0 {
            let fault = TextFault::Bad { at: len as u64 };
            refuses(&rt, rt.alloc(), Form::Bare, &bytes[..len], fault);
        }
    }
}

#[test]
fn texts_are_refused_at_their_places(rt: HostRuntime) {
    let wide =
        b"gf2 1 70\n1101000011010000110100010000000011000011011001011010111110110010110x00\n";
    let rows: [(Form, &[u8], u64); 18] = [
        (Form::Headed, wide, 76),
        (Form::Headed, b"gf2 16384 16384\n", 16),
        (Form::Headed, b"gf2e 2 7 1 1\n", 3),
        (Form::Headed, b"gf2 01 1\n", 5),
        (Form::Headed, b"gf2 1 1\n1\n\n", 10),
        (Form::Headed, b"gf2 1 1\r\n1\r\n", 7),
        (Form::Headed, b"gf2 1 1\n2\n", 8),
        (Form::Headed, b"gf2 1234567890 1\n", 13),
        (Form::Bare, b"10\n1\n", 4),
        (Form::Bare, b"10\n011\n", 5),
        (Form::Bare, b"\n\n1", 2),
        (Form::Jcf, b"2 3 2\n3\n-4\n", 8),
        (Form::Jcf, b"2 3 3\n1\n-1\n", 4),
        (Form::Jcf, b"2 3 2\n1\n1\n", 8),
        (Form::Jcf, b"2 3 2\n1\n-0\n", 8),
        (Form::Jcf, b"1 3 2\n2\n-1 -2\n", 11),
        (Form::Jcf, b"1 3 2\n1\n-1 x\n", 11),
        (Form::Jcf, b"2 3", 3),
    ];
    for (form, bytes, at) in rows {
        refuses(&rt, rt.alloc(), form, bytes, TextFault::Bad { at });
    }
}

#[test]
fn texts_past_a_limit_are_refused(rt: HostRuntime) -> Result<(), Fail> {
    let rows: [(Form, &[u8]); 4] = [
        (Form::Headed, b"gf2 16385 16384\n"),
        (Form::Headed, b"gf2 65537 1\n"),
        (Form::Jcf, b"65537 1 2\n0\n"),
        (Form::Jcf, b"16385 16384 2 0 x"),
    ];
    for (form, bytes) in rows {
        refuses(&rt, rt.alloc(), form, bytes, TextFault::Limit);
    }
    let digits = vec![in rt.alloc(); b'0'; 65537]?;
    match read_as(rt.alloc(), Form::Bare, &digits) {
        Ok(_) => assert!(rt; false, "read"),
        Err(found) => assert_eq!(rt; found, TextFault::Limit),
    }
    let lines = vec![in rt.alloc(); b'\n'; 65537]?;
    match read_as(rt.alloc(), Form::Bare, &lines) {
        Ok(_) => assert!(rt; false, "read"),
        Err(found) => assert_eq!(rt; found, TextFault::Limit),
    }
    Ok(())
}

#[test]
fn a_fault_is_told_again(rt: HostRuntime) {
    let mut reader = Reader::new(rt.alloc(), Form::Bare);
    assert!(rt; reader.feed(b"1").is_ok());
    assert!(rt; reader.feed(b"0\n2").is_ok());
    match reader.finish() {
        Ok(_) => assert!(rt; false, "read"),
        Err(found) => assert_eq!(rt; found, TextFault::Bad { at: 3 }),
    }
}

#[test]
fn faults_are_told_in_words(rt: HostRuntime) -> Result<(), Fail> {
    let alloc = rt.alloc();
    let rows: [(TextFault, &str); 5] = [
        (TextFault::Bad { at: 0 }, "bad text at byte 0"),
        (TextFault::Bad { at: 76 }, "bad text at byte 76"),
        (
            TextFault::Bad { at: u64::MAX },
            "bad text at byte 18446744073709551615",
        ),
        (TextFault::Limit, "limit passed"),
        (TextFault::NoMemory, "out of memory"),
    ];
    for (fault, words) in rows {
        let told = format!(in alloc; "{fault}")?;
        assert_eq!(rt; told.as_str(), words);
    }
    let told = format!(in alloc; "{}", WriteFault::Failed)?;
    assert_eq!(rt; told.as_str(), "write failed");
    Ok(())
}
