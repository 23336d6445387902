//! Worked rows, each computed apart from this crate.

use crate::generate;
use m4_field::Field;
use m4_mzed::Mzed;
use std::test::Fail;

// Whether row `r` has these entries.
fn is_row(m: &Mzed, r: u32, entries: &[u32]) -> bool {
    if m.rows() <= r || m.cols() as usize != entries.len() {
        return false;
    }
    let mut same = true;
    for c in 0..m.cols() {
        same = same && m.get(r, c) == entries[c as usize];
    }
    same
}

#[test]
fn rows_over_gf2_are_the_low_bits_of_their_words(rt: HostRuntime) -> Result<(), Fail> {
    let m = generate(rt.alloc(), Field::gf2(), 2, 8, 0)?;
    assert!(rt; is_row(&m, 0, &[1, 1, 1, 1, 0, 1, 0, 1]));
    assert!(rt; is_row(&m, 1, &[0, 0, 1, 0, 1, 1, 1, 1]));
    Ok(())
}

#[test]
fn elements_are_the_low_bits_of_their_places(rt: HostRuntime) -> Result<(), Fail> {
    if let Ok(field) = Field::new(4, 0x13) {
        let _degree = field.e();
        let m = generate(rt.alloc(), field, 1, 4, 0)?;
        assert!(rt; is_row(&m, 0, &[0xf, 0xa, 0xd, 0xc]));
    }
    if let Ok(field) = Field::new(10, 0x409) {
        let _degree = field.e();
        let m = generate(rt.alloc(), field, 3, 2, u64::MAX)?;
        assert!(rt; is_row(&m, 0, &[32, 869]));
        assert!(rt; is_row(&m, 2, &[489, 626]));
    }
    Ok(())
}

#[test]
fn a_row_takes_its_words_behind_those_of_the_row_before(rt: HostRuntime) -> Result<(), Fail> {
    if let Ok(field) = Field::new(3, 0xb) {
        let _degree = field.e();
        let m = generate(rt.alloc(), field, 2, 18, 0x1234_5678_9abc_def0)?;
        assert!(rt;
            is_row(
                &m,
                0,
                &[0, 6, 0, 5, 6, 4, 5, 4, 6, 4, 2, 2, 1, 1, 6, 1, 0, 6]
            )
        );
        assert!(rt;
            is_row(
                &m,
                1,
                &[5, 0, 5, 2, 4, 2, 0, 1, 4, 4, 7, 7, 1, 0, 5, 3, 7, 5]
            )
        );
    }
    Ok(())
}
