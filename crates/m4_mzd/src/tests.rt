//! Windows on matrices: parts that are written at the same time, and what stays around them.

ghost use Rattle.std.specs.Prelude.{◌≡◌, ◌+◌, ◌-◌, ◌%◌, ◌<◌, ◌≤◌, IfOk};
ghost use Rattle.std.specs.List.{All};
ghost use Rattle.m4_model.specs.Field.{gf2};
ghost use Rattle.m4_model.specs.Matrix.{zero_matrix};
ghost use Rattle.m4_model.specs.Shapes.{replace};
ghost use Rattle.m4_mzd.specs.Rectangles.{IsInside};

use crate::{MOST_ADDED, Mzd, Rect, RectFault, Steps, mixed};
use m4_model::NoMemory;
use std::alloc::Global;
use std::marker::Brand;
use std::sync::ledger::{Blank, Ledger};
use std::test::Fail;

// Whether the ones of a row are those between the two columns.
fn ones_between(m: &Mzd, r: u32, first: u32, end: u32) -> bool
    requires { r < m.now.rows }
{
    let mut same = true;
    for c in 0..m.cols() {
        same = same && m.get(r, c) == (first <= c && c < end);
    }
    same
}

#[test]
fn matrices_are_listed_compared_and_shown(rt: HostRuntime) -> Result<(), Fail> {
    let alloc = rt.alloc();
    let listed = Mzd::from_digits(alloc, &[*b"101", *b"011"])?;
    assert_eq!(rt; listed, Mzd::from_words(alloc, 3, &[[0b101], [0xFFF6]])?);
    assert!(rt; listed != Mzd::zeros(alloc, 2, 3)?);
    assert!(rt; Mzd::zeros(alloc, 0, 3)? != Mzd::empty(alloc));
    assert_eq!(rt; format!(in alloc; "{listed:?}")?.as_str(), "[101, 011]");
    let made_up = mixed(alloc, 2, 130, 7)?;
    assert!(rt; made_up == mixed(alloc, 2, 130, 7)?);
    assert!(rt; made_up != mixed(alloc, 2, 130, 8)?);
    Ok(())
}

#[test]
fn halves_are_written_at_the_same_time(rt: HostRuntime) -> Result<(), Fail> {
    let mut m = Mzd::zeros(rt.alloc(), 2, 130)?;
    let (whole, home) = m.all_mut();
    let (mut left, mut right) = whole.split_cols(64);
    left.put(0, 63, true);
    right.put(0, 0, true);
    right.put(0, 65, true);
    m.put_all(left.join_cols(right), home);
    assert!(rt; m.get(0, 63) && m.get(0, 64) && m.get(0, 129));
    assert!(rt; !m.get(0, 62) && !m.get(0, 65) && !m.get(0, 128));
    assert!(rt; ones_between(&m, 1, 0, 0));
    Ok(())
}

#[test]
fn a_word_is_written_within_the_window(rt: HostRuntime) -> Result<(), Fail> {
    let mut m = Mzd::zeros(rt.alloc(), 2, 130)?;
    let (whole, home) = m.all_mut();
    let (left, right) = whole.split_cols(128);
    let mut narrow = left.narrow(65);
    narrow.set_word(0, 1, u64::MAX);
    m.put_all(narrow.widen(128).join_cols(right), home);
    assert!(rt; ones_between(&m, 0, 64, 65));
    assert!(rt; ones_between(&m, 1, 0, 0));
    Ok(())
}

// Clears a rectangle.
fn clear_rect(m: &mut Mzd, rect: Rect)
    requires inside { IsInside rect m.old.rows m.old.cols }
    requires whole_words { rect.c0 % 64 ≡ 0 }
    ensures { m.new ≡ replace m.old rect.r0 rect.c0 (zero_matrix gf2 (rect.r1 - rect.r0) (rect.c1 - rect.c0)) }
{
    let (mut part, around) = m.win_mut(rect);
    part.clear();
    m.put_win(part, around);
}

#[test]
fn a_rectangle_is_cleared_and_nothing_around_it(rt: HostRuntime) -> Result<(), Fail> {
    let mut m = Mzd::from_words(rt.alloc(), 200, &[[u64::MAX; 4]; 3])?;
    clear_rect(
        &mut m,
        Rect {
            r0: 1,
            c0: 64,
            r1: 2,
            c1: 193,
        },
    );
    assert!(rt; ones_between(&m, 0, 0, 200));
    assert!(rt; ones_between(&m, 2, 0, 200));
    assert!(rt; m.get(1, 63) && !m.get(1, 64) && !m.get(1, 192) && m.get(1, 193) && m.get(1, 199));
    Ok(())
}

#[test]
fn copies_and_windows_are_read(rt: HostRuntime) -> Result<(), Fail> {
    let mut m = Mzd::identity(rt.alloc(), 70)?;
    let once_more = m.copy(rt.alloc())?;
    m.put(66, 66, false);
    let part = once_more.win(Rect {
        r0: 65,
        c0: 64,
        r1: 70,
        c1: 68,
    });
    assert_eq!(rt; (part.rows(), part.cols()), (5, 4));
    assert!(rt; part.get(1, 2) && !part.get(1, 1));
    assert_eq!(rt; part.word(0, 0), 2);
    Ok(())
}

#[test]
fn entries_are_read_across_a_border_of_words(rt: HostRuntime) -> Result<(), Fail> {
    let mut m = Mzd::zeros(rt.alloc(), 1, 66)?;
    m.put(0, 62, true);
    m.put(0, 65, true);
    let whole = m.all();
    assert_eq!(rt; whole.bits(0, 62, 4), 9);
    assert_eq!(rt; whole.bits(0, 50, 16), 1 << 12 | 1 << 15);
    assert_eq!(rt; whole.bits(0, 66, 0), 0);
    Ok(())
}

// Swaps the first and the last of three rows, adds the last to the second in the last columns, and clears the first.
fn move_rows(m: &mut Mzd)
    requires rows { m.old.rows ≡ 3 }
    requires cols { m.old.cols ≡ 130 }
    ensures rows { m.new.rows ≡ 3 }
    ensures cols { m.new.cols ≡ 130 }
{
    let (mut whole, home) = m.all_mut();
    whole.swap_rows(0, 2);
    whole.add_own(1, 2, 100);
    whole.clear_row(0);
    m.put_all(whole, home);
}

// Adds the second and the third row of `from` to the first.
fn add_two_rows(m: &mut Mzd, from: &Mzd)
    requires rows { m.old.rows ≡ 3 }
    requires from_rows { from.now.rows ≡ 3 }
    requires same_cols { from.now.cols ≡ m.old.cols }
    ensures rows { m.new.rows ≡ m.old.rows }
    ensures cols { m.new.cols ≡ m.old.cols }
{
    let (mut whole, home) = m.all_mut();
    whole.add_both(0, &from.all(), 1, &from.all(), 2);
    m.put_all(whole, home);
}

#[test]
fn rows_are_moved(rt: HostRuntime) -> Result<(), Fail> {
    let mut m = Mzd::from_words(rt.alloc(), 130, &[[u64::MAX; 3], [0; 3], [0; 3]])?;
    move_rows(&mut m);
    assert!(rt; ones_between(&m, 0, 0, 0));
    assert!(rt; ones_between(&m, 1, 100, 130));
    assert!(rt; ones_between(&m, 2, 0, 130));
    let before = m.copy(rt.alloc())?;
    add_two_rows(&mut m, &before);
    assert!(rt; ones_between(&m, 0, 0, 100));
    Ok(())
}

// A window may go to another thread, and a window for reading may be read there too.
fn crosses<T: Send>(_: &T) {}

fn is_shared<T: Send + Sync>(_: &T) {}

// Adds `T` rows of `from` to row 0.
fn add_first<const T: usize, L: Ledger>(
    m: &mut Mzd,
    from: &Mzd,
    numbers: &[u32; T],
    steps: &mut Steps<L>,
)
    requires some { 1 ≤ T }
    requires few { T ≤ MOST_ADDED }
    requires rows { 0 < m.old.rows }
    requires same_cols { from.now.cols ≡ m.old.cols }
    requires in_from { All (λ s. s < from.now.rows) numbers.now }
    ensures rows { m.new.rows ≡ m.old.rows }
    ensures cols { m.new.cols ≡ m.old.cols }
    ensures ticks { steps.new ≡ steps.old + T }
{
    let (mut whole, home) = m.all_mut();
    crosses(&whole);
    is_shared(&from.all());
    whole.add_rows(0, &from.all(), numbers, steps);
    m.put_all(whole, home);
}

// Adds the first `T` rows of the identity to a row of zeros.
fn adds_first<const T: usize, L: Ledger>(
    alloc: Global,
    numbers: &[u32; T],
    steps: &mut Steps<L>,
) -> Result<bool, NoMemory>
    requires some { 1 ≤ T }
    requires few { T ≤ MOST_ADDED }
    requires small { All (λ s. s < 130) numbers.now }
{
    let from = Mzd::identity(alloc, 130)?;
    let mut m = Mzd::zeros(alloc, 1, 130)?;
    add_first(&mut m, &from, numbers, steps);
    Ok(ones_between(&m, 0, 0, T as u32))
}

// Whether each number of rows is added.
fn adds_each<L: Ledger>(alloc: Global, blank: Blank) -> Result<bool, NoMemory>
    requires name { blank.name ≡ L.name }
    requires parts { blank.parts ≡ L.parts }
    requires one { blank.parts ≡ 1 }
{
    let mut steps = Steps::<L>::new(blank);
    let up_to_four = adds_first(alloc, &[0], &mut steps)?
        && adds_first(alloc, &[1, 0], &mut steps)?
        && adds_first(alloc, &[0, 1, 2], &mut steps)?
        && adds_first(alloc, &[3, 1, 2, 0], &mut steps)?;
    Ok(
        up_to_four
            && adds_first(alloc, &[0, 1, 2, 3, 4], &mut steps)?
            && adds_first(alloc, &[0, 1, 5, 3, 4, 2], &mut steps)?
            && adds_first(alloc, &[0, 1, 2, 3, 4, 5, 6], &mut steps)?
            && adds_first(alloc, &[7, 6, 5, 4, 3, 2, 1, 0], &mut steps)?,
    )
}

#[test]
fn several_rows_are_added(rt: HostRuntime) -> Result<(), Fail> {
    assert!(rt; adds_each::<Brand>(rt.alloc(), Blank::new(1))?);
    Ok(())
}

#[test]
fn rectangles_are_checked(rt: HostRuntime) {
    let unaligned = Rect {
        r0: 0,
        c0: 3,
        r1: 9,
        c1: 4,
    };
    let outside = Rect {
        r0: 0,
        c0: 0,
        r1: 9,
        c1: 4,
    };
    let inside = Rect {
        r0: 1,
        c0: 64,
        r1: 2,
        c1: 130,
    };
    assert!(rt; unaligned.check(2, 130, 64) == Err(RectFault::Unaligned));
    assert!(rt; outside.check(2, 130, 64) == Err(RectFault::Outside));
    assert!(rt; inside.check(2, 130, 64) == Ok(()));
}

#[test]
fn a_row_is_added_between_narrow_parts(rt: HostRuntime) -> Result<(), Fail> {
    let mut m = Mzd::from_words(rt.alloc(), 130, &[[u64::MAX; 3]; 2])?;
    add_first_columns::<Brand>(&mut m, Blank::new(1));
    assert!(rt; ones_between(&m, 0, 65, 130));
    assert!(rt; ones_between(&m, 1, 0, 130));
    Ok(())
}

// Adds row 1 to row 0 in the first 65 columns.
fn add_first_columns<L: Ledger>(m: &mut Mzd, blank: Blank)
    requires name { blank.name ≡ L.name }
    requires parts { blank.parts ≡ L.parts }
    requires one { blank.parts ≡ 1 }
    requires rows { m.old.rows ≡ 2 }
    requires cols { m.old.cols ≡ 130 }
    ensures rows { m.new.rows ≡ 2 }
    ensures cols { m.new.cols ≡ 130 }
{
    let mut steps = Steps::<L>::new(blank);
    let (whole, home) = m.all_mut();
    let (left, right) = whole.split_cols(128);
    let (above, below) = left.split_rows(1);
    let mut above = above.narrow(65);
    let below = below.narrow(65);
    above.add_row(0, &below.see(), 0, &mut steps);
    let left = above.widen(128).join_rows(below.widen(128));
    m.put_all(left.join_cols(right), home);
}
