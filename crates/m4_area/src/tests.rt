//! Callers of the crate: parts that are written at the same time and joined, two rows of one rectangle, a recursion.

ghost use Rattle.std.specs.Prelude.{◌≡◌, ◌<◌, ◌≤◌, set, replicate};
ghost use Rattle.m4_area.specs.Rows.{row_of};
ghost use Rattle.m4_area.specs.Storage.{frame_of};

use super::*;
use std::test::Fail;
use std::thread::{Threads, join_mut};

// Writes a word all over a row.
#[tactic(auto, using(crate::proofs::RowLemmas::refill_same))]
fn fill_row(m: &mut Words, r: usize, word: u64)
    requires { r < m.old.rows }
    ensures { m.new ≡ record m.old { words = set m.old.words r (replicate m.old.width word) } }
{
    m.row_mut(r).fill(word);
}

// Copies row `s` onto row `r`, which lies below it.
fn copy_down(m: &mut Words, r: usize, s: usize)
    requires below { s < r }
    requires within { r < m.old.rows }
    ensures { m.new ≡ record m.old { words = set m.old.words r (row_of m.old.words s) } }
{
    let _rows = m.rows();
    let (above, mut below) = m.take().split_rows(r);
    below.row_mut(0).copy_from_slice(above.row(s));
    m.put(above.join_rows(below));
}

// Writes 1 to 4 all over the four quarters.
fn number_quarters(m: &mut Words, r: usize, w: usize)
    requires rows { r ≤ m.old.rows }
    requires words { w ≤ m.old.width }
    ensures frame { frame_of m.new ≡ frame_of m.old }
{
    let (above, below) = m.take().split_rows(r);
    let (mut a, mut b) = above.split_words(w);
    let (mut c, mut d) = below.split_words(w);
    fill(&mut a, 1);
    fill(&mut b, 2);
    fill(&mut c, 3);
    fill(&mut d, 4);
    m.put(a.join_words(b).join_rows(c.join_words(d)));
}

// Writes a word all over a rectangle.
fn fill(m: &mut Words, word: u64)
    ensures frame { frame_of m.new ≡ frame_of m.old }
{
    for r in 0..m.rows() {
        fill_row(m, r, word);
    }
}

// Writes its depth all over the first half of the rows, and goes on in the second half.
fn halve(m: &mut Words, depth: u64)
    ensures frame { frame_of m.new ≡ frame_of m.old }
{
    let rows = m.rows();
    if rows < 2 || depth == 0 {
        return;
    }
    let (mut above, mut below) = m.take().split_rows(rows / 2);
    fill(&mut above, depth);
    halve(&mut below, depth - 1);
    m.put(above.join_rows(below));
}

// Writes the halves of a rectangle by threads of their own.
fn fill_halves<R: Threads>(rt: &R, m: &mut Words)
    ensures frame { frame_of m.new ≡ frame_of m.old }
{
    let rows = m.rows();
    let (mut above, mut below) = m.take().split_rows(rows / 2);
    join_mut(rt, &mut || fill(&mut above, 7), &mut || fill(&mut below, 8));
    m.put(above.join_rows(below));
}

// An owner, and a reference to it, may go to another thread.
fn crosses<T: Send + Sync>(_: &T) {}

#[test]
fn quarters_are_joined(rt: HostRuntime) -> Result<(), Fail> {
    let mut owned = OwnedWords::from_vec(Vec::from_elem(rt.alloc(), 0, 12)?, 3, 4);
    crosses(owned.words());
    crosses(&owned);
    let (mut words, storage) = owned.take();
    number_quarters(&mut words, 1, 3);
    owned.put(words, storage);
    assert_eq!(rt; owned.words().rows(), 3);
    assert_eq!(rt; owned.words().row(0), [1, 1, 1, 2].as_slice());
    assert_eq!(rt; owned.words().row(2), [3, 3, 3, 4].as_slice());
    let (mut words, storage) = owned.take();
    fill_halves(&rt, &mut words);
    owned.put(words, storage);
    assert_eq!(rt; owned.words().rows(), 3);
    assert_eq!(rt; owned.words().row(0), [7; 4].as_slice());
    assert_eq!(rt; owned.words().row(1), [8; 4].as_slice());
    Ok(())
}
