//! Whether two matrices are the same.

ghost use Rattle.std.specs.Prelude.{◌≡◌, ◌↔◌, ℕ, ◌<◌, IsTrue};
ghost use Rattle.m4_model.specs.Matrix.{at};
ghost use Rattle.m4_mzd.specs.Seen.{shown};
ghost use Rattle.m4_dense.specs.Alike.{AreAlike};

use m4_bits::words_for;
use m4_mzd::Win;
use m4_mzed::Mzed;

/// Whether two matrices are over the same field, of the same shape, and have the same entries. They are compared word by
/// word, up to the first that differs. It takes no memory.
pub fn are_equal(a: &Mzed, b: &Mzed) -> bool
    ensures { IsTrue result ↔ (a.now ≡ b.now) }
{
    are_alike(a, b) && have_same_bits(a, b)
}

/// Whether two matrices are over the same field and of the same shape.
fn are_alike(a: &Mzed, b: &Mzed) -> bool
    ensures { IsTrue result ↔ AreAlike a.now b.now }
{
    let f = a.field();
    let g = b.field();
    f.e() == g.e() && f.poly() == g.poly() && a.rows() == b.rows() && a.cols() == b.cols()
}

/// Whether two matrices over the same field and of the same shape have the same bits, and so the same entries.
fn have_same_bits(a: &Mzed, b: &Mzed) -> bool
    requires { AreAlike a.now b.now }
    ensures { IsTrue result ↔ (a.now ≡ b.now) }
{
    let mine = a.all().packed();
    let theirs = b.all().packed();
    let _rows = mine.rows();
    let _rows_of_b = theirs.rows();
    have_same_rows(&mine, &theirs)
}

/// Whether two windows of the same shape have the same bits.
fn have_same_rows(a: &Win, b: &Win) -> bool
    requires same_rows { (shown b.now).rows ≡ (shown a.now).rows }
    requires same_cols { (shown b.now).cols ≡ (shown a.now).cols }
    ensures { IsTrue result ↔ (shown a.now ≡ shown b.now) }
{
    let _cols = b.cols();
    for r in 0..a.rows() {
        if !have_same_words(a, b, r) {
            return false;
        }
    }
    true
}

/// Whether two windows have the same bits in row `r`.
fn have_same_words(a: &Win, b: &Win, r: u32) -> bool
    requires in_rows { r < (shown a.now).rows }
    requires same_rows { (shown b.now).rows ≡ (shown a.now).rows }
    requires same_cols { (shown b.now).cols ≡ (shown a.now).cols }
    ensures { IsTrue result ↔ ((j : ℕ) → j < (shown a.now).cols → at (shown a.now) r j ≡ at (shown b.now) r j) }
{
    let _cols = b.cols();
    for w in 0..words_for(a.cols()) {
        if a.word(r, w) != b.word(r, w) {
            return false;
        }
    }
    true
}
