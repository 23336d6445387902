//! Rows of zeros, which are told by their words.

ghost use Rattle.std.specs.Prelude.{◌≡◌, ◌≢◌, ℕ, ◌<◌, IsTrue, false};
ghost use Rattle.m4_model.specs.Matrix.{at};
ghost use Rattle.m4_mzd.specs.Seen.{shown};
ghost use Rattle.m4_mzed.specs.ESeen.{e_shown};

use m4_bits::words_for;
use m4_mzd::Win;
use m4_mzed::EWin;

/// Whether every entry of row `i` is zero.
pub(crate) fn is_zero_row(y: &EWin, i: u32) -> bool
    requires { i < (e_shown y.now).rows }
    ensures zero { IsTrue result → (j : ℕ) → j < (e_shown y.now).cols → at (e_shown y.now) i j ≡ 0 }
    ensures some { result ≡ false → (j : ℕ) × (j < (e_shown y.now).cols) × (at (e_shown y.now) i j ≢ 0) }
{
    let _rows = y.rows();
    let bits = y.packed();
    let _rows_of_bits = bits.rows();
    has_zero_words(&bits, i)
}

/// Whether every word of row `i` is zero.
fn has_zero_words(bits: &Win, i: u32) -> bool
    requires { i < (shown bits.now).rows }
    ensures zero { IsTrue result → (p : ℕ) → p < (shown bits.now).cols → at (shown bits.now) i p ≡ 0 }
    ensures some { result ≡ false → (p : ℕ) × (p < (shown bits.now).cols) × (at (shown bits.now) i p ≢ 0) }
{
    let _rows = bits.rows();
    for w in 0..words_for(bits.cols()) {
        if bits.word(i, w) != 0 {
            return false;
        }
    }
    true
}
