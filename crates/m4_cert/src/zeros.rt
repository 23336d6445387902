//! Whether a matrix is zero, entry by entry.

ghost use Rattle.std.specs.Prelude.{◌≡◌, ◌↔◌, ℕ, ◌<◌, IsTrue, IsFalse};
ghost use Rattle.m4_model.specs.Matrix.{at, zero_matrix};
ghost use Rattle.m4_cert.specs.Certificates.{HasNonzero};

use m4_mzed::Mzed;

/// Whether all entries of a matrix are zero.
pub(crate) fn is_zero(m: &Mzed) -> bool
    ensures zeros { IsTrue result ↔ (m.now ≡ zero_matrix m.now.field m.now.rows m.now.cols) }
    ensures nonzero { IsFalse result ↔ HasNonzero m.now }
{
    for r in 0..m.rows() {
        if !is_zero_row(m, r) {
            return false;
        }
    }
    true
}

/// Whether all entries of row `r` are zero.
fn is_zero_row(m: &Mzed, r: u32) -> bool
    requires { r < m.now.rows }
    ensures zeros { IsTrue result → (j : ℕ) → j < m.now.cols → at m.now r j ≡ 0 }
    ensures nonzero { IsFalse result → HasNonzero m.now }
{
    for c in 0..m.cols() {
        if m.get(r, c) != 0 {
            return false;
        }
    }
    true
}
