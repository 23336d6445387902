//! Matrices are equal where all their entries are.

ghost use Rattle.std.specs.Prelude.{◌≡◌, ◌↔◌, ℕ, IsTrue, length};
ghost use Rattle.m4_bits.specs.Bits.{bit};
ghost use Rattle.m4_mzd.specs.Equal.{are_equal, are_equal-equivalence, are_equal-partial};

use super::Mzd;

impl PartialEq for Mzd {
    ghost eq = { are_equal };

    ghost laws = { are_equal-partial };

    fn eq(&self, other: &Mzd) -> bool
        ensures test { result ≡ are_equal self.now other.now }
        ensures same { IsTrue result ↔ (self.now ≡ other.now) }
    {
        if self.rows() != other.rows() || self.cols() != other.cols() {
            return false;
        }
        let mine = self.words.words();
        let theirs = other.words.words();
        for r in 0..self.rows() {
            if !have_same_bits(mine.row(r as usize), theirs.row(r as usize)) {
                return false;
            }
        }
        true
    }
}

impl Eq for Mzd {
    ghost laws = { are_equal-equivalence };
}

// Whether two rows of as many words have the same bits.
fn have_same_bits(a: &[u64], b: &[u64]) -> bool
    requires { length a.now ≡ length b.now }
    ensures { IsTrue result ↔ ((j : ℕ) → bit a.now j ≡ bit b.now j) }
{
    for place in 0..a.len() {
        if a[place] != b[place] {
            return false;
        }
    }
    true
}
