//! Matrices are equal where they are over one field and all their entries are.

ghost use Rattle.std.specs.Prelude.{◌≡◌, ◌↔◌, IsTrue};
ghost use Rattle.m4_mzed.specs.Equal.{are_equal, are_equal-equivalence, are_equal-partial};

use super::Mzed;

/// They are compared word by word, up to the first that differs. It takes no memory.
impl PartialEq for Mzed {
    ghost eq = { are_equal };

    ghost laws = { are_equal-partial };

    fn eq(&self, other: &Mzed) -> bool
        ensures test { result ≡ are_equal self.now other.now }
        ensures same { IsTrue result ↔ (self.now ≡ other.now) }
    {
        let _rows = self.bits.rows();
        let _rows_of_other = other.bits.rows();
        if self.field.e() != other.field.e()
            || self.field.poly() != other.field.poly()
            || self.cols != other.cols
        {
            return false;
        }
        self.bits == other.bits
    }
}

impl Eq for Mzed {
    ghost laws = { are_equal-equivalence };
}
