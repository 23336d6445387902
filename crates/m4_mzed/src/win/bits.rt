//! A window for reading as the window of its bits.

ghost use Rattle.std.specs.Prelude.{◌≡◌};
ghost use Rattle.m4_model.specs.Field.{gf2};
ghost use Rattle.m4_mzd.specs.Seen.{shown};
ghost use Rattle.m4_mzed.specs.ESeen.{e_shown};
ghost use Rattle.m4_mzed.specs.Owned.{e_matrix};
ghost use Rattle.m4_mzed.specs.PackedIn.{IsPackedIn};

use super::EWin;
use m4_field::Field;
use m4_mzd::Win;

impl<'a> EWin<'a> {
    /// A window of bits, as one over GF(2).
    #[inline]
    pub fn of_bits(bits: Win<'a>) -> EWin<'a>
        ensures { e_shown result ≡ shown bits.entry }
    {
        let _rows = bits.rows();
        EWin {
            field: Field::gf2(),
            cols: bits.cols(),
            bits,
        }
    }

    /// A window over GF(2), as the window of bits that it is.
    #[inline]
    pub fn into_bits(self) -> Win<'a>
        requires { (e_shown self).field ≡ gf2 }
        ensures { shown result ≡ e_shown self.entry }
    {
        let _rows = self.bits.rows();
        self.bits
    }

    /// The bits of the window over any field, as they are packed.
    #[inline]
    pub fn packed(&self) -> Win<'a>
        ensures packed { IsPackedIn (e_shown self.now).field (e_shown self.now).cols (shown result) }
        ensures elements { e_matrix (e_shown self.now).field (e_shown self.now).cols (shown result) ≡ e_shown self.now }
    {
        self.bits
    }
}
