//! A window for writing as the window of its bits.

ghost use Rattle.std.specs.Prelude.{◌≡◌};
ghost use Rattle.m4_model.specs.Field.{gf2};
ghost use Rattle.m4_field.specs.Fields.{the_field};
ghost use Rattle.m4_mzd.specs.Window.{content as bit_content};
ghost use Rattle.m4_mzed.specs.EWindow.{content};
ghost use Rattle.m4_mzed.specs.Packed.{elements, IsPacked};

use super::EWinMut;
use m4_field::Field;
use m4_mzd::WinMut;

impl EWinMut {
    /// A window of bits, as one over GF(2).
    #[inline]
    pub fn of_bits(bits: WinMut) -> EWinMut
        ensures content { content result ≡ bit_content bits }
        ensures place { (result.place ≡ bits.place) × (result.skip ≡ bits.skip) × (result.past ≡ bits.past) }
    {
        let _rows = bits.rows();
        EWinMut {
            field: Field::gf2(),
            cols: bits.cols(),
            bits,
        }
    }

    /// A window over GF(2), as the window of bits that it is.
    #[inline]
    pub fn into_bits(self) -> WinMut
        requires { self.field ≡ gf2 }
        ensures content { bit_content result ≡ content self }
        ensures place { (result.place ≡ self.place) × (result.skip ≡ self.skip) × (result.past ≡ self.past) }
    {
        let EWinMut {
            field: _,
            cols: _,
            bits,
        } = self;
        let _rows = bits.rows();
        bits
    }

    /// A window of bits in which so many elements of this field are packed in each row.
    #[inline]
    pub fn of_packed(field: Field, cols: u32, bits: WinMut) -> EWinMut
        requires { IsPacked (the_field field) cols bits }
        ensures { result ≡ elements (the_field field) cols bits }
    {
        EWinMut { field, cols, bits }
    }

    /// The bits of the window over any field, as they are packed.
    #[inline]
    pub fn into_packed(self) -> WinMut
        ensures packed { IsPacked self.field self.cols result }
        ensures elements { elements self.field self.cols result ≡ self }
    {
        let EWinMut {
            field: _,
            cols: _,
            bits,
        } = self;
        bits
    }
}
