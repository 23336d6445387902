//! The content of a window, for reading.

ghost use Rattle.std.specs.Prelude.{◌≡◌};
ghost use Rattle.m4_mzed.specs.EWindow.{content};
ghost use Rattle.m4_mzed.specs.ESeen.{e_shown};

use super::EWinMut;
use crate::win::EWin;

impl EWinMut {
    /// The window, for reading.
    #[inline]
    pub fn see(&self) -> EWin<'_>
        ensures { e_shown result ≡ content self.now }
    {
        EWin {
            field: self.field,
            cols: self.cols,
            bits: self.bits.see(),
        }
    }
}
