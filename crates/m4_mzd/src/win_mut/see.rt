//! The content of a window, for reading.

ghost use Rattle.std.specs.Prelude.{◌≡◌};
ghost use Rattle.m4_mzd.specs.Window.{content};
ghost use Rattle.m4_mzd.specs.Seen.{shown};

use super::WinMut;
use crate::win::Win;
use m4_area::View;

impl WinMut {
    /// The window, for reading.
    #[inline]
    pub fn see(&self) -> Win<'_>
        ensures { shown result ≡ content self.now }
    {
        Win {
            view: View::new(&self.words),
            cols: self.cols,
        }
    }
}
