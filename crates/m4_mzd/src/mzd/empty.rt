//! The matrix of no rows and no columns.

ghost use Rattle.std.specs.Prelude.{◌≡◌};
ghost use Rattle.m4_model.specs.Field.{gf2};
ghost use Rattle.m4_model.specs.Matrix.{zero_matrix};

use super::Mzd;
use m4_area::OwnedWords;
use std::alloc::Global;

impl Mzd {
    /// The matrix of no rows and no columns. It takes no memory, so it may stand where another matrix is taken from, as
    /// in `std::mem::replace`.
    pub fn empty(alloc: Global) -> Mzd
        ensures { result ≡ zero_matrix gf2 0 0 }
    {
        Mzd::of(OwnedWords::none(alloc), 0)
    }
}
