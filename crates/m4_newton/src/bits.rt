//! An engine over GF(2) as one over fields, which is for GF(2) alone.

ghost use Rattle.std.specs.Prelude.{◌≡◌};
ghost use Rattle.m4_model.specs.Field.{gf2};

use crate::add_mul::EAddMul;
use m4_mzd::{AddMul, Shape};
use m4_mzed::{EWin, EWinMut};

/// An engine for matrices of bits, as one for matrices over GF(2), as long as it can be called.
#[derive(Drop)]
pub struct OverBits<M> {
    pub engine: M,
}

impl<M: AddMul> EAddMul for OverBits<M> {
    ghost limits = { λ e. M.limits e.engine };

    ghost IsFor = { λ e F. (F ≡ gf2) × M.ready e.engine };

    #[inline]
    fn reach(&self) -> Shape {
        self.engine.reach()
    }

    #[inline]
    fn addmul(&mut self, c: &mut EWinMut, a: &EWin, b: &EWin) {
        let mut bits = c.take().into_bits();
        self.engine
            .addmul(&mut bits, &a.into_bits(), &b.into_bits());
        c.put_back(EWinMut::of_bits(bits));
    }
}
