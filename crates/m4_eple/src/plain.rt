//! The plain elimination over any field, as a base.

use crate::base::Base;
use m4_mzed::EWinMut;
use m4_ple::ple_plain;

/// The plain elimination of windows over any field.
#[derive(Clone, Copy)]
pub struct Plain;

impl Base for Plain {
    ghost IsFor = { λ _ _. Unit {0} };

    fn ple(&mut self, a: &mut EWinMut, p: &mut [u32], q: &mut [u32]) -> u32 {
        let _cols = a.cols();
        ple_plain(a, p, q)
    }
}
