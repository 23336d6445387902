//! The rows and the columns of a matrix in another order.

ghost use Rattle.std.specs.Prelude.{◌≡◌, ◌<◌, length, IfOk};
ghost use Rattle.std.specs.List.{All};
ghost use Rattle.m4_model.specs.Step.{reordered};
ghost use Rattle.m4_mzd.specs.Window.{showing};
ghost use Rattle.m4_mzd.specs.Seen.{shown};
ghost use Rattle.m4_perm.specs.Perm.{columns_reordered};

use crate::perm::Perm;
use m4_model::NoMemory;
use m4_mzd::{Mzd, Win, WinMut};
use m4_shape::transpose;
use std::alloc::Global;

impl Perm {
    /// The rows of `a` in this order: row `i` is the row of `a` whose number stands at place `i`.
    pub fn permute_rows(&self, alloc: Global, a: &Win) -> Result<Mzd, NoMemory>
        requires { (shown a.now).rows ≡ length self.now }
        ensures { IfOk result (λ m. m ≡ reordered self.now (shown a.now)) }
    {
        let order = self.as_list();
        let mut m = Mzd::zeros(alloc, a.rows(), a.cols())?;
        let (mut whole, home) = m.all_mut();
        copy_in_order(&mut whole, a, order);
        m.put_all(whole, home);
        Ok(m)
    }

    /// The columns of `a` in this order: column `j` is the column of `a` whose number stands at place `j`. They are moved
    /// as rows of the transpose.
    pub fn permute_cols(&self, alloc: Global, a: &Win) -> Result<Mzd, NoMemory>
        requires { (shown a.now).cols ≡ length self.now }
        ensures { IfOk result (λ m. m ≡ columns_reordered self.now (shown a.now)) }
    {
        let _order = self.as_list();
        let turned = transpose(alloc, a)?;
        let moved = self.permute_rows(alloc, &turned.all())?;
        Ok(transpose(alloc, &moved.all())?)
    }
}

/// Copies the rows of `a` in an order over those of a window of the same shape.
fn copy_in_order(dst: &mut WinMut, a: &Win, order: &[u32])
    requires rows { dst.old.rows ≡ length order.now }
    requires same_rows { (shown a.now).rows ≡ dst.old.rows }
    requires same_cols { (shown a.now).cols ≡ dst.old.cols }
    requires listed { All (λ s. s < (shown a.now).rows) order.now }
    ensures { dst.new ≡ showing dst.old (reordered order.now (shown a.now)) }
{
    let _rows = a.rows();
    for r in 0..dst.rows() {
        dst.copy_row(r, a, order[r as usize]);
    }
}
