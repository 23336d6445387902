//! Engines: what adds a product to a window, over a field.

ghost use Rattle.std.specs.Prelude.{◌≡◌};
ghost use Rattle.m4_model.specs.Matrix.{added, product};
ghost use Rattle.m4_mzd.specs.Reach.{IsReached};
ghost use Rattle.m4_mzed.specs.EWindow.{content, showing};
ghost use Rattle.m4_mzed.specs.ESeen.{e_shown};

use m4_mzd::Shape;
use m4_mzed::{EWin, EWinMut};

/// An engine: it adds the product of two windows to a third, all over one field. It takes no memory and can't fail.
pub trait EAddMul {
    ghost use Rattle.m4_mzd.specs.declared.add_mul.Shape.{Shape};
    ghost use Rattle.m4_model.specs.Field.{Field};

    // The largest number of each kind that it takes.
    ghost limits: { Self → Shape };

    // Whether the engine as it is takes matrices over this field.
    ghost IsFor: { Self → Field → Type 0 };

    /// The largest number of each kind that the engine takes.
    fn reach(&self) -> Shape
        ensures { result ≡ limits self.now };

    /// Adds `a` times `b` to `c`. The factors may be windows over the matrix that `c` is a part of.
    fn addmul(&mut self, c: &mut EWinMut, a: &EWin, b: &EWin)
        requires for_field { IsFor self.old c.old.field }
        requires a_field { (e_shown a.now).field ≡ c.old.field }
        requires b_field { (e_shown b.now).field ≡ c.old.field }
        requires rows { (e_shown a.now).rows ≡ c.old.rows }
        requires inner { (e_shown a.now).cols ≡ (e_shown b.now).rows }
        requires cols { (e_shown b.now).cols ≡ c.old.cols }
        requires reached { IsReached (limits self.old) c.old.rows (e_shown a.now).cols c.old.cols }
        ensures sum { c.new ≡ showing c.old (added (content c.old) (product (e_shown a.now) (e_shown b.now))) }
        ensures reach { limits self.new ≡ limits self.old }
        ensures still_for { IsFor self.old c.old.field → IsFor self.new c.old.field };
}
