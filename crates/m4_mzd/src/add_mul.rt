//! Engines: what adds a product to a window.

ghost use Rattle.std.specs.Prelude.{◌≡◌, ◌+◌, ⊤};
ghost use Rattle.m4_model.specs.Matrix.{added, product};
ghost use Rattle.m4_mzd.specs.Window.{content, showing};
ghost use Rattle.m4_mzd.specs.Seen.{shown};
ghost use Rattle.m4_mzd.specs.Reach.{IsReached};

use crate::steps::Steps;
use crate::win::Win;
use crate::win_mut::WinMut;
use std::sync::ledger::Ledger;

/// The shape of a product: an `m` x `l` matrix times an `l` x `n` matrix.
#[derive(Clone, Copy)]
pub struct Shape {
    pub m: u32,
    pub l: u32,
    pub n: u32,
}

/// An engine: it adds the product of two windows to a third. It takes no memory and can't fail.
pub trait AddMul {
    ghost use Rattle.m4_mzd.specs.declared.add_mul.Shape.{Shape};

    // The largest number of each kind that it takes.
    ghost limits: { Self → Shape };

    // Whether it can be called as it is. An engine can, unless it says otherwise.
    ghost ready: { Self → Type 0 } = { λ _. ⊤ };

    /// The largest number of each kind that the engine takes.
    fn reach(&self) -> Shape
        ensures { result ≡ limits self.now };

    /// Adds `a` times `b` to `c`. The factors may be windows over the matrix that `c` is a part of.
    fn addmul(&mut self, c: &mut WinMut, a: &Win, b: &Win)
        requires ready { ready self.old }
        requires rows { (shown a.now).rows ≡ c.old.rows }
        requires inner { (shown a.now).cols ≡ (shown b.now).rows }
        requires cols { (shown b.now).cols ≡ c.old.cols }
        requires reached { IsReached (limits self.old) c.old.rows (shown a.now).cols c.old.cols }
        ensures sum { c.new ≡ showing c.old (added (content c.old) (product (shown a.now) (shown b.now))) }
        ensures reach { limits self.new ≡ limits self.old }
        ensures still_ready { ready self.new };
}

/// Adds `a` times `b` to `c` by one call of the engine, and counts it as one step.
pub fn counted<M: AddMul, L: Ledger>(
    engine: &mut M,
    c: &mut WinMut,
    a: &Win,
    b: &Win,
    steps: &mut Steps<L>,
)
    requires ready { M.ready engine.old }
    requires rows { (shown a.now).rows ≡ c.old.rows }
    requires inner { (shown a.now).cols ≡ (shown b.now).rows }
    requires cols { (shown b.now).cols ≡ c.old.cols }
    requires reached { IsReached (M.limits engine.old) c.old.rows (shown a.now).cols c.old.cols }
    ensures sum { c.new ≡ showing c.old (added (content c.old) (product (shown a.now) (shown b.now))) }
    ensures reach { M.limits engine.new ≡ M.limits engine.old }
    ensures still_ready { M.ready engine.new }
    ensures ticks { steps.new ≡ steps.old + 1 }
{
    steps.tick();
    engine.addmul(c, a, b);
}
