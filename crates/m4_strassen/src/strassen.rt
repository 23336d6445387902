//! The engine by halves over any other.

ghost use Rattle.std.specs.Prelude.{◌≡◌, ◌+◌, ◌*◌, ◌^◌, ◌<◌, ◌≤◌, IfOk};
ghost use Rattle.m4_model.specs.Matrix.{added, product};
ghost use Rattle.m4_model.specs.Recursion.{need, products};
ghost use Rattle.m4_mzd.specs.Window.{content, showing};
ghost use Rattle.m4_mzd.specs.Seen.{shown};
ghost use Rattle.m4_mzd.specs.Reach.{IsReached};
ghost use Rattle.m4_strassen.specs.Engine.{CanRecurse};

use crate::halves::{cut_of, is_cut};
use crate::recursion::add_by_halves;
use m4_model::NoMemory;
use m4_mzd::{AddMul, MOST_SIDE, Scratch, Shape, Steps, Win, WinMut};
use std::alloc::Global;
use std::marker::Brand;
use std::sync::ledger::{Blank, Ledger};

/// The engine that cuts a product into seven products of quarters and three of the borders, as long as no side is below twice
/// the cutoff, and gives what isn't cut to the engine below it: Winograd's form of Strassen's algorithm. V. Strassen, Gaussian
/// elimination is not optimal, Numerische Mathematik 13 (1969); S. Winograd, On multiplication of 2 x 2 matrices, Linear
/// Algebra and its Applications 4 (1971).
///
/// It is called where the engine below can be, reaches as far, and the scratch has the words that the largest product needs,
/// as `new` makes it.
#[derive(Drop)]
pub struct Strassen<M> {
    /// The engine below.
    pub base: M,
    /// The largest product.
    pub reach: Shape,
    /// Half of the least side of a product that is cut.
    pub cutoff: u32,
    /// Memory for the sums and products of quarters.
    pub scratch: Scratch,
}

impl<M: AddMul + Drop> Strassen<M> {
    /// The engine for products up to a shape, over one that reaches as far. It reserves all memory that it will need.
    pub fn new(alloc: Global, reach: Shape, cutoff: u32, base: M) -> Result<Strassen<M>, NoMemory>
        requires ready { M.ready base }
        requires least { 64 ≤ cutoff }
        requires most { cutoff ≤ 2 ^ 16 }
        requires few_rows { reach.m ≤ MOST_SIDE }
        requires few_inner { reach.l ≤ MOST_SIDE }
        requires few_cols { reach.n ≤ MOST_SIDE }
        requires reached { IsReached (M.limits base) reach.m reach.l reach.n }
        ensures ready { IfOk result (λ s. CanRecurse (M.limits s.base) (M.ready s.base) s.reach s.cutoff s.scratch) }
        ensures reach { IfOk result (λ s. s.reach ≡ reach) }
        ensures cutoff { IfOk result (λ s. s.cutoff ≡ cutoff) }
        ensures base { IfOk result (λ s. s.base ≡ base) }
    {
        let words = need(reach.m, reach.l, reach.n, cutoff);
        let scratch = Scratch::new(alloc, words)?;
        Ok(Strassen {
            base,
            reach,
            cutoff,
            scratch,
        })
    }
}

impl<M: AddMul> Strassen<M> {
    /// Adds `a` times `b` to `c`, and counts the calls of the engine below.
    pub fn addmul_counted<L: Ledger>(
        &mut self,
        c: &mut WinMut,
        a: &Win,
        b: &Win,
        steps: &mut Steps<L>,
    )
        requires ready { CanRecurse (M.limits self.old.base) (M.ready self.old.base) self.old.reach self.old.cutoff self.old.scratch }
        requires rows { (shown a.now).rows ≡ c.old.rows }
        requires inner { (shown a.now).cols ≡ (shown b.now).rows }
        requires cols { (shown b.now).cols ≡ c.old.cols }
        requires reached { IsReached self.old.reach c.old.rows (shown a.now).cols c.old.cols }
        ensures sum { c.new ≡ showing c.old (added (content c.old) (product (shown a.now) (shown b.now))) }
        ensures reach { self.new.reach ≡ self.old.reach }
        ensures cutoff { self.new.cutoff ≡ self.old.cutoff }
        ensures still_ready { CanRecurse (M.limits self.new.base) (M.ready self.new.base) self.new.reach self.new.cutoff self.new.scratch }
        ensures ticks { steps.new ≤ steps.old + products c.old.rows (shown a.now).cols c.old.cols self.old.cutoff }
    {
        let (mut room, home) = self.scratch.room();
        add_by_halves(&mut self.base, &mut room, self.cutoff, c, a, b, steps);
        self.scratch.put_room(room, home);
    }
}

impl<M: AddMul> AddMul for Strassen<M> {
    ghost use Rattle.m4_strassen.specs.Engine.{CanRecurse};

    ghost limits = { λ s. s.reach };

    ghost ready = { λ s. CanRecurse (M.limits s.base) (M.ready s.base) s.reach s.cutoff s.scratch };

    fn reach(&self) -> Shape {
        self.reach
    }

    fn addmul(&mut self, c: &mut WinMut, a: &Win, b: &Win) {
        add_product::<M, Brand>(self, c, a, b, Blank::new(1));
    }
}

/// Adds the product with a count of calls that no one reads.
fn add_product<M: AddMul, L: Ledger>(
    engine: &mut Strassen<M>,
    c: &mut WinMut,
    a: &Win,
    b: &Win,
    blank: Blank,
)
    requires name { blank.name ≡ L.name }
    requires parts { blank.parts ≡ L.parts }
    requires one { blank.parts ≡ 1 }
    requires ready { CanRecurse (M.limits engine.old.base) (M.ready engine.old.base) engine.old.reach engine.old.cutoff engine.old.scratch }
    requires rows { (shown a.now).rows ≡ c.old.rows }
    requires inner { (shown a.now).cols ≡ (shown b.now).rows }
    requires cols { (shown b.now).cols ≡ c.old.cols }
    requires reached { IsReached engine.old.reach c.old.rows (shown a.now).cols c.old.cols }
    ensures sum { c.new ≡ showing c.old (added (content c.old) (product (shown a.now) (shown b.now))) }
    ensures reach { engine.new.reach ≡ engine.old.reach }
    ensures still_ready { CanRecurse (M.limits engine.new.base) (M.ready engine.new.base) engine.new.reach engine.new.cutoff engine.new.scratch }
{
    let mut steps = Steps::<L>::new(blank);
    engine.addmul_counted(c, a, b, &mut steps);
}

/// The words that a product needs.
fn need(m: u32, l: u32, n: u32, cutoff: u32) -> u64
    requires least { 64 ≤ cutoff }
    requires few { cutoff ≤ 2 ^ 16 }
    requires few_rows { m ≤ MOST_SIDE }
    requires few_inner { l ≤ MOST_SIDE }
    requires few_cols { n ≤ MOST_SIDE }
    ensures words { result ≡ need m l n cutoff }
    ensures few { 192 * result ≤ m * l + l * n + 2 * (m * n) }
{
    if !is_cut(m, l, n, cutoff) {
        return 0;
    }
    let cut = cut_of(m, l, n, cutoff);
    let (rows, inner, cols) = (cut.m as u64, cut.l as u64, cut.n as u64);
    let words = (rows * inner + inner * cols + 2 * (rows * cols)) / 64;
    words + need(cut.m, cut.l, cut.n, cut.cutoff)
}
