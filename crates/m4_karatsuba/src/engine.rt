//! The engine that multiplies over any field by products of slices.

ghost use Rattle.std.specs.Prelude.{◌≡◌, ◌+◌, ◌-◌, ◌*◌, ◌^◌, ◌≤◌, IfOk};
ghost use Rattle.m4_model.specs.Matrix.{added, product};
ghost use Rattle.m4_model.specs.Text.{words_per_row};
ghost use Rattle.m4_field.specs.Fields.{the_field};
ghost use Rattle.m4_mzd.specs.Reach.{IsReached};
ghost use Rattle.m4_mzed.specs.EWindow.{content, showing};
ghost use Rattle.m4_mzed.specs.ESeen.{e_shown};
ghost use Rattle.m4_karatsuba.specs.Counts.{karatsuba};
ghost use Rattle.m4_karatsuba.specs.Rooms.{words_with_sums};

use crate::product::add_in_scratch;
use m4_bits::words_for;
use m4_field::Field;
use m4_model::NoMemory;
use m4_mzd::{AddMul, MOST_SIDE, MOST_WORDS, Scratch, Shape, Steps};
use m4_mzed::{EWin, EWinMut};
use m4_newton::EAddMul;
use std::alloc::Global;
use std::marker::{Brand, Model};
use std::sync::ledger::{Blank, Ledger};

/// The engine that multiplies over a field by an engine over GF(2).
///
/// Both factors are taken apart into slices, one matrix over GF(2) for each coefficient of the elements, so that the product is
/// one of polynomials whose coefficients are matrices. It is made by Karatsuba's rule, from three products of halves; the slices
/// from the degree on are then folded into the others by the field's polynomial, and the sum is put together. A. Karatsuba and
/// Yu. Ofman, Multiplication of multidigit numbers on automata, Soviet Physics Doklady 7, 1963; M. Albrecht, The M4RIE library
/// for dense linear algebra over small fields with even characteristic, ISSAC 2012.
///
/// A matrix has at most 2^24 rows, and so have all slices of a factor, or of a product before it is reduced, together: of a
/// product twice as many as the degree, less one.
#[derive(Drop)]
pub struct KaratsubaMul<M: AddMul> {
    field: Field,
    reach: Shape,
    scratch: Scratch,
    pub(crate) engine: M,
}

impl<M: AddMul> Model for KaratsubaMul<M> {
    ghost use Rattle.m4_field.specs.Fields.{the_field};
    ghost use Rattle.m4_karatsuba.specs.Engine.{Slicing, CanSlice};

    ghost Value = { Slicing };

    ghost view = { λ k. record { field = the_field k.field; reach = k.reach } };

    ghost invariant = { λ k. CanSlice (record { field = the_field k.field; reach = k.reach }) (M.limits k.engine) k.scratch × M.ready k.engine };
}

impl<M: AddMul + Drop> KaratsubaMul<M> {
    /// The engine for products over this field up to a shape, over an engine for bits that can be called and reaches as far. It
    /// reserves all memory that it will need.
    pub fn new(
        alloc: Global,
        field: Field,
        reach: Shape,
        engine: M,
    ) -> Result<KaratsubaMul<M>, NoMemory>
        requires ready { M.ready engine }
        requires few_rows { (2 * (the_field field).degree - 1) * reach.m ≤ MOST_SIDE }
        requires few_inner { (the_field field).degree * reach.l ≤ MOST_SIDE }
        requires few_cols { reach.n ≤ MOST_SIDE }
        requires reached { IsReached (M.limits engine) reach.m reach.l reach.n }
        ensures field { IfOk result (λ k. k.field ≡ the_field field) }
        ensures reach { IfOk result (λ k. k.reach ≡ reach) }
    {
        let words = words_for_product(field.e(), reach);
        if words > MOST_WORDS {
            return Err(NoMemory);
        }
        let scratch = Scratch::new(alloc, words)?;
        Ok(KaratsubaMul {
            field,
            reach,
            scratch,
            engine,
        })
    }
}

impl<M: AddMul> KaratsubaMul<M> {
    /// Adds `a` times `b` to `c`, all over the engine's field, and counts the products over GF(2): at most as many as Karatsuba's
    /// rule takes for polynomials of the field's degree.
    pub fn addmul_counted<L: Ledger>(
        &mut self,
        c: &mut EWinMut,
        a: &EWin,
        b: &EWin,
        steps: &mut Steps<L>,
    )
        requires for_field { c.old.field ≡ self.old.field }
        requires a_field { (e_shown a.now).field ≡ c.old.field }
        requires b_field { (e_shown b.now).field ≡ c.old.field }
        requires rows { (e_shown a.now).rows ≡ c.old.rows }
        requires inner { (e_shown a.now).cols ≡ (e_shown b.now).rows }
        requires cols { (e_shown b.now).cols ≡ c.old.cols }
        requires reached { IsReached self.old.reach c.old.rows (e_shown a.now).cols c.old.cols }
        ensures sum { c.new ≡ showing c.old (added (content c.old) (product (e_shown a.now) (e_shown b.now))) }
        ensures same { self.new ≡ self.old }
        ensures ticks { steps.new ≤ steps.old + karatsuba self.old.field.degree }
    {
        add_in_scratch(
            &mut self.engine,
            &mut self.scratch,
            self.field,
            c,
            a,
            b,
            steps,
        );
    }
}

impl<M: AddMul> EAddMul for KaratsubaMul<M> {
    ghost limits = { λ k. k.reach };

    ghost IsFor = { λ k F. F ≡ k.field };

    fn reach(&self) -> Shape {
        self.reach
    }

    fn addmul(&mut self, c: &mut EWinMut, a: &EWin, b: &EWin) {
        add_uncounted::<M, Brand>(self, c, a, b, Blank::new(1));
    }
}

/// Adds the product with a count of products that no one reads.
fn add_uncounted<M: AddMul, L: Ledger>(
    engine: &mut KaratsubaMul<M>,
    c: &mut EWinMut,
    a: &EWin,
    b: &EWin,
    blank: Blank,
)
    requires name { blank.name ≡ L.name }
    requires parts { blank.parts ≡ L.parts }
    requires one { blank.parts ≡ 1 }
    requires for_field { c.old.field ≡ engine.old.field }
    requires a_field { (e_shown a.now).field ≡ c.old.field }
    requires b_field { (e_shown b.now).field ≡ c.old.field }
    requires rows { (e_shown a.now).rows ≡ c.old.rows }
    requires inner { (e_shown a.now).cols ≡ (e_shown b.now).rows }
    requires cols { (e_shown b.now).cols ≡ c.old.cols }
    requires reached { IsReached engine.old.reach c.old.rows (e_shown a.now).cols c.old.cols }
    ensures sum { c.new ≡ showing c.old (added (content c.old) (product (e_shown a.now) (e_shown b.now))) }
    ensures same { engine.new ≡ engine.old }
{
    let mut steps = Steps::<L>::new(blank);
    engine.addmul_counted(c, a, b, &mut steps);
}

/// The words that a product over a field of this degree takes: those of the slices of both factors and of the product, and those
/// that the recursion works in.
fn words_for_product(degree: u32, reach: Shape) -> u64
    requires some { 1 ≤ degree }
    requires few { degree ≤ 16 }
    requires few_rows { (2 * degree - 1) * reach.m ≤ MOST_SIDE }
    requires few_inner { degree * reach.l ≤ MOST_SIDE }
    requires few_cols { reach.n ≤ MOST_SIDE }
    ensures { result ≡ words_with_sums degree reach }
{
    let Shape { m, l, n } = reach;
    let slices = words_of(degree * m, l)
        + words_of(degree * l, n)
        + words_of((2 * degree - 1) * m, n);
    let level = words_of(m, l) + words_of(l, n) + 2 * words_of(m, n);
    slices + 2 * (degree as u64 - 1) * level
}

/// The words of a matrix.
fn words_of(rows: u32, cols: u32) -> u64
    requires few_rows { rows ≤ MOST_SIDE }
    requires few_cols { cols ≤ MOST_SIDE }
    ensures words { result ≡ rows * words_per_row cols }
    ensures few { result ≤ 2 ^ 42 }
{
    rows as u64 * words_for(cols) as u64
}
