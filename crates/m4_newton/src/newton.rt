//! The engine that multiplies over any field by an engine over GF(2).

ghost use Rattle.std.specs.Prelude.{◌≡◌, ◌+◌, ◌*◌, ◌≤◌, IfOk};
ghost use Rattle.m4_model.specs.Field.{width};
ghost use Rattle.m4_model.specs.Matrix.{added, product};
ghost use Rattle.m4_field.specs.Fields.{the_field};
ghost use Rattle.m4_mzed.specs.EWindow.{content, showing};
ghost use Rattle.m4_mzed.specs.ESeen.{e_shown};

use crate::add_mul::EAddMul;
use crate::strips::add_by_strips;
use m4_bits::words_for;
use m4_field::Field;
use m4_model::NoMemory;
use m4_mzd::{AddMul, MOST_SIDE, Shape, Steps};
use m4_mzed::{EWin, EWinMut, Mzed};
use std::alloc::Global;
use std::marker::{Brand, Model};
use std::sync::ledger::{Blank, Ledger};

/// The bits of a word.
const WORD: u32 = 64;

/// The most words of columns of the first factor that a strip takes: over 4,096 columns the cost of a call of the engine for bits
/// is well spread.
const STRIP_WORDS: u32 = 64;

/// The most columns, in bits, of the first factor that `Newton` asks its engine for bits to take at once.
pub const MOST_STRIP: u32 = STRIP_WORDS * WORD;

/// The most words of columns of a strip, times the words of a row of the second factor: the multiples, 64 rows for each word of
/// columns, then have at most two megabytes, about what a cache of the second level holds. A product within both bounds is made
/// at once, and others strip by strip.
const ROOM_WORDS: u32 = 4096;

/// The engine that multiplies over a field by an engine over GF(2).
///
/// A product over GF(2^e) is a product over GF(2): of the bits of the first factor's elements with the multiples of the rows
/// of the second by the powers of x. The multiples of so many rows are made at once as two megabytes hold, all of them for a
/// small product, and else strip by strip; the engine then adds the product with them. With the tables of Albrecht, Bard and
/// Hart, ACM Transactions on Mathematical Software 37, 2010, these are the tables of Newton and John of Albrecht, The
/// M4RIE library for dense linear algebra over small fields with even characteristic, ISSAC 2012, which have all multiples of
/// a row, and more: they have all sums of multiples of several rows.
#[derive(Drop)]
pub struct Newton<M: AddMul> {
    room: Mzed,
    engine: M,
}

impl<M: AddMul> Model for Newton<M> {
    ghost use Rattle.m4_newton.specs.Strips.{Strips, AreStrips, strips_of};

    ghost Value = { Strips };

    ghost view = { λ n. strips_of n.room (M.limits n.engine) };

    ghost invariant = { λ n. AreStrips (strips_of n.room (M.limits n.engine)) × M.ready n.engine };
}

impl<M: AddMul + Drop> Newton<M> {
    /// The engine for products over this field of up to `cols` columns, over an engine for bits that can be called.
    pub fn new(alloc: Global, field: Field, cols: u32, engine: M) -> Result<Newton<M>, NoMemory>
        requires ready { M.ready engine }
        requires few_bits { cols * width (the_field field) ≤ MOST_SIDE }
        requires wide { cols * width (the_field field) ≤ (M.limits engine).n }
        requires deep { 64 ≤ (M.limits engine).l }
        ensures field { IfOk result (λ n. n.field ≡ the_field field) }
        ensures cols { IfOk result (λ n. n.cols ≡ cols) }
        ensures bits { IfOk result (λ n. n.bits ≡ M.limits engine) }
    {
        let words = words_for(cols * field.width());
        let most = strip_words(words, engine.reach().l);
        let room = Mzed::zeros(alloc, field, most * WORD, cols)?;
        Ok(Newton { room, engine })
    }
}

impl<M: AddMul> Newton<M> {
    /// Adds `a` times `b` to `c`, all over the engine's field, and counts a step for each row of `b`, whose multiples are made
    /// once.
    pub fn addmul_counted<L: Ledger>(
        &mut self,
        c: &mut EWinMut,
        a: &EWin,
        b: &EWin,
        steps: &mut Steps<L>,
    )
        requires for_field { c.old.field ≡ self.old.field }
        requires a_field { (e_shown a.now).field ≡ c.old.field }
        requires b_field { (e_shown b.now).field ≡ c.old.field }
        requires rows { (e_shown a.now).rows ≡ c.old.rows }
        requires inner { (e_shown a.now).cols ≡ (e_shown b.now).rows }
        requires cols { (e_shown b.now).cols ≡ c.old.cols }
        requires few_rows { c.old.rows ≤ self.old.bits.m }
        requires few_cols { c.old.cols ≤ self.old.cols }
        ensures sum { c.new ≡ showing c.old (added (content c.old) (product (e_shown a.now) (e_shown b.now))) }
        ensures same { self.new ≡ self.old }
        ensures ticks { steps.new ≡ steps.old + (e_shown b.now).rows }
    {
        add_by_strips(&mut self.engine, &mut self.room, c, a, b, steps);
    }
}

impl<M: AddMul> EAddMul for Newton<M> {
    ghost use Rattle.m4_mzd.specs.declared.TheConstants.{MOST_SIDE};

    ghost limits = { λ n. record { m = n.bits.m; l = MOST_SIDE; n = n.cols } };

    ghost IsFor = { λ n F. F ≡ n.field };

    fn reach(&self) -> Shape {
        Shape {
            m: self.engine.reach().m,
            l: MOST_SIDE,
            n: self.room.cols(),
        }
    }

    fn addmul(&mut self, c: &mut EWinMut, a: &EWin, b: &EWin) {
        add_uncounted::<M, Brand>(self, c, a, b, Blank::new(1));
    }
}

/// How many words of columns of the first factor a strip takes, where a row of the second has so many words, and the engine
/// for bits takes products with so many columns of the first factor.
fn strip_words(words: u32, columns: u32) -> u32
    requires { 64 ≤ columns }
    ensures some { 1 ≤ result }
    ensures few { result ≤ 64 }
    ensures taken { result * 64 ≤ columns }
{
    let fitting = ROOM_WORDS / words.max(1);
    fitting.min(STRIP_WORDS).min(columns / WORD).max(1)
}

/// Adds the product with a count of steps that no one reads.
fn add_uncounted<M: AddMul, L: Ledger>(
    newton: &mut Newton<M>,
    c: &mut EWinMut,
    a: &EWin,
    b: &EWin,
    blank: Blank,
)
    requires name { blank.name ≡ L.name }
    requires parts { blank.parts ≡ L.parts }
    requires one { blank.parts ≡ 1 }
    requires for_field { c.old.field ≡ newton.old.field }
    requires a_field { (e_shown a.now).field ≡ c.old.field }
    requires b_field { (e_shown b.now).field ≡ c.old.field }
    requires rows { (e_shown a.now).rows ≡ c.old.rows }
    requires inner { (e_shown a.now).cols ≡ (e_shown b.now).rows }
    requires cols { (e_shown b.now).cols ≡ c.old.cols }
    requires few_rows { c.old.rows ≤ newton.old.bits.m }
    requires few_cols { c.old.cols ≤ newton.old.cols }
    ensures sum { c.new ≡ showing c.old (added (content c.old) (product (e_shown a.now) (e_shown b.now))) }
    ensures same { newton.new ≡ newton.old }
{
    let mut steps = Steps::<L>::new(blank);
    newton.addmul_counted(c, a, b, &mut steps);
}
