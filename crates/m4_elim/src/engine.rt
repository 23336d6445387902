//! The engines that multiply over GF(2), made in one place for products and eliminations alike.

ghost use Rattle.std.specs.Prelude.{◌≡◌, ◌≤◌, IfOk};
ghost use Rattle.m4_mzd.specs.Reach.{IsReached};
ghost use Rattle.m4_elim.specs.Engine.{IsEngine, can_multiply, engine_limits};

use crate::chosen::Chosen;
use m4_model::{Algo, NoMemory};
use m4_mul::{Plain, Table};
use m4_mzd::{AddMul, MOST_SIDE, Shape, Win, WinMut};
use m4_strassen::Strassen;
use std::alloc::Global;

/// One of the engines.
#[derive(Drop)]
pub enum Engine {
    Plain(Plain),
    Table(Table),
    Strassen(Strassen<Table>),
}

impl Engine {
    /// The engine that is chosen, for products up to a shape.
    pub(crate) fn new(alloc: Global, chosen: Chosen, shape: Shape) -> Result<Engine, NoMemory>
        requires few_rows { shape.m ≤ MOST_SIDE }
        requires few_inner { shape.l ≤ MOST_SIDE }
        requires few_cols { shape.n ≤ MOST_SIDE }
        ensures engine { IfOk result (IsEngine chosen.algo chosen.k chosen.tables chosen.cutoff shape) }
        ensures ready { IfOk result can_multiply }
        ensures reached { IfOk result (λ engine. IsReached (engine_limits engine) shape.m shape.l shape.n) }
    {
        match chosen.algo {
            Algo::Plain => Ok(Engine::Plain(Plain)),
            Algo::Table => Ok(Engine::Table(tables(alloc, chosen, shape.n)?)),
            Algo::Strassen => {
                let table = tables(alloc, chosen, shape.n)?;
                let halves = Strassen::new(alloc, shape, chosen.cutoff, table)?;
                Ok(Engine::Strassen(halves))
            }
        }
    }
}

/// The tables that are chosen, for products of so many columns.
fn tables(alloc: Global, chosen: Chosen, cols: u32) -> Result<Table, NoMemory>
    requires { cols ≤ MOST_SIDE }
    ensures { IfOk result (λ table. table ≡ record { cols = cols; k = chosen.k; tables = chosen.tables }) }
{
    Table::new(alloc, cols, chosen.k, chosen.tables)
}

impl AddMul for Engine {
    ghost use Rattle.m4_elim.specs.Engine.{can_multiply, engine_limits};

    ghost limits = { engine_limits };

    ghost ready = { can_multiply };

    fn reach(&self) -> Shape {
        match self {
            Engine::Plain(plain) => plain.reach(),
            Engine::Table(table) => table.reach(),
            Engine::Strassen(halves) => halves.reach(),
        }
    }

    fn addmul(&mut self, c: &mut WinMut, a: &Win, b: &Win) {
        match self {
            Engine::Plain(plain) => plain.addmul(c, a, b),
            Engine::Table(table) => table.addmul(c, a, b),
            Engine::Strassen(halves) => halves.addmul(c, a, b),
        }
    }
}
