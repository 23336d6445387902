//! What a reduction needs beside the matrix.

ghost use Rattle.std.specs.Prelude.{◌≡◌, ◌⊎◌, ◌*◌, ◌≤◌, length, take, IfOk};
ghost use Rattle.m4_model.specs.Field.{width};
ghost use Rattle.m4_field.specs.Fields.{the_field};
ghost use Rattle.m4_solve.specs.Context.{Serves};
ghost use Rattle.m4_solve.specs.Reduction.{IsReducedAt, IsRoomFor};

use crate::reduce::reduce_window;
use m4_eple::{Base, Halving};
use m4_field::Field;
use m4_model::NoMemory;
use m4_mzd::MOST_SIDE;
use m4_mzed::Mzed;
use m4_newton::EAddMul;
use std::alloc::Global;

/// Room for a reduction: the exchanges of rows, the pivots, a row, and a square for the pivot columns.
#[derive(Drop)]
pub(crate) struct Room {
    exchanges: Vec<u32>,
    pub(crate) pivots: Vec<u32>,
    row: Mzed,
    corner: Mzed,
}

impl Room {
    /// Room for a matrix over this field of so many rows and columns.
    pub(crate) fn new(alloc: Global, field: Field, rows: u32, cols: u32) -> Result<Room, NoMemory>
        requires few_rows { rows ≤ MOST_SIDE }
        requires few_bits { cols * width (the_field field) ≤ MOST_SIDE }
        ensures { IfOk result (IsRoomFor (the_field field) rows cols) }
    {
        let least = rows.min(cols);
        Ok(Room {
            exchanges: vec![in alloc; 0u32; rows as usize]?,
            pivots: vec![in alloc; 0u32; least as usize]?,
            row: Mzed::zeros(alloc, field, 1, cols)?,
            corner: Mzed::zeros(alloc, field, least, least)?,
        })
    }

    /// Makes of the matrix its reduced row echelon form, and answers its rank, with the pivots in the front of `pivots`.
    pub(crate) fn reduce<M: EAddMul, B: Base>(
        &mut self,
        a: &mut Mzed,
        with: &mut Halving<M, B>,
    ) -> u32
        requires room { IsRoomFor a.old.field a.old.rows a.old.cols self.old }
        requires for_field { M.IsFor with.old.engine a.old.field }
        requires base_for_field { B.IsFor with.old.base a.old.field }
        requires serves { Serves (M.limits with.old.engine) with.old.cutoff a.old.rows a.old.cols }
        ensures room { IsRoomFor a.old.field a.old.rows a.old.cols self.new }
        ensures rank { result ≤ length self.new.pivots.items }
        ensures reduced { IsReducedAt a.new a.old (take result self.new.pivots.items) }
        ensures engine { M.limits with.new.engine ≡ M.limits with.old.engine }
        ensures still_for { M.IsFor with.new.engine a.old.field }
        ensures base_still_for { B.IsFor with.new.base a.old.field }
        ensures cutoff { with.new.cutoff ≡ with.old.cutoff }
    {
        let (mut all, home) = a.all_mut();
        let (mut spare, spare_home) = self.row.all_mut();
        let (mut corner, corner_home) = self.corner.all_mut();
        let rank = reduce_window(
            &mut all,
            &mut self.exchanges,
            &mut self.pivots,
            &mut spare,
            &mut corner,
            with,
        );
        self.corner.put_all(corner, corner_home);
        self.row.put_all(spare, spare_home);
        a.put_all(all, home);
        rank
    }
}
