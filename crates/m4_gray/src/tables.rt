//! The tables, and how their entries are added to a row.

ghost use Rattle.std.specs.Prelude.{◌≡◌, ◌+◌, ◌*◌, ◌^◌, ◌<◌, ◌≤◌, IfOk, length, map, slice_index};
ghost use Rattle.std.specs.List.{All, range_with_len};
ghost use Rattle.m4_model.specs.Field.{gf2};
ghost use Rattle.m4_model.specs.Matrix.{row, with_row, zero_matrix};
ghost use Rattle.m4_mzd.specs.Window.{content, showing};
ghost use Rattle.m4_mzd.specs.Seen.{shown};
ghost use Rattle.m4_mzd.specs.Rows.{sum_of};
ghost use Rattle.m4_gray.specs.Slots.{IsSlots, filled, picked, subset_sums};

use crate::fill::fill_with_sums;
use crate::{MOST_K, MOST_TABLES};
use m4_model::NoMemory;
use m4_mzd::{MOST_SIDE, Mzd, Rect, Steps, Win, WinMut};
use std::alloc::Global;
use std::marker::Model;
use std::sync::ledger::Ledger;

/// Up to `MOST_TABLES` tables of `2^k` entries each, for `k` from 1 to `MOST_K`. An entry is a row of at most `MOST_SIDE`
/// columns.
///
/// All entries lie in one block of memory, slot after slot. `fill` makes the entries of a slot the sums of a few rows, and
/// `combine` adds an entry of each slot to a row.
#[derive(Drop)]
pub struct Tables {
    k: u32,
    count: u32,
    entries: Mzd,
}

impl Model for Tables {
    ghost use Rattle.m4_gray.specs.Slots.{Slots, IsSlots};

    ghost Value = { Slots };

    ghost view = { λ t. record { k = t.k; count = t.count; entries = t.entries } };

    ghost invariant = { λ t. IsSlots (record { k = t.k; count = t.count; entries = t.entries }) };
}

impl Tables {
    /// For rows of up to `cols` columns so many tables of `2^k` entries. Every entry is a row of zeros.
    pub fn new(alloc: Global, cols: u32, k: u32, tables: u32) -> Result<Tables, NoMemory>
        requires few_cols { cols ≤ MOST_SIDE }
        requires some_k { 1 ≤ k }
        requires small_k { k ≤ MOST_K }
        requires some_tables { 1 ≤ tables }
        requires few_tables { tables ≤ MOST_TABLES }
        ensures { IfOk result (λ t. t ≡ record { k = k; count = tables; entries = zero_matrix gf2 (tables * 2 ^ k) cols }) }
    {
        let entries = Mzd::zeros(alloc, tables << k, cols)?;
        Ok(Tables {
            k,
            count: tables,
            entries,
        })
    }

    /// The binary logarithm of how many entries a table has.
    #[inline]
    pub fn k(&self) -> u32
        ensures k { result ≡ self.now.k }
        ensures shape { IsSlots self.now }
    {
        self.k
    }

    /// How many tables there are.
    #[inline]
    pub fn count(&self) -> u32
        ensures count { result ≡ self.now.count }
        ensures shape { IsSlots self.now }
    {
        self.count
    }

    /// How many columns an entry has.
    #[inline]
    pub fn cols(&self) -> u32
        ensures cols { result ≡ self.now.entries.cols }
        ensures shape { IsSlots self.now }
    {
        self.entries.cols()
    }

    /// Makes entry `x` of a slot the sum of the rows `first + i` of `b` over the set bits `i` of `x`, for each `x` below
    /// `2^bits`. All else stays, the columns past those of `b` too.
    ///
    /// Each entry but the empty sum is one addition of a row to another entry. Takes `2^bits - 1` steps.
    pub fn fill<L: Ledger>(
        &mut self,
        slot: u32,
        b: &Win,
        first: u32,
        bits: u32,
        steps: &mut Steps<L>,
    )
        requires slot { slot < self.old.count }
        requires few { bits ≤ self.old.k }
        requires in_cols { (shown b.now).cols ≤ self.old.entries.cols }
        requires in_rows { first + bits ≤ (shown b.now).rows }
        ensures sums { self.new ≡ filled self.old slot (subset_sums (shown b.now) first bits) }
        ensures ticks { steps.new + 1 ≡ steps.old + 2 ^ bits }
    {
        let begin = slot << self.k;
        let rect = Rect {
            r0: begin,
            c0: 0,
            r1: begin + (1 << bits),
            c1: b.cols(),
        };
        let (mut part, around) = self.entries.win_mut(rect);
        fill_with_sums(&mut part, b, first, bits, steps);
        self.entries.put_win(part, around);
        let _rows = self.entries.rows();
    }

    /// Adds an entry of each of the first `T` slots to row `r` of `dst`, as far as this has columns: of slot `t` the one
    /// with the number `index[t]`. All else stays. It is one pass over the words of the row. Takes `T` steps.
    #[inline]
    pub fn combine<const T: usize, L: Ledger>(
        &self,
        dst: &mut WinMut,
        r: u32,
        index: &[u32; T],
        steps: &mut Steps<L>,
    )
        requires some { 1 ≤ T }
        requires few { T ≤ self.now.count }
        requires in_slots { All (λ x. x < 2 ^ self.now.k) index.now }
        requires in_rows { r < dst.old.rows }
        requires in_cols { dst.old.cols ≤ self.now.entries.cols }
        ensures row { dst.new ≡ showing dst.old (with_row (content dst.old) r (sum_of (row (content dst.old) r) (picked self.now dst.old.cols index.now))) }
        ensures ticks { steps.new ≡ steps.old + T }
    {
        let numbers = numbered(self.k, index);
        dst.add_rows(r, &self.entries.all().narrow(dst.cols()), &numbers, steps);
    }
}

/// The numbers of these entries among all, where each slot has `2^k`. For the largest `k` the shifts are the same for all rows
/// that entries are added to, and are settled before the program runs.
#[inline(always)]
fn numbered<const T: usize>(k: u32, index: &[u32; T]) -> [u32; T]
    requires small_k { k ≤ MOST_K }
    requires few { T ≤ MOST_TABLES }
    requires in_slots { All (λ x. x < 2 ^ k) index.now }
    ensures { result ≡ map (λ slot. slot * 2 ^ k + slice_index index.now slot) (range_with_len 0 (length index.now)) }
{
    if k == MOST_K {
        numbered_by::<T>(MOST_K, index)
    } else {
        numbered_by::<T>(k, index)
    }
}

/// The same, slot by slot.
#[inline(always)]
fn numbered_by<const T: usize>(k: u32, index: &[u32; T]) -> [u32; T]
    requires small_k { k ≤ MOST_K }
    requires few { T ≤ MOST_TABLES }
    requires in_slots { All (λ x. x < 2 ^ k) index.now }
    ensures { result ≡ map (λ slot. slot * 2 ^ k + slice_index index.now slot) (range_with_len 0 (length index.now)) }
{
    let mut numbers = *index;
    for slot in 0..T {
        numbers[slot] += (slot as u32) << k;
    }
    numbers
}
