//! The room that a product block by block is worked in.

ghost use Rattle.std.specs.Prelude.{◌≡◌, ◌*◌, ◌%◌, ◌≤◌, IfOk};

use m4_bits::words_for;
use m4_gray::{MOST_K, MOST_TABLES, Tables};
use m4_model::NoMemory;
use m4_mzd::{MOST_SIDE, Mzd};
use std::alloc::Global;
use std::marker::Model;

/// The bits of a word.
const WORD: u32 = 64;

/// The most rows of a block, the most words of its columns, and the words of a panel, that the engine takes. Such a block
/// has two megabytes, the panel half of one, and so have the eight tables of `2^8` entries, which then stay in a second-level
/// cache of one megabyte.
const BLOCK_ROWS: u32 = 8192;

const BLOCK_WORDS: u32 = 32;

const PANEL_WORDS: u32 = 8;

/// How large the parts are that a product is made of: a block of the window has so many rows and words of columns, and a
/// panel of the first factor so many words of columns.
#[derive(Clone, Copy)]
pub(crate) struct Blocks {
    pub(crate) rows: u32,
    pub(crate) words: u32,
    pub(crate) panel: u32,
}

impl Blocks {
    ghost use Rattle.m4_mul.specs.Room.{AreBlocks};

    /// The largest that the engine takes, but no wider than a product of so many columns, and no higher than it where it is
    /// square.
    pub(crate) fn for_cols(cols: u32) -> Blocks
        requires some { 1 ≤ cols }
        requires few { cols ≤ MOST_SIDE }
        ensures { AreBlocks result }
    {
        Blocks {
            rows: cols.min(BLOCK_ROWS),
            words: words_for(cols).min(BLOCK_WORDS),
            panel: PANEL_WORDS,
        }
    }
}

/// Room for a block of the window and a panel of the first factor, and tables as wide as the block.
#[derive(Drop)]
pub(crate) struct Packed {
    pub(crate) tables: Tables,
    pub(crate) block: Mzd,
    pub(crate) panel: Mzd,
}

impl Model for Packed {
    ghost use Rattle.m4_mul.specs.Room.{Room, HasRoom};

    ghost Value = { Room };

    ghost view = { λ p. record { rows = p.block.rows; cols = p.block.cols; panel = p.panel.cols } };

    ghost invariant = { λ p. HasRoom p.tables p.block p.panel };
}

impl Packed {
    ghost use Rattle.m4_mul.specs.Room.{AreBlocks};

    /// Room for such blocks and panels, with so many tables of `2^k` entries.
    pub(crate) fn new(
        alloc: Global,
        blocks: Blocks,
        k: u32,
        tables: u32,
    ) -> Result<Packed, NoMemory>
        requires blocks { AreBlocks blocks }
        requires some_k { 1 ≤ k }
        requires small_k { k ≤ MOST_K }
        requires some_tables { 1 ≤ tables }
        requires few_tables { tables ≤ MOST_TABLES }
        ensures { IfOk result (λ p. p ≡ record { rows = blocks.rows; cols = blocks.words * 64; panel = blocks.panel * 64 }) }
    {
        let cols = blocks.words * WORD;
        let tables = Tables::new(alloc, cols, k, tables)?;
        let block = Mzd::zeros(alloc, blocks.rows, cols)?;
        let panel = Mzd::zeros(alloc, blocks.rows, blocks.panel * WORD)?;
        Ok(Packed {
            tables,
            block,
            panel,
        })
    }

    /// How many rows a block has.
    pub(crate) fn rows(&self) -> u32
        ensures rows { result ≡ self.now.rows }
        ensures some { 1 ≤ self.now.rows }
        ensures few { self.now.rows ≤ MOST_SIDE }
    {
        self.block.rows()
    }

    /// How many columns a block has, a multiple of 64.
    pub(crate) fn cols(&self) -> u32
        ensures cols { result ≡ self.now.cols }
        ensures some { 1 ≤ self.now.cols }
        ensures whole { self.now.cols % 64 ≡ 0 }
        ensures few { self.now.cols ≤ MOST_SIDE }
    {
        self.block.cols()
    }
}
