//! The elimination of one word of the columns over GF(2), as a base.

ghost use Rattle.std.specs.Prelude.{◌≡◌, ◌⊎◌, ℕ, ◌<◌, ◌≤◌, length, take, slice_index};
ghost use Rattle.m4_model.specs.Field.{gf2};
ghost use Rattle.m4_model.specs.Shapes.{swaps};
ghost use Rattle.m4_mzd.specs.Window.{content as bit_content, showing as bit_showing};
ghost use Rattle.m4_mzed.specs.EWindow.{content, showing};
ghost use Rattle.m4_perm.specs.Perm.{AreSwaps};
ghost use Rattle.m4_ple.specs.Held.{HoldsPle};

use crate::base::Base;
use m4_model::NoMemory;
use m4_mzd::WinMut;
use m4_mzed::EWinMut;
use m4_ple::{ple_plain, ple_words};
use std::alloc::Global;

/// The most columns of a window that has one word a row.
const WORD: u32 = 64;

/// The elimination of windows over GF(2) of at most 64 columns: the one word of each row is gathered into words of its own,
/// where they lie side by side, is eliminated there, and is written back. Windows that are wider, or have more rows than
/// there are words, are eliminated in their own place.
#[derive(Drop)]
pub struct ByWords {
    words: Vec<u64>,
}

impl ByWords {
    /// The base for windows of up to so many rows. It refuses nothing, but memory may be wanting: it takes a word for each
    /// row.
    pub fn new(alloc: Global, rows: u32) -> Result<ByWords, NoMemory> {
        Ok(ByWords {
            words: vec![in alloc; 0u64; rows as usize]?,
        })
    }
}

impl Base for ByWords {
    ghost use Rattle.std.specs.Prelude.{◌≡◌};
    ghost use Rattle.m4_model.specs.Field.{gf2};

    ghost IsFor = { λ _ F. F ≡ gf2 };

    fn strip(&self) -> u32 {
        WORD
    }

    fn ple(&mut self, a: &mut EWinMut, p: &mut [u32], q: &mut [u32]) -> u32 {
        let _cols = a.cols();
        ple_in_words(a, &mut self.words, p, q)
    }
}

/// Factors the window as P L E in its own place, by the words where they are enough, and answers its rank r.
fn ple_in_words(a: &mut EWinMut, words: &mut [u64], p: &mut [u32], q: &mut [u32]) -> u32
    requires over_gf2 { a.old.field ≡ gf2 }
    requires exchanges { length p.old ≡ a.old.rows }
    requires pivots { (length q.old ≡ a.old.rows) ⊎ (a.old.cols ≤ length q.old) }
    ensures kept { a.new ≡ showing a.old (content a.new) }
    ensures exchanges { AreSwaps a.old.rows p.new }
    ensures all { length p.new ≡ length p.old }
    ensures stay { (i : ℕ) → result ≤ i → i < a.old.rows → slice_index p.new i ≡ i }
    ensures room { length q.new ≡ length q.old }
    ensures rank { result ≤ length q.new }
    ensures factors { HoldsPle (content a.old) (swaps a.old.rows p.new) (take result q.new) (content a.new) }
{
    let rows = a.rows() as usize;
    let cols = a.cols();
    if cols == 0 || WORD < cols || words.len() < rows {
        return ple_plain(a, p, q);
    }
    let (gathered, _) = words.split_at_mut(rows);
    let mut bits = a.take().into_bits();
    let rank = ple_gathered(&mut bits, gathered, p, q);
    a.put_back(EWinMut::of_bits(bits));
    rank
}

/// Factors a window of one word a row as P L E, in the words and back in its own place, and answers its rank r.
fn ple_gathered(a: &mut WinMut, words: &mut [u64], p: &mut [u32], q: &mut [u32]) -> u32
    requires some { 0 < a.old.cols }
    requires one_word { a.old.cols ≤ 64 }
    requires gathered { length words.old ≡ a.old.rows }
    requires exchanges { length p.old ≡ a.old.rows }
    requires pivots { (length q.old ≡ a.old.rows) ⊎ (a.old.cols ≤ length q.old) }
    ensures kept { a.new ≡ bit_showing a.old (bit_content a.new) }
    ensures exchanges { AreSwaps a.old.rows p.new }
    ensures all { length p.new ≡ length p.old }
    ensures stay { (i : ℕ) → result ≤ i → i < a.old.rows → slice_index p.new i ≡ i }
    ensures room { length q.new ≡ length q.old }
    ensures rank { result ≤ length q.new }
    ensures factors { HoldsPle (bit_content a.old) (swaps a.old.rows p.new) (take result q.new) (bit_content a.new) }
{
    let cols = a.cols();
    let _rows = a.rows();
    a.see().read_words(0, 0, words);
    let rank = ple_words(words, cols, p, q);
    a.set_words(0, words);
    rank
}
