//! A column of words: the word of one number of several rows.

ghost use Rattle.std.specs.Prelude.{◌≡◌, ℕ, ◌+◌, ◌*◌, ◌<◌, ◌≤◌, length, slice_index};
ghost use Rattle.std.specs.Int.{bit_at};
ghost use Rattle.m4_model.specs.Matrix.{at};
ghost use Rattle.m4_model.specs.Text.{words_per_row};
ghost use Rattle.m4_mzd.specs.Window.{content, showing};
ghost use Rattle.m4_mzd.specs.Seen.{shown};
ghost use Rattle.m4_mzd.specs.Parts.{with_words};

use crate::win::Win;
use crate::win_mut::WinMut;

/// Makes the words from a place on 0.
#[inline]
fn clear_from(words: &mut [u64], place: usize)
    ensures zeros { (i : ℕ) → place ≤ i → slice_index words.new i ≡ 0 }
    ensures kept { (i : ℕ) → i < place → slice_index words.new i ≡ slice_index words.old i }
{
    for i in place..words.len() {
        words[i] = 0;
    }
}

impl<'a> Win<'a> {
    /// Reads word `w` of the rows from row `r` on, one to each place of `words`: bit `j` is the entry in column `64 w + j`,
    /// and 0 past the last column and past the last row.
    #[inline]
    pub fn read_words(&self, r: u32, w: u32, words: &mut [u64])
        requires in_rows { r ≤ (shown self.now).rows }
        requires in_words { w < words_per_row (shown self.now).cols }
        ensures { (i j : ℕ) → i < length words.new → j < 64 → bit_at (slice_index words.new i) j ≡ at (shown self.now) (r + i) (w * 64 + j) }
    {
        let count = words.len().min((self.rows() - r) as usize);
        for i in 0..count {
            words[i] = self.word(r + i as u32, w);
        }
        clear_from(words, count);
    }
}

impl WinMut {
    /// Writes word `w` of each row, for row `i` the one at place `i`: the entry in column `64 w + j` becomes bit `j`, as far
    /// as there are columns. All else stays.
    #[inline]
    pub fn set_words(&mut self, w: u32, words: &[u64])
        requires in_words { w < words_per_row self.old.cols }
        requires enough { self.old.rows ≤ length words.now }
        ensures { self.new ≡ showing self.old (with_words w words.now (content self.old)) }
    {
        for r in 0..self.rows() {
            self.set_word(r, w, words[r as usize]);
        }
    }
}
