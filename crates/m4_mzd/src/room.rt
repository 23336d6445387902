//! Room for windows: words of which windows are cut, and to which they are given back.

ghost use Rattle.std.specs.Prelude.{◌≡◌, ◌+◌, ◌*◌, ◌≤◌};
ghost use Rattle.m4_model.specs.Text.{words_per_row};
ghost use Rattle.m4_mzd.specs.Span.{IsFolded, window_words, without_first};

use crate::MOST_SIDE;
use crate::win_mut::WinMut;
use m4_area::Words;
use m4_bits::words_for;
use std::marker::Model;

/// Room for windows: words that lie side by side. Windows are cut from its beginning, and are given back in the opposite
/// order, so that none is lost. It isn't told what a window holds that was cut from it.
pub struct Room {
    pub(crate) words: Words,
}

impl Model for Room {
    ghost use Rattle.m4_mzd.specs.Span.{Span, span_of, IsOneRow};

    ghost Value = { Span };

    ghost view = { λ r. span_of r.words };

    ghost invariant = { λ r. IsOneRow r.words };
}

impl Room {
    /// How many words are left.
    #[inline]
    pub fn left(&self) -> u64
        ensures { result ≡ self.now.left }
    {
        self.words.width() as u64
    }

    /// Cuts a window of so many rows and columns from the beginning. It holds anything.
    #[inline]
    pub fn carve(&mut self, rows: u32, cols: u32) -> WinMut
        requires few_rows { rows ≤ MOST_SIDE }
        requires few_cols { cols ≤ MOST_SIDE }
        requires enough { rows * words_per_row cols ≤ self.old.left }
        ensures rows { result.rows ≡ rows }
        ensures cols { result.cols ≡ cols }
        ensures folded { IsFolded result self.old }
        ensures first { result.skip ≡ self.old.skip }
        ensures left { self.new ≡ without_first (rows * words_per_row cols) self.old }
    {
        let width = words_for(cols) as usize;
        let (part, rest) = self.words.take().split_words(rows as usize * width);
        self.words.put(rest);
        let words = part.fold(rows as usize, width);
        let _rows = words.rows();
        WinMut { words, cols }
    }

    /// Takes back the window that was cut off last. Its words are the first ones again.
    #[inline]
    pub fn give_back(&mut self, window: WinMut)
        requires folded { IsFolded window self.old }
        requires last { self.old.skip ≡ window.skip + window_words window }
        ensures place { self.new.place ≡ self.old.place }
        ensures first { self.new.skip ≡ window.skip }
        ensures left { self.new.left ≡ window_words window + self.old.left }
    {
        let stride = self.words.stride();
        let WinMut { words, cols: _ } = window;
        let rest = self.words.take();
        self.words.put(words.unfold(stride).join_words(rest));
    }
}
