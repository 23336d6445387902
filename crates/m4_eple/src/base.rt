//! What factors the windows that are not halved.

ghost use Rattle.std.specs.Prelude.{◌≡◌, ◌⊎◌, ℕ, ◌%◌, ◌≤◌, ◌<◌, length, take, slice_index};
ghost use Rattle.m4_model.specs.Shapes.{swaps};
ghost use Rattle.m4_mzed.specs.EWindow.{content, showing};
ghost use Rattle.m4_perm.specs.Perm.{AreSwaps};
ghost use Rattle.m4_ple.specs.Held.{HoldsPle};

use m4_mzd::MOST_SIDE;
use m4_mzed::EWinMut;

/// What factors a window as P L E in its own place, where it is not halved.
pub trait Base {
    ghost use Rattle.m4_model.specs.Field.{Field};

    // Whether it factors windows over this field.
    ghost IsFor: { Self → Field → Type 0 };

    /// How many columns it takes at once, a multiple of 64, where a window is cut into strips: as many as a matrix may have
    /// where there is no better number.
    fn strip(&self) -> u32
        ensures some { 64 ≤ result }
        ensures whole_words { result % 64 ≡ 0 }
    {
        MOST_SIDE
    }

    /// Factors the window as P L E in its own place, and answers its rank r.
    ///
    /// `p` has as many entries as the window has rows, and tells P by exchanges: row i and row `p[i]` are exchanged for i = 0,
    /// 1, 2 and so on; from r on each stays. `q` has room for as many numbers as the lesser of rows and columns; its first r
    /// are the pivot columns. It takes no memory and refuses nothing.
    fn ple(&mut self, a: &mut EWinMut, p: &mut [u32], q: &mut [u32]) -> u32
        requires for_field { IsFor self.old a.old.field }
        requires exchanges { length p.old ≡ a.old.rows }
        requires pivots { (length q.old ≡ a.old.rows) ⊎ (a.old.cols ≤ length q.old) }
        ensures kept { a.new ≡ showing a.old (content a.new) }
        ensures exchanges { AreSwaps a.old.rows p.new }
        ensures all { length p.new ≡ length p.old }
        ensures stay { (i : ℕ) → result ≤ i → i < a.old.rows → slice_index p.new i ≡ i }
        ensures room { length q.new ≡ length q.old }
        ensures rank { result ≤ length q.new }
        ensures few_rows { result ≤ a.old.rows }
        ensures few_cols { result ≤ a.old.cols }
        ensures in_cols { (i : ℕ) → i < result → slice_index q.new i < a.old.cols }
        ensures factors { HoldsPle (content a.old) (swaps a.old.rows p.new) (take result q.new) (content a.new) }
        ensures still_for { (F : Field) → IsFor self.old F → IsFor self.new F };
}
