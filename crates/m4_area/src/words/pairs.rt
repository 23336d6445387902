//! Two rows of one rectangle: it is cut between them, so that both can be reached at once, and joined again.

ghost use Rattle.std.specs.Prelude.{◌≡◌, ◌<◌, ◌≤◌};
ghost use Rattle.m4_area.specs.Rows.{swapped};

use super::Words;

impl Words {
    /// Swaps the words of rows `r` and `s`. Every other row stays.
    pub fn swap_rows(&mut self, r: usize, s: usize)
        requires first { r < self.old.rows }
        requires second { s < self.old.rows }
        ensures { self.new ≡ record self.old { words = swapped self.old.words r s } }
    {
        if r < s {
            swap_apart(self, r, s);
        } else {
            swap_apart(self, s, r);
        }
    }
}

// Swaps row `high` and row `low`, which is not above it.
fn swap_apart(m: &mut Words, high: usize, low: usize)
    requires ordered { high ≤ low }
    requires within { low < m.old.rows }
    ensures { m.new ≡ record m.old { words = swapped m.old.words high low } }
{
    let _rows = m.rows();
    if high < low {
        let (mut above, mut below) = m.take().split_rows(low);
        above.row_mut(high).swap_with_slice(below.row_mut(0));
        m.put(above.join_rows(below));
    }
}
