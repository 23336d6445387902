//! A row of a rectangle, lent for writing.

ghost use Rattle.std.specs.Prelude.{◌≡◌, ◌<◌, length};
ghost use Rattle.std.specs.Borrow.{sem};
ghost use Rattle.m4_area.specs.Rows.{row_of};
ghost use Rattle.m4_area.specs.Lending.{LendsRow};

use super::Words;

impl Words {
    /// The words of row `r`, for writing. Every other row stays.
    #[inline]
    pub fn row_mut(&mut self, r: usize) -> &mut [u64]
        requires { r < self.old.rows }
        ensures* writes_back { sem 𝓛 (LendsRow self.entry r result) }
        ensures words { result.now ≡ row_of self.old.words r }
        ensures long { length result.now ≡ self.old.width }
    {
        self.area
            .row_mut(self.base, self.skip + r * self.stride, r, self.width)
    }
}
