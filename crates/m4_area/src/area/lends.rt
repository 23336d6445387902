//! A row of an area, lent for writing.

ghost use Rattle.std.specs.Prelude.{◌≡◌, ◌+◌, ◌^◌, ◌<◌, length};
ghost use Rattle.std.specs.Borrow.{sem};
ghost use Rattle.m4_area.specs.Rows.{row_of};
ghost use Rattle.m4_area.specs.Strided.{IsRowAt};
ghost use Rattle.m4_area.specs.AreaLending.{LendsRow};

use super::Area;
use std::slice;

impl Area {
    /// Row `r`, of `width` words, which lies `start` words after `base`, for writing. Every other row stays.
    #[inline]
    pub(crate) fn row_mut(
        &mut self,
        base: *mut u64,
        start: usize,
        r: usize,
        width: usize,
    ) -> &mut [u64]
        requires in_rows { r < length self.old.rows }
        requires place { IsRowAt self.old.block self.old.first self.old.step base start r }
        requires width { length (row_of self.old.rows r) ≡ width }
        requires small { start + width < 2 ^ 60 }
        ensures* writes_back { sem 𝓛 (LendsRow self.entry r result) }
        ensures words { result.now ≡ row_of self.old.rows r }
        ensures long { length result.now ≡ width }
    {
        unsafe { slice::from_raw_parts_mut(base.add(start), width) }
    }
}
