//! Rectangles of a matrix at any column, copied by shifted words.

ghost use Rattle.std.specs.Prelude.{◌≡◌, ◌+◌, ◌-◌, ◌≤◌, IfOk};
ghost use Rattle.m4_model.specs.Shapes.{cut, replace};
ghost use Rattle.m4_mzd.specs.Window.{content, showing};
ghost use Rattle.m4_mzd.specs.Seen.{shown};
ghost use Rattle.m4_mzd.specs.Rectangles.{IsInside};

use m4_model::NoMemory;
use m4_mzd::{Mzd, Rect, Win, WinMut};
use std::alloc::Global;

/// A rectangle of `a`, as a matrix of its own. It may begin at any column.
pub fn sub(alloc: Global, a: &Win, rect: Rect) -> Result<Mzd, NoMemory>
    requires { IsInside rect (shown a.now).rows (shown a.now).cols }
    ensures { IfOk result (λ m. m ≡ cut (shown a.now) rect.r0 rect.c0 rect.r1 rect.c1) }
{
    let _rows = a.rows();
    let cols = rect.c1 - rect.c0;
    let mut m = Mzd::zeros(alloc, rect.r1 - rect.r0, cols)?;
    let (mut whole, home) = m.all_mut();
    copy_columns(&mut whole, 0, a, rect.r0, rect.c0, cols);
    m.put_all(whole, home);
    Ok(m)
}

/// Copies `count` columns of `src`, from column `first` on, over those of `dst` from column `c` on. Its row `r0` goes to the
/// first row, and so on.
pub(crate) fn copy_columns(dst: &mut WinMut, c: u32, src: &Win, r0: u32, first: u32, count: u32)
    requires in_cols { c + count ≤ dst.old.cols }
    requires in_src_rows { r0 + dst.old.rows ≤ (shown src.now).rows }
    requires in_src_cols { first + count ≤ (shown src.now).cols }
    ensures { dst.new ≡ showing dst.old (replace (content dst.old) 0 c (cut (shown src.now) r0 first (r0 + dst.old.rows) (first + count))) }
{
    let _rows = src.rows();
    for r in 0..dst.rows() {
        dst.copy_part(r, c, src, r0 + r, first, count);
    }
}
