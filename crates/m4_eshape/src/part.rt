//! Parts of matrices.

ghost use Rattle.std.specs.Prelude.{◌≡◌, IfOk};
ghost use Rattle.m4_model.specs.Shapes.{cut};
ghost use Rattle.m4_mzed.specs.ESeen.{e_shown};
ghost use Rattle.m4_mzd.specs.Rectangles.{IsInside};

use m4_model::NoMemory;
use m4_mzd::Rect;
use m4_mzed::{EWin, Mzed};
use m4_shape::sub;
use std::alloc::Global;

/// A rectangle of `a`, as a matrix of its own. It may begin at any column.
pub fn esub(alloc: Global, a: &EWin, rect: Rect) -> Result<Mzed, NoMemory>
    requires { IsInside rect (e_shown a.now).rows (e_shown a.now).cols }
    ensures { IfOk result (λ m. m ≡ cut (e_shown a.now) rect.r0 rect.c0 rect.r1 rect.c1) }
{
    let _shape = a.rows();
    let source = a.packed();
    let _rows = source.rows();
    let field = a.field();
    let width = field.width();
    let part = Rect {
        r0: rect.r0,
        c0: rect.c0 * width,
        r1: rect.r1,
        c1: rect.c1 * width,
    };
    let bits = sub(alloc, &source, part)?;
    let _bits = bits.rows();
    Ok(Mzed::of_packed(field, rect.c1 - rect.c0, bits))
}
