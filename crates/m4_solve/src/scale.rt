//! The pivots of an echelon form become ones.

ghost use Rattle.std.specs.Prelude.{◌≡◌, ◌≢◌, ℕ, ◌<◌, length, slice_index};
ghost use Rattle.m4_model.specs.Matrix.{at};
ghost use Rattle.m4_model.specs.Forms.{Echelon};
ghost use Rattle.m4_model.proofs.EquivalenceLemmas.{RowEquivalent};
ghost use Rattle.m4_mzed.specs.EWindow.{content, showing};
ghost use Rattle.m4_solve.specs.Scaled.{IsScaled};

use m4_mzed::EWinMut;

/// Multiplies each row of an echelon form that has a pivot by the inverse of its pivot. Over GF(2) nothing is written.
pub(crate) fn scale_pivots(a: &mut EWinMut, pivots: &[u32])
    requires echelon { Echelon (content a.old) pivots.now }
    ensures kept { a.new ≡ showing a.old (content a.new) }
    ensures echelon { Echelon (content a.new) pivots.now }
    ensures ones { (i : ℕ) → i < length pivots.now → at (content a.new) i (slice_index pivots.now i) ≡ 1 }
    ensures same { RowEquivalent a.old.field a.old.rows (content a.new) (content a.old) }
{
    let _rows = a.rows();
    for i in 0..pivots.len() {
        scale_to_one(a, i as u32, pivots[i]);
        let _rows_scaled = a.rows();
    }
}

/// Multiplies row `i` by the inverse of its entry in column `c`, which becomes 1.
fn scale_to_one(a: &mut EWinMut, i: u32, c: u32)
    requires in_rows { i < a.old.rows }
    requires in_cols { c < a.old.cols }
    requires nonzero { at (content a.old) i c ≢ 0 }
    ensures kept { a.new ≡ showing a.old (content a.new) }
    ensures one { at (content a.new) i c ≡ 1 }
    ensures scaled { IsScaled i (content a.old) (content a.new) }
{
    let _rows = a.rows();
    let field = a.field();
    let pivot = a.get(i, c);
    if pivot == 1 {
        return;
    }
    a.scale_row(i, field.inv(pivot));
}
