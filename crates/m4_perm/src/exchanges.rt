//! Rows of a window that are exchanged one after another, and back.

ghost use Rattle.std.specs.Prelude.{◌≡◌};
ghost use Rattle.m4_model.specs.Field.{gf2};
ghost use Rattle.m4_model.specs.Matrix.{Matrix, HasShape};
ghost use Rattle.m4_model.specs.Shapes.{swaps};
ghost use Rattle.m4_model.specs.Step.{reordered};
ghost use Rattle.m4_mzd.specs.Window.{content, showing};
ghost use Rattle.m4_perm.specs.Perm.{AreSwaps};

use m4_mzd::WinMut;

/// Exchanges rows `i` and `exchanges[i]` of a window, for `i` = 0, 1, 2 and so on in turn: its rows are then in the order of
/// `Perm::from_swaps`. This is LAPACK's `laswp`, and M4RI's `mzd_apply_p_left`.
pub fn swap_rows_by(a: &mut WinMut, exchanges: &[u32])
    requires { AreSwaps a.old.rows exchanges.now }
    ensures { a.new ≡ showing a.old (reordered (swaps a.old.rows exchanges.now) (content a.old)) }
{
    let _rows = a.rows();
    for (i, other) in exchanges.iter().enumerate() {
        a.swap_rows(i as u32, *other);
    }
}

/// The same exchanges in the opposite order: the window becomes the one that `swap_rows_by` makes to what it was.
pub fn swap_rows_back(a: &mut WinMut, exchanges: &[u32])
    requires { AreSwaps a.old.rows exchanges.now }
    ensures others { a.new ≡ showing a.old (content a.new) }
    ensures undone { reordered (swaps a.old.rows exchanges.now) (content a.new) ≡ content a.old }
    ensures one { (A : Matrix) → HasShape gf2 a.old.rows a.old.cols A → reordered (swaps a.old.rows exchanges.now) A ≡ content a.old → content a.new ≡ A }
{
    let _rows = a.rows();
    let count = exchanges.len();
    for done in 0..count {
        let i = count - 1 - done;
        a.swap_rows(i as u32, exchanges[i]);
    }
}
