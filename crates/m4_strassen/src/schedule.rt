//! The sums of one level, between its products: of quarters of the factors, and of products.

ghost use Rattle.std.specs.Prelude.{◌≡◌, ℕ};
ghost use Rattle.m4_model.specs.Field.{gf2};
ghost use Rattle.m4_model.specs.Matrix.{added, zero_matrix};
ghost use Rattle.m4_model.specs.Recursion.{HaveShape, s1, s2, s3, s4, t1, t2, t3, t4};
ghost use Rattle.m4_mzd.specs.Window.{content, showing};
ghost use Rattle.m4_strassen.specs.Level.{read};
ghost use Rattle.m4_strassen.specs.Levels.{IsLevel, HaveSides, with_matrices};

use crate::halves::Cut;
use crate::level::{Level, Read, Written};
use crate::sums::{add_both, set_sum};
use m4_shape::add_into;

/// Adds the first product to the top left, and keeps it.
pub(crate) fn keep_first(cut: Cut, level: &mut Level, c: &mut Written)
    requires level { IsLevel cut.m cut.l cut.n level.old }
    requires c_sides { HaveSides cut.m cut.n c.old }
    ensures added { c.new ≡ record c.old { top_left = showing c.old.top_left (added (content c.old.top_left) (content level.old.p)) } }
    ensures kept { level.new ≡ record level.old { u = showing level.old.u (content level.old.p) } }
{
    add_into(&mut c.top_left, &level.p.see());
    level.u.copy_rows(&level.p.see());
}

/// Makes the sums for the fifth product, which begins with zeros.
pub(crate) fn set_fifth(cut: Cut, level: &mut Level, a: &Read, b: &Read)
    requires level { IsLevel cut.m cut.l cut.n level.old }
    requires a_shape { HaveShape gf2 cut.m cut.l (read a.now) }
    requires b_shape { HaveShape gf2 cut.l cut.n (read b.now) }
    ensures { level.new ≡ with_matrices level.old (s1 (read a.now)) (t1 (read b.now)) (zero_matrix gf2 cut.m cut.n) (content level.old.u) }
{
    set_sum(&mut level.s, &a.bottom_left, &a.bottom_right);
    set_sum(&mut level.t, &b.top_right, &b.top_left);
    level.p.clear();
}

/// Makes the sums for the sixth product of those for the fifth.
pub(crate) fn set_sixth(cut: Cut, level: &mut Level, a: &Read, b: &Read)
    requires level { IsLevel cut.m cut.l cut.n level.old }
    requires a_shape { HaveShape gf2 cut.m cut.l (read a.now) }
    requires b_shape { HaveShape gf2 cut.l cut.n (read b.now) }
    requires s_shows { content level.old.s ≡ s1 (read a.now) }
    requires t_shows { content level.old.t ≡ t1 (read b.now) }
    ensures { level.new ≡ record level.old { s = showing level.old.s (s2 (read a.now)); t = showing level.old.t (t2 (read b.now)) } }
{
    add_into(&mut level.s, &a.top_left);
    add_into(&mut level.t, &b.bottom_right);
}

/// Makes the sums for the third and the fourth product of those for the sixth.
pub(crate) fn set_third_and_fourth(cut: Cut, level: &mut Level, a: &Read, b: &Read)
    requires level { IsLevel cut.m cut.l cut.n level.old }
    requires a_shape { HaveShape gf2 cut.m cut.l (read a.now) }
    requires b_shape { HaveShape gf2 cut.l cut.n (read b.now) }
    requires s_shows { content level.old.s ≡ s2 (read a.now) }
    requires t_shows { content level.old.t ≡ t2 (read b.now) }
    ensures { level.new ≡ record level.old { s = showing level.old.s (s4 (read a.now)); t = showing level.old.t (t4 (read b.now)) } }
{
    add_into(&mut level.s, &a.top_right);
    add_into(&mut level.t, &b.bottom_left);
}

/// Adds the sum of products for the top right, and makes the sums for the seventh product.
pub(crate) fn set_seventh(cut: Cut, level: &mut Level, c: &mut Written, a: &Read, b: &Read)
    requires level { IsLevel cut.m cut.l cut.n level.old }
    requires c_sides { HaveSides cut.m cut.n c.old }
    requires a_shape { HaveShape gf2 cut.m cut.l (read a.now) }
    requires b_shape { HaveShape gf2 cut.l cut.n (read b.now) }
    ensures added { c.new ≡ record c.old { top_right = showing c.old.top_right (added (added (content c.old.top_right) (content level.old.u)) (content level.old.p)) } }
    ensures sums { level.new ≡ record level.old { s = showing level.old.s (s3 (read a.now)); t = showing level.old.t (t3 (read b.now)) } }
{
    add_both(&mut c.top_right, &level.u.see(), &level.p.see());
    set_sum(&mut level.s, &a.top_left, &a.bottom_left);
    set_sum(&mut level.t, &b.bottom_right, &b.top_right);
}

/// Adds the sums of products for the quarters at the bottom.
pub(crate) fn add_bottom(cut: Cut, level: &Level, c: &mut Written)
    requires level { IsLevel cut.m cut.l cut.n level.now }
    requires c_sides { HaveSides cut.m cut.n c.old }
    ensures { c.new ≡ record c.old {
      bottom_left = showing c.old.bottom_left (added (content c.old.bottom_left) (content level.now.u));
      bottom_right = showing c.old.bottom_right (added (added (content c.old.bottom_right) (content level.now.u)) (content level.now.p));
    } }
{
    add_into(&mut c.bottom_left, &level.u.see());
    add_both(&mut c.bottom_right, &level.u.see(), &level.p.see());
}
