//! What one level of the recursion works with: the quarters of the operands and of the window, and four windows of room.

ghost use Rattle.std.specs.Prelude.{◌≡◌, ◌+◌, ◌%◌, ◌≤◌};
ghost use Rattle.m4_model.specs.Field.{gf2};
ghost use Rattle.m4_model.specs.Recursion.{Quartered, HaveShape, joined, level_words};
ghost use Rattle.m4_mzd.specs.Window.{content, showing};
ghost use Rattle.m4_mzd.specs.Seen.{shown};
ghost use Rattle.m4_mzd.specs.Span.{without_first};
ghost use Rattle.m4_strassen.specs.Level.{read, contents};
ghost use Rattle.m4_strassen.specs.Levels.{IsLevel, HaveSides, IsCarved, words_of_level, with_quarters, Touch, unquartered};

use crate::halves::Cut;
use m4_mzd::{MOST_SIDE, Room, Win, WinMut};

/// The quarters of a window that is read.
#[derive(Clone, Copy)]
pub(crate) struct Read<'a> {
    pub(crate) top_left: Win<'a>,
    pub(crate) top_right: Win<'a>,
    pub(crate) bottom_left: Win<'a>,
    pub(crate) bottom_right: Win<'a>,
}

/// The quarters of the window to which the product is added.
pub(crate) struct Written {
    pub(crate) top_left: WinMut,
    pub(crate) top_right: WinMut,
    pub(crate) bottom_left: WinMut,
    pub(crate) bottom_right: WinMut,
}

/// The windows of a level: one for sums of quarters of the first factor, one for those of the second, and two for products.
pub(crate) struct Level {
    pub(crate) s: WinMut,
    pub(crate) t: WinMut,
    pub(crate) p: WinMut,
    pub(crate) u: WinMut,
}

/// The quarters of a window of `2 r` rows and `2 c` columns, where `c` is a multiple of 64.
pub(crate) fn quarters<'a>(whole: Win<'a>, r: u32, c: u32) -> Read<'a>
    requires rows { (shown whole).rows ≡ r + r }
    requires cols { (shown whole).cols ≡ c + c }
    requires whole_words { c % 64 ≡ 0 }
    ensures shape { HaveShape gf2 r c (read result) }
    ensures joined { joined (read result) ≡ shown whole.entry }
{
    let (top, bottom) = whole.split_rows(r);
    let (top_left, top_right) = top.split_cols(c);
    let (bottom_left, bottom_right) = bottom.split_cols(c);
    Read {
        top_left,
        top_right,
        bottom_left,
        bottom_right,
    }
}

impl Written {
    /// The same of a window that is written.
    pub(crate) fn new(whole: WinMut, r: u32, c: u32) -> Written
        requires rows { whole.rows ≡ r + r }
        requires cols { whole.cols ≡ c + c }
        requires whole_words { c % 64 ≡ 0 }
        ensures shape { HaveShape gf2 r c (contents result) }
        ensures sides { HaveSides r c result }
        ensures joined { joined (contents result) ≡ content whole }
        ensures touch { Touch result }
        ensures back { (X : Quartered) → HaveShape gf2 r c X → unquartered (with_quarters result X) ≡ showing whole (joined X) }
    {
        let _rows = whole.rows();
        let (top_left, top_right, bottom_left, bottom_right) = whole.quarter(r, c);
        let (_first, _second) = (top_left.rows(), top_right.rows());
        let (_third, _fourth) = (bottom_left.rows(), bottom_right.rows());
        Written {
            top_left,
            top_right,
            bottom_left,
            bottom_right,
        }
    }

    /// The window of the quarters.
    pub(crate) fn join(self) -> WinMut
        requires { Touch self }
        ensures { result ≡ unquartered self }
    {
        let Written {
            top_left,
            top_right,
            bottom_left,
            bottom_right,
        } = self;
        top_left.unquarter(top_right, bottom_left, bottom_right)
    }
}

impl Level {
    /// The windows of a level, cut from the room.
    pub(crate) fn carve(room: &mut Room, cut: Cut) -> Level
        requires few_rows { cut.m ≤ MOST_SIDE }
        requires few_inner { cut.l ≤ MOST_SIDE }
        requires few_cols { cut.n ≤ MOST_SIDE }
        requires whole_inner { cut.l % 64 ≡ 0 }
        requires whole_cols { cut.n % 64 ≡ 0 }
        requires enough { level_words cut.m cut.l cut.n ≤ room.old.left }
        ensures level { IsLevel cut.m cut.l cut.n result }
        ensures carved { IsCarved result room.new }
        ensures first { result.s.skip ≡ room.old.skip }
        ensures words { words_of_level result ≡ level_words cut.m cut.l cut.n }
        ensures left { room.new ≡ without_first (level_words cut.m cut.l cut.n) room.old }
    {
        let s = room.carve(cut.m, cut.l);
        let t = room.carve(cut.l, cut.n);
        let p = room.carve(cut.m, cut.n);
        let u = room.carve(cut.m, cut.n);
        Level { s, t, p, u }
    }

    /// Gives the windows back, the last one first.
    pub(crate) fn give_back(self, room: &mut Room)
        requires { IsCarved self room.old }
        ensures place { room.new.place ≡ room.old.place }
        ensures first { room.new.skip ≡ self.s.skip }
        ensures left { room.new.left ≡ words_of_level self + room.old.left }
    {
        let Level { s, t, p, u } = self;
        room.give_back(u);
        room.give_back(p);
        room.give_back(t);
        room.give_back(s);
    }
}
