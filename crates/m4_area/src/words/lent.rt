//! A rectangle behind a `&mut`: it is taken out, worked on by value, and put back.

ghost use Rattle.std.specs.Prelude.{◌≡◌, []};

use super::Words;
use std::mem::replace;

impl Words {
    /// Takes the rectangle out, and leaves one with no rows at the same place.
    #[inline]
    pub fn take(&mut self) -> Words
        ensures whole { result ≡ self.old }
        ensures left { self.new ≡ record self.old { rows = 0; words = [] } }
    {
        let left = self.emptied();
        replace(self, left)
    }

    /// Puts a rectangle where one with no rows is left.
    #[inline]
    pub fn put(&mut self, whole: Words)
        requires { self.old.rows ≡ 0 }
        ensures { self.new ≡ whole }
    {
        replace(self, whole).end();
    }

    /// A rectangle at the same place with no rows.
    #[inline]
    fn emptied(&self) -> Words
        ensures { result ≡ record self.now { rows = 0; words = [] } }
    {
        Words {
            base: self.base,
            skip: self.skip,
            rows: 0,
            width: self.width,
            stride: self.stride,
            area: self.area.emptied(),
        }
    }

    /// Ends a rectangle that has no rows.
    #[inline]
    pub fn end(self)
        requires { self.rows ≡ 0 }
    {
        let Words {
            base: _,
            skip: _,
            rows: _,
            width: _,
            stride: _,
            area,
        } = self;
        area.end();
    }
}
