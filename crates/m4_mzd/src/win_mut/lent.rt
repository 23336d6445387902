//! A window behind a `&mut`: it is taken out, worked on by value, and put back.

ghost use Rattle.std.specs.Prelude.{◌≡◌, []};

use super::WinMut;

impl WinMut {
    /// Takes the window out, and leaves one with no rows at the same place.
    #[inline]
    pub fn take(&mut self) -> WinMut
        ensures whole { result ≡ self.old }
        ensures left { self.new ≡ record self.old { rows = 0; bits = []; past = [] } }
    {
        WinMut {
            words: self.words.take(),
            cols: self.cols,
        }
    }

    /// Puts a window where one with no rows is left.
    #[inline]
    pub fn put_back(&mut self, whole: WinMut)
        requires { self.old.rows ≡ 0 }
        ensures { self.new ≡ whole }
    {
        let WinMut { words, cols } = whole;
        self.words.put(words);
        self.cols = cols;
    }
}
