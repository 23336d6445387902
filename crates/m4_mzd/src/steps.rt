//! A count of steps, which takes no bytes and no time.

ghost use Rattle.std.specs.Prelude.{◌≡◌, ◌+◌, ◌<◌};

use std::marker::Model;
use std::sync::ledger::{Blank, Book, Ledger, Share};

/// How many steps were taken by the calls that count: `WinMut::add_row` and `WinMut::add_rows` count one for each row that they
/// added, and other crates count their steps by `tick`. It takes no bytes and its calls have no code.
///
/// A caller that wants no count makes one of its own: it writes its body as a function with a parameter `blank: Blank`, generic
/// over `L: Ledger`, that begins with `Steps::<L>::new(blank)`, and calls it with `Brand` for `L` and `Blank::new(1)`. In
/// the proof file `Invariants.antt` of the call, `ghosts-NAME a = record { name = a.blank.name; parts = a.blank.parts }`
/// says whose count it is.
#[derive(Drop)]
pub struct Steps<L: Ledger> {
    book: Book<L>,
    share: Share<L>,
}

impl<L: Ledger> Model for Steps<L> {
    ghost use Rattle.std.specs.Prelude.{ℕ, ◌<◌};

    ghost Value = { ℕ };

    ghost view = { λ s. s.book.total };

    ghost invariant = { λ s. 0 < s.share.parts };
}

impl<L: Ledger> Steps<L> {
    /// A count at 0.
    #[inline]
    pub fn new(blank: Blank) -> Steps<L>
        requires name { blank.name ≡ L.name }
        requires parts { blank.parts ≡ L.parts }
        requires some { 0 < blank.parts }
        ensures { result ≡ 0 }
    {
        let (book, share) = blank.open::<L>();
        Steps { book, share }
    }

    /// Counts one step.
    #[inline]
    pub fn tick(&mut self)
        ensures { self.new ≡ self.old + 1 }
    {
        self.book.add(&mut self.share, 1);
    }

    /// Counts so many steps.
    #[inline]
    pub(crate) fn tick_times(&mut self, steps: u64)
        ensures { self.new ≡ self.old + steps }
    {
        self.book.add(&mut self.share, steps);
    }
}
