//! The counter of steps, which only the arena's own calls advance.
ghost use Rattle.std.specs.Prelude.{◌≡◌, ◌+◌, ◌<◌};

use std::marker::Model;
use std::sync::ledger::{Blank, Book, Ledger, Share};

/// How many steps were counted. A step is one counted call of the dart arena; nothing else adds
/// steps, since no other crate can count one, and no code without the program's own handle can make
/// a counter. It takes no bytes when the program runs, and contracts see the number.
#[derive(Drop)]
pub struct Steps<L: Ledger> {
    book: Book<L>,
    share: Share<L>,
}

impl<L: Ledger> Model for Steps<L> {
    //! The counter of steps, which only the arena's own calls advance.
    ghost use Rattle.std.specs.Prelude.{ℕ, ◌<◌};

    ghost Value = { ℕ };

    ghost view = { λ steps. steps.book.total };

    ghost invariant = { λ steps. 0 < steps.share.parts };
}

impl<L: Ledger> Steps<L> {
    /// A count at 0, over a ledger that no token stands for yet. Only who holds the program's handle
    /// can ask for one: `main`, and a test.
    pub fn start(_handle: &HostRuntime, blank: Blank) -> Steps<L>
        requires name { blank.name ≡ L.name }
        requires parts { blank.parts ≡ L.parts }
        requires some { 0 < blank.parts }
        ensures { result ≡ 0 }
    {
        let (book, share) = blank.open();
        Steps { book, share }
    }

    /// Counts one step. Each counted call of the arena does so once.
    pub(crate) fn tick(&mut self)
        ensures { self.new ≡ self.old + 1 }
    {
        self.book.add(&mut self.share, 1);
    }

    /// Counts `times` steps at once, for the calls of the arena that count by the dart.
    pub(crate) fn tick_times(&mut self, times: u64)
        ensures { self.new ≡ self.old + times }
    {
        self.book.add(&mut self.share, times);
    }
}
