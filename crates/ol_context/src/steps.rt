//! A counter of crossings.

ghost use Rattle.std.specs.Prelude.{◌≡◌, ◌<◌, ◌+◌};

use std::marker::Model;
use std::sync::ledger::{Blank, Book, Ledger, Share};

/// A counter of crossings, of the ledger `L`, that exists in contracts only and takes no memory.
/// Contracts view it as the number of its ticks.
#[derive(Drop)]
pub struct Steps<L: Ledger> {
    ticks: Book<L>,
    all: Share<L>,
}

impl<L: Ledger> Model for Steps<L> {
    ghost use Rattle.std.specs.Prelude.{ℕ, ◌<◌};

    ghost Value = { ℕ };

    ghost view = { λ a. a.ticks.total };

    ghost invariant = { λ a. 0 < a.all.parts };
}

impl<L: Ledger> Steps<L> {
    /// A counter at 0. `blank` is the blank page of the ledger `L`, with at least one part.
    pub fn new(blank: Blank) -> Steps<L>
        requires name { blank.name ≡ L.name }
        requires parts { blank.parts ≡ L.parts }
        requires some { 0 < blank.parts }
        ensures { result ≡ 0 }
    {
        let (ticks, all) = blank.open::<L>();
        Steps { ticks, all }
    }

    /// Counts a crossing that is tried.
    pub fn tick(&mut self)
        ensures { self.new ≡ self.old + 1 }
    {
        self.ticks.add(&mut self.all, 1);
    }
}
