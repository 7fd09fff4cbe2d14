//! A hand's own deque, with what it answered.
ghost use Rattle.std.specs.Prelude.{◌≡◌, ◌<◌, ◌^◌, ◌≤◌, ◌∷◌, [], length, OnOk, OnErr, IfErr, MatchOption};
ghost use Rattle.ol_pool.specs.Deques.{AllBelow, puts};
ghost use Rattle.ol_pool.specs.Looks.{CountsOne};
ghost use Rattle.ol_pool.specs.Owned.{FoundEmpty, FoundCell};

use crate::own::Own;
use crate::tally::Tally;
use std::marker::Model;

/// A hand's own deque, how often it was looked at in vain, and how often it refused a cell.
#[derive(Drop)]
pub(crate) struct Home {
    own: Own,
    tally: Tally,
}

impl Model for Home {
    ghost use Rattle.ol_pool.specs.Owned.{HomeState};

    ghost Value = { HomeState };

    ghost view = { λ h. record {
      own = h.own;
      empties = h.tally.empties;
      refused = h.tally.refused;
    } };
}

impl Home {
    /// A deque that wasn't looked at, and refused no cell.
    pub(crate) fn new(own: Own) -> Home
        ensures { result ≡ record { own = own; empties = 0; refused = 0 } }
    {
        Home {
            own,
            tally: Tally::none(),
        }
    }

    /// Puts a cell at the back.
    ///
    /// `Err`: the deque answered so, and it is counted. It gives the cell back.
    pub(crate) fn put(&mut self, cell: u32) -> Result<(), u32>
        requires below { cell < self.old.own.log.bound }
        ensures sent { OnOk result (self.new
            ≡ record self.old { own = record self.old.own { log = puts self.old.own.log (cell ∷ []) } }) }
        ensures unchanged { OnErr result
            (self.new ≡ record self.old { refused = self.new.refused }) }
        ensures refused { OnErr result (CountsOne self.old.refused self.new.refused) }
        ensures many { OnErr result (64 ≤ length self.old.own.log.sent) }
        ensures back { IfErr result (λ returned. returned ≡ cell) }
    {
        self.own.put(&mut self.tally, cell)
    }

    /// Takes the cell at the front. None: the deque answered so, and it is counted.
    pub(crate) fn look(&mut self) -> Option<u32>
        ensures { MatchOption result (FoundEmpty self.old self.new)
            (λ cell. FoundCell cell self.old self.new) }
    {
        self.own.next(&mut self.tally)
    }

    /// The number of puts that were refused.
    pub(crate) fn refused(&self) -> u64
        ensures { result ≡ self.now.refused }
    {
        self.tally.refused()
    }

    /// Law: the cells that it gave are below its bound.
    pub(crate) fn gave_below(&self)
        ensures { AllBelow self.now.own.log.bound self.now.own.log.given }
    {
        self.own.gave_below();
    }

    /// Law: its deque is open.
    pub(crate) fn is_open(&self)
        ensures { self.now.own.log.stage ≡ 2 }
    {
        self.own.is_open();
    }
}
