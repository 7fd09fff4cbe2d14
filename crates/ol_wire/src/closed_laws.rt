//! Theorems on the words of a closed table.
ghost use Rattle.std.specs.Prelude.{◌≡◌, true};
ghost use Rattle.ol_net.specs.Nets.{NamedNet};
ghost use Rattle.ol_rules.specs.declared.journal.NodeName.{NodeName};
ghost use Rattle.ol_net.specs.Pairs.{IsComplete, HasActive};
ghost use Rattle.ol_wire.specs.Closed.{journal_drawn, IsAfter, EachAfter, HasOneAfter, NoNodeTwice, AreGone, IsEmptyUndrawn, IsFuelUsed, HasSweptAll, HasSettled};
ghost use Rattle.ol_wire.specs.Weights.{AreNumbered};
ghost use Rattle.ol_wire.specs.Standing.{StandForNet};

use crate::closed::Words;

impl Words {
    /// Theorem: the trace leads from the initial net of the table to a net, which is unique.
    pub fn runs(&self)
        ensures some { (net : NamedNet NodeName) × IsAfter self.now net }
        ensures one { HasOneAfter self.now }
    {
        let _ = &self.closed;
    }

    /// Theorem: the words represent the net after the trace. A wire is part of this net if the
    /// initial net or a commutation of the trace made it, and no exchange of a seat removed it.
    pub fn stands(&self)
        ensures stands { StandForNet self.now }
    {
        let _ = &self.closed;
    }

    /// Theorem: the blocks of tickets that weren't drawn are empty.
    pub fn undrawn(&self)
        ensures empty { IsEmptyUndrawn self.now }
    {
        let _ = &self.closed;
    }

    /// Theorem: no node is rewritten twice, and a node that was rewritten is no longer in the net.
    pub fn once(&self)
        ensures once { NoNodeTwice (journal_drawn self.now) }
        ensures gone { EachAfter self.now (AreGone (journal_drawn self.now)) }
    {
        let _ = &self.closed;
    }

    /// Theorem: the seats drew each ticket of the trace once, and with the ticket's entry in the
    /// trace.
    pub fn made(&self)
        ensures made { AreNumbered self.now.view.made (journal_drawn self.now) }
    {
        let _ = &self.closed;
    }

    /// Theorem: if the seat read a ticket at or above the fuel, the fuel is used up and an active
    /// pair is left.
    pub fn over(&self)
        ensures fuel { self.now.view.over ≡ true → IsFuelUsed self.now }
        ensures active { self.now.view.over ≡ true → EachAfter self.now HasActive }
    {
        let _ = &self.closed;
    }

    /// Theorem: if the seat, or a seat that was joined to it, read 0 in the live word, no active
    /// pair is left.
    pub fn settled(&self)
        ensures complete { HasSettled self.now → EachAfter self.now IsComplete }
    {
        let _ = &self.closed;
    }

    /// Theorem: if the seat has swept all cells, no active pair is left.
    pub fn swept(&self)
        ensures complete { HasSweptAll self.now → EachAfter self.now IsComplete }
    {
        let _ = &self.closed;
    }
}
