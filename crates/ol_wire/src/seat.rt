//! The seat: the handle by which a thread makes steps on a table.
ghost use Rattle.std.specs.Prelude.{◌≡◌, ◌≤◌, []};
ghost use Rattle.ol_wire.specs.Layout.{cells_of};
ghost use Rattle.ol_wire.specs.Stand.{SeatState};
ghost use Rattle.ol_wire.specs.Tokens.{IsAtRest};
ghost use Rattle.ol_wire.specs.Idle.{IsIdle};

use crate::view::View;
use std::marker::Model;

pub(crate) type Token = atomic_table::Seat<(), View>;

/// A thread's handle of a table. Its view records what its turns did. Between two calls it has no
/// claimed pair, no word to write and no link to make.
#[derive(Drop)]
pub struct Seat {
    pub(crate) token: Token,
    // whether it has read a ticket at or above the fuel
    pub(crate) over: bool,
    // how many of the seats that were made stand in it
    pub(crate) holds: u32,
}

impl Model for Seat {
    ghost Value = { SeatState };

    ghost view = { λ s. record { table = s.token.table_id; view = s.token.me.0 } };

    ghost invariant = { λ s. IsAtRest s.token.me s.over s.holds };
}

impl Seat {
    /// The number of seats that are joined in this seat, including itself.
    pub fn holds(&self) -> u32
        ensures { result ≡ self.now.view.holds }
    {
        self.holds
    }

    /// Theorem: the seat has swept at most all cells of its table.
    pub fn swept_within(&self)
        ensures within { self.now.view.swept ≤ cells_of self.now.view.parts }
    {
        let _ = &self.holds;
    }

    /// Theorem: between two calls the seat owes nothing.
    pub fn owes_nothing(&self)
        ensures nothing { self.now.view.owed ≡ 0 }
    {
        let _ = &self.holds;
    }

    /// Theorem: between two calls the seat has no claimed pair, no unwritten word of a block, and
    /// no pending link.
    pub fn holds_nothing(&self)
        ensures taken { self.now.view.taken ≡ [] }
        ensures due { self.now.view.due ≡ [] }
        ensures pending { self.now.view.pending ≡ [] }
    {
        let _ = &self.holds;
    }
}
