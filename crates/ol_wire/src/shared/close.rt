//! The end of a table: its words remain, after all seats are joined in a single seat.
ghost use Rattle.std.specs.Prelude.{◌≡◌};

use crate::closed::Words;
use crate::seat::Seat;
use crate::shared::Shared;
use std::snapshot::Snapshot;

impl Shared {
    /// Ends the sharing of the table, and keeps its words. All seats of the table are joined in
    /// `seat`.
    ///
    /// Takes no memory, and never waits for another thread.
    pub fn close(self, seat: Seat) -> Words
        requires table { seat.table ≡ self.table }
        requires holds { seat.view.holds ≡ self.plan.seats }
        ensures plan { result.plan ≡ self.plan }
        ensures view { result.view ≡ seat.view }
    {
        let Shared {
            table,
            parts,
            seats: _,
        } = self;
        let Seat {
            token,
            over: _,
            holds: _,
        } = seat;
        let was = Snapshot::of(&table.shared);
        let last = Snapshot::of(&token);
        Words {
            closed: table.close_with(token),
            parts,
            was,
            last,
        }
    }
}
