//! The sweep over all cells, after all seats are joined.
ghost use Rattle.std.specs.Prelude.{◌≡◌, ◌≢◌, ℕ, ◌<◌, IsTrue, IsFalse};
ghost use Rattle.ol_wire.specs.Layout.{cells_of};
ghost use Rattle.ol_wire.specs.Stand.{IsSeatOf};
ghost use Rattle.ol_reduce.specs.Turned.{cells_below, IsTurn, HasTurned, HasSpent, HasSwept, HasSweptToSpent};
ghost use Rattle.ol_reduce.specs.TurnEnds.{IsSpentTurn, IsOtherTurn};

use crate::answers::Sweep;
use ol_wire::{Seat, Shared, Turn};

/// Makes a turn on each cell in ascending order, up to the first turn that returns `Spent`. Takes
/// no memory.
///
/// A turn publishes pairs only in cells with greater numbers than its own, so that a single pass is
/// enough. `Clean`: no active pair is left, because no turn returned `Spent` and the seat has swept
/// all cells. `Spent` is returned only if the last turn of this call returned it.
pub fn sweep(shared: &Shared, seat: &mut Seat) -> Sweep
    requires seat { IsSeatOf shared.now seat.old }
    requires all { seat.old.view.holds ≡ shared.now.plan.seats }
    ensures seat { IsSeatOf shared.now seat.new }
    ensures holds { seat.new.view.holds ≡ seat.old.view.holds }
    ensures clean { result ≡ Sweep.Clean → HasSwept shared.now seat.old.view seat.new.view }
    ensures swept { result ≡ Sweep.Clean → seat.new.view.swept ≡ cells_of shared.now.plan.parts }
    ensures spent { result ≡ Sweep.Spent → HasSweptToSpent shared.now seat.old.view seat.new.view }
{
    seat.swept_within();
    for cell in 0..shared.cells() {
        if is_spent_at(shared, seat, cell) {
            return Sweep::Spent;
        }
    }
    Sweep::Clean
}

// Makes a turn on a cell, and tells whether it answered Spent.
fn is_spent_at(shared: &Shared, seat: &mut Seat, cell: u32) -> bool
    requires seat { IsSeatOf shared.now seat.old }
    requires cell { cell < cells_of shared.now.plan.parts }
    ensures seat { IsSeatOf shared.now seat.new }
    ensures holds { seat.new.view.holds ≡ seat.old.view.holds }
    ensures turned { IsFalse result → IsOtherTurn shared.now seat.old.view cell seat.new.view }
    ensures spent { IsTrue result → IsSpentTurn shared.now seat.old.view cell seat.new.view }
{
    matches!(shared.turn(seat, cell), Turn::Spent)
}
