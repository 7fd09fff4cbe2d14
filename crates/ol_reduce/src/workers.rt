//! A worker: a seat of the table and a hand of the pool.
ghost use Rattle.std.specs.Prelude.{◌≡◌};

use ol_pool::Hand;
use ol_wire::Seat;

/// A worker: its number, its seat and its hand.
#[derive(Drop)]
pub struct Worker {
    pub(crate) number: u32,
    pub(crate) seat: Seat,
    pub(crate) hand: Hand,
    // whether its work ended with `Quiet`
    pub(crate) is_quiet: bool,
}

impl Worker {
    /// A worker with this number. Takes no memory.
    pub fn new(number: u32, seat: Seat, hand: Hand) -> Worker
        ensures number { result.number ≡ number }
        ensures seat { result.seat ≡ seat }
        ensures hand { result.hand ≡ hand }
    {
        Worker {
            number,
            seat,
            hand,
            is_quiet: false,
        }
    }

    /// Returns the worker's seat. Takes no memory.
    pub fn into_seat(self) -> Seat
        ensures { result ≡ self.seat }
    {
        let Worker {
            number: _,
            seat,
            hand: _,
            is_quiet: _,
        } = self;
        seat
    }
}
