//! Loads of a seat that observe the whole table.
ghost use Rattle.std.specs.Prelude.{◌≡◌, ℕ, length};
ghost use Rattle.ol_wire.specs.Moments.{Moment, IsMomentAsked};
ghost use Rattle.ol_wire.specs.Looking.{MomentLive, MomentWith};
ghost use Rattle.ol_wire.specs.Plays.{live_read};
ghost use Rattle.ol_wire.specs.Turns.{HasListened};
ghost use Rattle.ol_wire.specs.Stand.{IsSeatOf};
ghost use Rattle.ol_wire.specs.Tokens.{IsTokenOf, IsSameSeat};

use crate::plays::{ReadsLive, ReadsTickets};
use crate::seat::{Seat, Token};
use crate::shared::Shared;

impl Shared {
    /// The number of entries of the trace at a moment during this call. At that moment the words
    /// and the views of all seats satisfied the invariant for the table's initial net, and the view
    /// of this seat, which doesn't change, was among these views.
    ///
    /// The call is a single load. It takes no memory, and never waits for another thread.
    pub fn events(&self, seat: &mut Seat) -> u32
        requires seat { IsSeatOf self.now seat.old }
        ensures seat { seat.new ≡ seat.old }
        ensures moment { (m : Moment self.now.plan seat.old.view) × (length m.kept.log ≡ result) }
    {
        let drawn = self.read_tickets(&mut seat.token);
        if drawn < self.parts.fuel as u64 {
            drawn as u32
        } else {
            self.parts.fuel
        }
    }

    /// Whether no active pair is left, so that the trace is of a reduction to normal form. The call
    /// is a single load of the live word, which the view of the seat records in `looked`.
    ///
    /// True: the word was 0. At that moment the net after the trace had no active pair, and the net
    /// doesn't change any more. False: the word wasn't 0, because a pair was active or a seat had
    /// still to make the links of its ticket (theorem `nothing_is_owed`).
    ///
    /// Takes no memory, and never waits for another thread.
    pub fn quiet(&self, seat: &mut Seat) -> bool
        requires seat { IsSeatOf self.now seat.old }
        ensures seat { IsSeatOf self.now seat.new }
        ensures view { (n : ℕ) × HasListened seat.old.view n result seat.new.view }
        ensures moment { IsMomentAsked self.now.plan seat.new.view result }
    {
        self.read_live(&mut seat.token) == 0
    }

    // Reads the live word.
    fn read_live(&self, token: &mut Token) -> u64
        requires token { IsTokenOf self.now token.old }
        ensures token { IsSameSeat token.old token.new }
        ensures view { token.new.me.0 ≡ live_read token.old.me.0 result }
        ensures moment { MomentLive self.now.plan token.new.me.0 result }
    {
        self.table.shared.load::<ReadsLive>(token, 1)
    }

    // Reads the ticket word.
    fn read_tickets(&self, token: &mut Token) -> u64
        requires token { IsTokenOf self.now token.old }
        ensures token { IsSameSeat token.old token.new }
        ensures view { token.new.me.0 ≡ token.old.me.0 }
        ensures moment { MomentWith self.now.plan token.old.me.0 result }
    {
        self.table.shared.load::<ReadsTickets>(token, 0)
    }
}
