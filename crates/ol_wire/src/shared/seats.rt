//! How the seats of a table are handed out, split and joined.
ghost use Rattle.std.specs.Prelude.{◌≡◌, ℕ, ◌+◌, ◌<◌, ◌≤◌, [], false, All, IfOk, vec_len};
ghost use Rattle.ol_wire.specs.LinkPlays.{times_drawn};
ghost use Rattle.ol_wire.specs.Plays.{joined};
ghost use Rattle.ol_wire.specs.StepPlays.{fewer, one_seat};
ghost use Rattle.ol_wire.specs.Stand.{IsSeatOf, IsNewSeat};
ghost use Rattle.ol_wire.specs.Tokens.{IsTokenOf, IsSameSeat, IsFreshFor};
ghost use Rattle.ol_wire.specs.Idle.{IsIdle};

use crate::plays::{Cut, Joins, ReadsTicketsJoined};
use crate::seat::{Seat, Token};
use crate::shared::Shared;
use ol_limits::NoMemory;
use std::alloc::Global;

impl Shared {
    // Cuts a seat that has done nothing into seats of one each.
    pub(crate) fn deal(
        &self,
        alloc: Global,
        mut seat: Seat,
        count: u32,
    ) -> Result<Vec<Seat>, NoMemory>
        requires seat { IsFreshFor self.now seat count }
        ensures { IfOk result (λ v. (vec_len v ≡ count) × All (IsNewSeat self.now) v.items) }
    {
        let mut seats = Vec::with_capacity(alloc, count as usize)?;
        for _ in 1..count {
            let one = self.cut(&mut seat);
            seats.push(one)?;
        }
        seats.push(seat)?;
        Ok(seats)
    }

    // Cuts one seat off a seat that stands for more than one.
    fn cut(&self, seat: &mut Seat) -> Seat
        requires table { seat.old.table ≡ self.now.table }
        requires holds { (1 < seat.old.view.holds) × (seat.old.view.over ≡ false) }
        requires unswept { seat.old.view.swept ≡ 0 }
        ensures left { (seat.new.table ≡ seat.old.table) × (seat.new.view ≡ fewer seat.old.view) }
        ensures right { (result.table ≡ seat.old.table) × (result.view ≡ one_seat seat.old.view) }
    {
        let token = self.table.shared.split_seat::<Cut>(&mut seat.token);
        seat.holds -= 1;
        Seat {
            token,
            over: false,
            holds: 1,
        }
    }

    /// Moves the work of the seat `from`, and the seats that are joined in it, to the seat `into`.
    /// No ticket then occurs twice among the tickets of `into`.
    pub fn join(&self, into: &mut Seat, from: Seat)
        requires seats { IsSeatOf self.now into.old × IsSeatOf self.now from }
        ensures seat { IsSeatOf self.now into.new }
        ensures view { into.new.view ≡ joined into.old.view from.view }
        ensures once { (ticket : ℕ) → times_drawn ticket into.new.view.made ≤ 1 }
    {
        let Seat { token, over, holds } = from;
        self.merge(&mut into.token, token);
        into.over = into.over || over;
        into.holds += holds;
    }

    // Joins two seats. The look that follows shows that they stand for no more than all seats, and
    // that no ticket is there twice.
    fn merge(&self, into: &mut Token, from: Token)
        requires into { IsTokenOf self.now into.old }
        requires from { (from.table_id ≡ self.now.table) × (from.me.1 ≡ []) }
        requires idle { IsIdle into.old.me.0 × IsIdle from.me.0 }
        ensures token { IsSameSeat into.old into.new }
        ensures view { into.new.me.0 ≡ joined into.old.me.0 from.me.0 }
        ensures few { into.old.me.0.holds + from.me.0.holds ≤ 64 }
        ensures once { (ticket : ℕ) → times_drawn ticket into.new.me.0.made ≤ 1 }
    {
        self.table.shared.join_seat::<Joins>(into, from);
        self.table.shared.load::<ReadsTicketsJoined>(into, 0);
    }
}
