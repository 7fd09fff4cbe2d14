//! What a hand knows of another's deque.
ghost use Rattle.std.specs.Prelude.{◌≡◌, None};
ghost use Rattle.crossbeam_deque.specs.Handles.{view as knows, stealer_deque};
ghost use Rattle.ol_pool.specs.Looks.{Tells};
ghost use Rattle.ol_pool.specs.Owned.{IsReach, reach_part, reach_of};

use crate::deques::{Access, Fair, Gets, Thief};
use crate::looks::Seen;
use crate::tally::Tally;
use crossbeam_deque::Steal;
use std::marker::Model;

/// Access to another's deque, with what that answered.
#[derive(Drop)]
pub(crate) struct Reach {
    access: Access,
    tally: Tally,
}

impl Model for Reach {
    ghost use Rattle.std.specs.Prelude.{◌≡◌, None};
    ghost use Rattle.crossbeam_deque.specs.Handles.{view as knows};
    ghost use Rattle.ol_pool.specs.Owned.{ReachState};

    ghost Value = { ReachState };

    ghost view = { λ r. record {
      deque = (r.access.rows, r.access.heap);
      log = knows r.access;
      empties = r.tally.empties;
      agains = r.tally.agains;
    } };

    ghost invariant = { λ r. (r.access.me.hand ≡ None) × (r.access.me.spare ≡ None) };
}

impl Reach {
    /// Access with which no look was made.
    pub(crate) fn new(access: Access) -> Reach
        requires { (access.me.hand ≡ None) × (access.me.spare ≡ None) }
        ensures { result ≡ reach_of (access.rows, access.heap) (knows access) }
    {
        Reach {
            access,
            tally: Tally::none(),
        }
    }

    /// Looks at the deque, and takes the cell at its front.
    pub(crate) fn look(&mut self, thief: &Thief) -> Seen
        requires deque { self.old.deque ≡ stealer_deque thief.now }
        requires open { IsReach self.old.log.bound self.old }
        ensures deque { self.new.deque ≡ self.old.deque }
        ensures open { IsReach self.old.log.bound self.new }
        ensures tells { Tells result (reach_part self.old) (reach_part self.new) }
    {
        match self.tally.steal::<Fair, Gets>(thief, &mut self.access) {
            Steal::Success(cell) => Seen::Cell(cell),
            Steal::Empty => Seen::Empty,
            Steal::Retry => Seen::Again,
        }
    }
}
