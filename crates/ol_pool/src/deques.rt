//! The invariant of a hand's deque: no cell is lost or given twice, and each cell is below the same
//! bound.
use crossbeam_deque::protocol::{Outcome, Protocol, Split};
use crossbeam_deque::{Pass, Stealer, Worker};
use std::alloc::Global;
use std::collections::LinkedList;

// What a pass knows: how far the deque has been made ready, the bound of its cells, the pass's
// parts of the right to know the whole, and the cells that it put and was given. No value of it is
// made.
pub struct Log {
    pub stage: u8,
    pub bound: u32,
    pub parts: u8,
    pub sent: LinkedList<u32>,
    pub given: LinkedList<u32>,
}

// The rule of a deque.
pub struct Fair;

impl Protocol<u32, Log> for Fair {
    ghost use Rattle.ol_pool.specs.Deques.{untold, Kept};

    ghost holds = { Kept };

    ghost first = { untold };

    ghost guest = { untold };
}

// The step that puts the bound of all cells, before there is a cell.
pub(crate) struct Tells;

impl Outcome<u32, Log> for Tells {
    ghost use Rattle.std.specs.Prelude.{◌≡◌, slice_index};
    ghost use Rattle.ol_pool.specs.Deques.{told};

    ghost then = { λ v xs w. w ≡ told (slice_index xs 0) };
}

// The step that takes the bound out again.
pub(crate) struct Opens;

impl Outcome<u32, Log> for Opens {
    ghost use Rattle.std.specs.Prelude.{◌≡◌, ◌≢◌};
    ghost use Rattle.ol_pool.specs.Deques.{opened};

    ghost then = { λ v xs w. w ≡ opened v.bound };

    ghost empty = { λ v. v.stage ≢ 1 };
}

// A step that put cells.
pub(crate) struct Puts;

impl Outcome<u32, Log> for Puts {
    ghost use Rattle.std.specs.Prelude.{◌≡◌};
    ghost use Rattle.ol_pool.specs.Deques.{puts};

    ghost then = { λ v xs w. w ≡ puts v xs };
}

// A step that was given cells.
pub(crate) struct Gets;

impl Outcome<u32, Log> for Gets {
    ghost use Rattle.std.specs.Prelude.{◌≡◌};
    ghost use Rattle.ol_pool.specs.Deques.{gets, AllBelow};

    ghost then = { λ v xs w. (w ≡ gets v xs) × AllBelow v.bound xs };
}

// A pass for another hand.
pub(crate) struct Lends;

impl Split<Log> for Lends {
    ghost use Rattle.ol_pool.specs.Deques.{lends, lent};

    ghost left = { lends };

    ghost right = { λ v. lent v.bound };
}

pub(crate) type Owner = Worker<u32, Global, Log, Fair>;

pub(crate) type Thief = Stealer<u32, Global, Log, Fair>;

pub(crate) type Access = Pass<u32, Log>;
