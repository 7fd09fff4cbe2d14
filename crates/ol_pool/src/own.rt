//! A hand's own deque.
ghost use Rattle.std.specs.Prelude.{◌≡◌, ℕ, ◌+◌, ◌-◌, ◌<◌, ◌≤◌, [], ◌∷◌, length, IfOk, IfErr, OnOk, OnErr, MatchOption};
ghost use Rattle.crossbeam_deque.specs.Handles.{stealer_deque, worker_capacity, worker_deque, worker_flavor, worker_index, worker_view};
ghost use Rattle.ol_pool.specs.Deques.{untold, opened, puts, gets, lends, AllBelow};
ghost use Rattle.ol_pool.specs.Counted.{CountedEmpty, CountedRefusal};
ghost use Rattle.ol_pool.specs.Owned.{new_reach};

use crate::deques::{Fair, Gets, Lends, Opens, Owner, Puts, Tells, Thief};
use crate::reach::Reach;
use crate::tally::Tally;
use ol_limits::NoMemory;
use std::alloc::Global;
use std::marker::Model;

/// An open deque from its owner's side: cells join at the back and leave at the front.
#[derive(Drop)]
pub(crate) struct Own {
    deque: Owner,
}

impl Model for Own {
    ghost use Rattle.std.specs.Prelude.{◌≡◌, ◌+◌, ◌≤◌, length};
    ghost use Rattle.crossbeam_deque.specs.Handles.{worker_capacity, worker_deque, worker_flavor, worker_index, worker_view};
    ghost use Rattle.ol_pool.specs.Deques.{AllBelow};
    ghost use Rattle.ol_pool.specs.Owned.{OwnState};

    ghost Value = { OwnState };

    ghost view = { λ own. record { deque = worker_deque own.deque; log = worker_view own.deque } };

    ghost invariant = { λ own.
        (worker_flavor own.deque ≡ 0)
        × (65 ≤ worker_capacity own.deque)
        × (worker_index own.deque ≤ length (worker_view own.deque).sent + 1)
        × ((worker_view own.deque).stage ≡ 2)
        × AllBelow (worker_view own.deque).bound (worker_view own.deque).given };
}

// Tells a new deque the bound of all cells: it is put and taken out again before there is a cell.
fn tell(deque: &mut Owner, bound: u32)
    requires fifo { worker_flavor deque.old ≡ 0 }
    requires room { 65 ≤ worker_capacity deque.old }
    requires fresh { (worker_view deque.old ≡ untold) × (worker_index deque.old ≡ 0) }
    ensures deque { worker_deque deque.new ≡ worker_deque deque.old }
    ensures fifo { worker_flavor deque.new ≡ 0 }
    ensures room { 65 ≤ worker_capacity deque.new }
    ensures index { worker_index deque.new ≤ 1 }
    ensures opened { worker_view deque.new ≡ opened bound }
{
    let Ok(()) = deque.push_as::<Tells>(bound) else {
        unreachable!()
    };
    let Some(_) = deque.pop_as::<Opens>() else {
        unreachable!()
    };
}

impl Own {
    /// An open deque without a cell, for cells below `bound`, and its other side.
    pub(crate) fn new(alloc: Global, bound: u32) -> Result<(Own, Thief), NoMemory>
        ensures own { IfOk result (λ made. made.0.log ≡ opened bound) }
        ensures thief { IfOk result (λ made. stealer_deque made.1 ≡ made.0.deque) }
    {
        // One slot for the bound, and 64 more.
        let mut deque = Owner::fifo_as(alloc, 65)?;
        let thief = deque.stealer()?;
        tell(&mut deque, bound);
        Ok((Own { deque }, thief))
    }

    /// Access for another hand.
    pub(crate) fn lend(&mut self) -> Reach
        requires { 1 < self.old.log.parts }
        ensures own { self.new ≡ record self.old { log = lends self.old.log } }
        ensures access { result ≡ new_reach self.old.deque self.old.log.bound }
    {
        Reach::new(self.deque.another::<Lends>())
    }

    /// Puts a cell at the back.
    ///
    /// `Err`: the deque had to grow, and no memory was found. It gives the cell back.
    pub(crate) fn put(&mut self, tally: &mut Tally, cell: u32) -> Result<(), u32>
        requires below { cell < self.old.log.bound }
        ensures sent { OnOk result
            (self.new ≡ record self.old { log = puts self.old.log (cell ∷ []) }) }
        ensures unchanged { OnErr result (self.new ≡ self.old) }
        ensures accepted { OnOk result (tally.new ≡ tally.old) }
        ensures refused { OnErr result (CountedRefusal tally.old tally.new) }
        ensures many { OnErr result (64 ≤ length self.old.log.sent) }
        ensures back { IfErr result (λ returned. returned ≡ cell) }
    {
        tally.put::<Fair, Puts>(&mut self.deque, cell)
    }

    /// Takes the cell at the front, if there is one.
    pub(crate) fn next(&mut self, tally: &mut Tally) -> Option<u32>
        ensures own { MatchOption result (self.new ≡ self.old)
            (λ cell. self.new ≡ record self.old { log = gets self.old.log (cell ∷ []) }) }
        ensures counted { MatchOption result (CountedEmpty tally.old tally.new)
            (λ _. tally.new ≡ tally.old) }
    {
        tally.take::<Fair, Gets>(&mut self.deque)
    }

    /// Law: it is open.
    pub(crate) fn is_open(&self)
        ensures { self.now.log.stage ≡ 2 }
    {
        let _ = &self.deque;
    }

    /// Law: the cells that it gave are below its bound.
    pub(crate) fn gave_below(&self)
        ensures { AllBelow self.now.log.bound self.now.log.given }
    {
        let _ = &self.deque;
    }
}
