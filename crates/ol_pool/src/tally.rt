//! What deques answered, counted.
//!
//! These lines alone raise the counts. The rule of the deque, and what each answer of it teaches,
//! are type parameters here: so nothing but the deque's own answer in this very call can show what
//! the contracts ask for, and no call counts for itself.
ghost use Rattle.std.specs.Prelude.{◌≡◌, ◌+◌, ◌<◌, ◌≤◌, ◌⊎◌, ◌^◌, min, [], ◌∷◌, IfErr, MatchOption, MatchResult};
ghost use Rattle.crossbeam_deque.specs.Handles.{view as knows, taken, IsPassOf, SamePass, SameWorker, stealer_deque, stealer_flavor, worker_capacity, worker_flavor, worker_index, worker_port, worker_view};
ghost use Rattle.crossbeam_deque.specs.Steals.{MatchSteal};
ghost use Rattle.crossbeam_deque.specs.Tasks.{Blocks, Finds, FindsFew, Pushes, Takes};
ghost use Rattle.ol_pool.specs.Counted.{CountedEmpty, CountedAgain, CountedRefusal};

use crate::deques::{Access, Log};
use crossbeam_deque::protocol::{Outcome, Protocol};
use crossbeam_deque::{Steal, Stealer, Worker};
use std::alloc::Global;

/// How often a deque answered that it is empty, that it be looked at again, and that it takes no
/// more. Each count stays at its last value, 2^64 - 1.
#[derive(Drop)]
pub(crate) struct Tally {
    empties: u64,
    agains: u64,
    refused: u64,
}

impl Tally {
    /// No answer was counted.
    pub(crate) fn none() -> Tally
        ensures { result ≡ record { empties = 0; agains = 0; refused = 0 } }
    {
        Tally {
            empties: 0,
            agains: 0,
            refused: 0,
        }
    }

    /// The number of refusals.
    pub(crate) fn refused(&self) -> u64
        ensures { result ≡ self.now.refused }
    {
        self.refused
    }

    // One more answer that it is empty.
    fn count_empty(&mut self)
        ensures { CountedEmpty self.old self.new }
    {
        self.empties = self.empties.saturating_add(1);
    }

    /// Puts a cell at the back of the deque. `Err`: the deque gave it back, which is counted.
    pub(crate) fn put<P: Protocol<u32, Log>, M: Outcome<u32, Log>>(
        &mut self,
        deque: &mut Worker<u32, Global, Log, P>,
        cell: u32,
    ) -> Result<(), u32>
        requires pushes { Pushes P.holds (worker_port deque.old) (worker_view deque.old)
            (cell ∷ []) (M.then (worker_view deque.old) (cell ∷ [])) }
        requires full { Blocks P.holds (worker_capacity deque.old) (worker_port deque.old)
            (worker_view deque.old) (M.full (worker_view deque.old)) }
        ensures same { SameWorker deque.old deque.new }
        ensures rule { MatchResult result
            (λ _. M.then (worker_view deque.old) (cell ∷ []) (worker_view deque.new)
            × (worker_index deque.new ≡ worker_index deque.old + 1))
            (λ x. (x ≡ cell) × (worker_view deque.new ≡ worker_view deque.old)
            × (worker_index deque.new ≡ worker_index deque.old)
            × ((2 ^ 62 ≤ worker_index deque.old) ⊎ M.full (worker_view deque.old))) }
        ensures room { IfErr result (λ _. worker_capacity deque.old ≤ worker_index deque.old) }
        ensures counts { MatchResult result (λ _. self.new ≡ self.old)
            (λ _. CountedRefusal self.old self.new) }
    {
        match deque.push_as::<M>(cell) {
            Ok(()) => Ok(()),
            Err(returned) => {
                self.refused = self.refused.saturating_add(1);
                Err(returned)
            }
        }
    }

    /// Takes the cell at the front of the deque. None: the deque was empty, which is counted.
    pub(crate) fn take<P: Protocol<u32, Log>, M: Outcome<u32, Log>>(
        &mut self,
        deque: &mut Worker<u32, Global, Log, P>,
    ) -> Option<u32>
        requires fifo { worker_flavor deque.old ≡ 0 }
        requires takes { Takes P.holds (worker_port deque.old) (worker_view deque.old) 1
            (M.then (worker_view deque.old)) }
        requires empty { Finds P.holds (worker_port deque.old) (worker_view deque.old)
            (M.empty (worker_view deque.old)) }
        ensures same { SameWorker deque.old deque.new
            × (worker_index deque.new ≤ worker_index deque.old) }
        ensures rule { MatchOption result
            ((worker_view deque.new ≡ worker_view deque.old) × M.empty (worker_view deque.old))
            (λ x. M.then (worker_view deque.old) (x ∷ []) (worker_view deque.new)) }
        ensures counts { MatchOption result (CountedEmpty self.old self.new)
            (λ _. self.new ≡ self.old) }
    {
        match deque.pop_as::<M>() {
            Some(cell) => Some(cell),
            None => {
                self.count_empty();
                None
            }
        }
    }

    /// Takes the cell at the front of another's deque. Each answer but a cell is counted.
    pub(crate) fn steal<P: Protocol<u32, Log>, M: Outcome<u32, Log>>(
        &mut self,
        thief: &Stealer<u32, Global, Log, P>,
        access: &mut Access,
    ) -> Steal<u32>
        requires table { IsPassOf (stealer_deque thief.now) access.old }
        requires takes { Takes P.holds access.old.id (knows access.old) 1
            (M.then (knows access.old)) }
        requires empty { FindsFew P.holds (min (stealer_flavor thief.now) 1) access.old.id
            (knows access.old) (M.empty (knows access.old)) }
        ensures same { SamePass access.old access.new }
        ensures rule { MatchSteal result
            ((knows access.new ≡ knows access.old) × M.empty (knows access.old))
            ((knows access.new ≡ knows access.old)
            × ((taken access.old < taken access.new) ⊎ M.empty (knows access.old)))
            (λ x. M.then (knows access.old) (x ∷ []) (knows access.new)) }
        ensures counts { MatchSteal result (CountedEmpty self.old self.new)
            (CountedAgain self.old self.new) (λ _. self.new ≡ self.old) }
    {
        match thief.steal_as::<M>(access) {
            Steal::Success(cell) => Steal::Success(cell),
            Steal::Empty => {
                self.count_empty();
                Steal::Empty
            }
            Steal::Retry => {
                self.agains = self.agains.saturating_add(1);
                Steal::Retry
            }
        }
    }
}
