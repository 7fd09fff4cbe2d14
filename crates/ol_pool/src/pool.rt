//! The pool of cells, shared by the workers.
ghost use Rattle.std.specs.Prelude.{◌≡◌, ◌<◌, length, map};
ghost use Rattle.crossbeam_deque.specs.Handles.{stealer_deque};
ghost use Rattle.ol_pool.specs.Owned.{IsDequeAt};

use crate::deques::Thief;
use std::marker::Model;

/// Cells that wait for a worker: a first-in first-out deque for each hand, from which the other
/// hands steal. No call waits for another thread.
///
/// Contracts view a pool as a `PoolState`: its number of hands, the bound of its cells, and its
/// deques. The cells that passed through it are part of the hands' views.
#[derive(Drop)]
pub struct Pool {
    thieves: Vec<Thief>,
    hands: u32,
    cells: u32,
}

impl Model for Pool {
    ghost use Rattle.std.specs.Prelude.{◌≡◌, length, map};
    ghost use Rattle.crossbeam_deque.specs.Handles.{stealer_deque};
    ghost use Rattle.ol_pool.specs.Pools.{PoolState};

    ghost Value = { PoolState };

    ghost view = { λ pool. record {
      hands = pool.hands;
      cells = pool.cells;
      deques = map (λ t. stealer_deque t) pool.thieves.items;
    } };

    ghost invariant = { λ pool. length pool.thieves.items ≡ pool.hands };
}

impl Pool {
    // The pool of these deques.
    pub(crate) fn of(thieves: Vec<Thief>, hands: u32, cells: u32) -> Pool
        requires { length thieves.items ≡ hands }
        ensures { result ≡ record {
          hands = hands;
          cells = cells;
          deques = map (λ t. stealer_deque t) thieves.items;
        } }
    {
        Pool {
            thieves,
            hands,
            cells,
        }
    }

    /// The bound of the cells: each cell is less than this number. Takes no memory.
    pub fn cells(&self) -> u32
        ensures { result ≡ self.now.cells }
    {
        self.cells
    }

    /// The number of hands. Takes no memory.
    pub fn hands(&self) -> u32
        ensures { result ≡ self.now.hands }
    {
        self.hands
    }

    // The side of a deque from which other hands steal.
    pub(crate) fn thief(&self, at: u32) -> &Thief
        requires { at < self.now.hands }
        ensures { IsDequeAt self.now.deques at (stealer_deque result.now) }
    {
        &self.thieves[at as usize]
    }
}
