//! A hand's search over its pool.
ghost use Rattle.std.specs.Prelude.{◌≡◌, ◌≢◌, ℕ, ◌<◌};
ghost use Rattle.ol_pool.specs.Pools.{IsHandOf, part_of};

use crate::hands::Hand;
use crate::looks::{Look, Seen};
use crate::pool::Pool;
use std::collections::LinkedList;

/// What a look of a hand at its pool leaves unchanged: the pool, the hand and its number, the cells
/// that it put, and its count of refused puts. No value of this type exists at run time.
pub struct Fixed<'a> {
    pub(crate) pool: &'a Pool,
    pub(crate) number: u32,
    pub(crate) sent: LinkedList<u32>,
    pub(crate) refused: u64,
    pub(crate) hand: &'a mut (),
}

/// The parts of a pool, from the side of a hand.
#[derive(Drop)]
pub struct PoolLook<'a> {
    pool: &'a Pool,
    hand: &'a mut Hand,
    ghost of: { IsHandOf hand.now pool.now },
}

impl<'a> PoolLook<'a> {
    /// The parts of the pool to which the hand belongs. Takes no memory.
    pub fn of(pool: &'a Pool, hand: &'a mut Hand) -> PoolLook<'a>
        requires { IsHandOf hand.old pool.now }
        ensures same_reference { result.hand.ghost_name ≡ hand.entry.ghost_name }
        ensures hand { result.hand.now ≡ hand.old }
        ensures pool { result.pool ≡ pool.entry }
    {
        PoolLook { pool, hand }
    }
}

impl<'a> Look for PoolLook<'a> {
    ghost use Rattle.ol_pool.specs.Pools.{part_of};
    ghost use Rattle.ol_pool.specs.Fixed.{fixed};

    type Kept = Fixed<'a>;

    ghost number = { λ s. s.pool.now.hands };

    ghost part = { λ s p. part_of s.hand.now p };

    ghost kept = { λ s. fixed s.pool s.hand };

    fn parts(&self) -> u32 {
        self.hand.counts();
        self.pool.hands()
    }

    fn look(&mut self, at: u32) -> Seen {
        self.hand.look(self.pool, at)
    }
}
