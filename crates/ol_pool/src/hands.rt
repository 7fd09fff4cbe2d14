//! Hands: a worker's part of a pool.
ghost use Rattle.std.specs.Prelude.{◌≡◌, ◌≢◌, ◌<◌, ◌≤◌, ◌+◌, [], ◌∷◌, ◌++◌, ℕ, length, Some, slice_get, OnOk, OnErr, IfErr, All};
ghost use Rattle.crossbeam_deque.specs.Handles.{stealer_deque};
ghost use Rattle.ol_pool.specs.Looks.{CountsOne, Tells, HasCounts, part_at};
ghost use Rattle.ol_pool.specs.Pools.{IsHandOf, part_of};
ghost use Rattle.ol_pool.specs.Handed.{IsHand, new_hand};
ghost use Rattle.ol_pool.specs.Deques.{AllBelow};

use crate::home::Home;
use crate::looks::Seen;
use crate::own::Own;
use crate::pool::Pool;
use crate::reach::Reach;
use std::marker::Model;

/// A worker's part of a pool: a deque of its own, from which the other hands steal, and access to
/// the deque of each other hand. Contracts view it as a `HandState`.
///
/// The lists of cells that it put and was given exist in contracts only, and take no memory.
#[derive(Drop)]
pub struct Hand {
    number: u32,
    home: Home,
    // by number, the hand's own too, which isn't used
    others: Vec<Reach>,
    missed: bool,
}

impl Model for Hand {
    ghost use Rattle.ol_pool.specs.Pools.{HandState};

    ghost Value = { HandState };

    ghost use Rattle.ol_pool.specs.Hands.{hand_of};
    ghost use Rattle.ol_pool.specs.Handed.{IsHand};
    ghost use Rattle.std.specs.Prelude.{◌<◌, ◌^◌};

    ghost view = { hand_of };

    ghost invariant = { λ h. IsHand h.number h.home.own h.others.items × (h.home.empties < 2 ^ 64) };
}

impl Hand {
    // A hand that made no call yet.
    pub(crate) fn new(number: u32, own: Own, others: Vec<Reach>) -> Hand
        requires { IsHand number own others.items }
        ensures { result ≡ new_hand number own others.items }
    {
        Hand {
            number,
            home: Home::new(own),
            others,
            missed: false,
        }
    }

    /// The number of the hand, which is also the number of its deque: less than the number of
    /// hands.
    pub fn number(&self) -> u32
        ensures is { result ≡ self.now.number }
        ensures below { result < self.now.pool.hands }
    {
        self.number
    }

    /// Whether its last `take` returned `None`.
    pub fn missed(&self) -> bool
        ensures { result ≡ self.now.missed }
    {
        self.missed
    }

    /// The number of refused puts, at most 2^64 - 1.
    pub fn refused(&self) -> u64
        ensures { result ≡ self.now.refused }
    {
        self.home.refused()
    }

    // Remembers whether a `take` answered None.
    pub(crate) fn remember(&mut self, missed: bool)
        ensures { self.new ≡ record self.old { missed = missed } }
    {
        self.missed = missed;
    }

    /// Theorem: the counts of a hand are numbers of 64 bits.
    pub fn counts(&self)
        ensures { (p : ℕ) → HasCounts (part_of self.now p) }
    {
        let _ = &self.missed;
    }

    /// Theorem: each cell that the hand was given is below the bound of its pool.
    pub fn given_below(&self)
        ensures { (p : ℕ) → All (λ cell. cell < self.now.pool.cells) (part_of self.now p).given }
    {
        self.home.gave_below();
    }

    /// Theorem: the hand's own deque is open: the bound of all cells was put into it and taken out
    /// again.
    pub fn is_open(&self)
        ensures { self.now.stage ≡ 2 }
    {
        self.home.is_open();
    }

    // Puts a cell into its own part.
    pub(crate) fn put(&mut self, cell: u32) -> Result<(), u32>
        requires below { cell < self.old.pool.cells }
        ensures sent { OnOk result
            (self.new ≡ record self.old { sent = self.old.sent ++ cell ∷ [] }) }
        ensures unchanged { OnErr result
            (self.new ≡ record self.old { refused = self.new.refused }) }
        ensures refused { OnErr result (CountsOne self.old.refused self.new.refused) }
        ensures many { OnErr result (64 ≤ length self.old.sent) }
        ensures back { IfErr result (λ returned. returned ≡ cell) }
    {
        self.home.put(cell)
    }

    // Looks at its own part.
    fn look_home(&mut self) -> Seen
        ensures tells { Tells result
            (part_of self.old self.old.number) (part_of self.new self.old.number) }
        ensures others { (q : ℕ) → q ≢ self.old.number → part_of self.new q ≡ part_of self.old q }
        ensures rest { self.new ≡ record self.old { parts = self.new.parts } }
    {
        match self.home.look() {
            Some(cell) => Seen::Cell(cell),
            None => Seen::Empty,
        }
    }

    // Looks at another's part.
    fn look_away(&mut self, pool: &Pool, at: u32) -> Seen
        requires hand { IsHandOf self.old pool.now }
        requires part { at < pool.now.hands }
        requires other { at ≢ self.old.number }
        ensures tells { Tells result (part_of self.old at) (part_of self.new at) }
        ensures others { (q : ℕ) → q ≢ at → part_of self.new q ≡ part_of self.old q }
        ensures rest { self.new ≡ record self.old { parts = self.new.parts } }
    {
        let thief = pool.thief(at);
        let reach = &mut self.others[at as usize];
        reach.look(thief)
    }

    // Looks at one part of the pool.
    pub(crate) fn look(&mut self, pool: &Pool, at: u32) -> Seen
        requires hand { IsHandOf self.old pool.now }
        requires part { at < pool.now.hands }
        ensures tells { Tells result (part_of self.old at) (part_of self.new at) }
        ensures others { (q : ℕ) → q ≢ at → part_of self.new q ≡ part_of self.old q }
        ensures rest { self.new ≡ record self.old { parts = self.new.parts } }
    {
        if at == self.number {
            return self.look_home();
        }
        self.look_away(pool, at)
    }
}
