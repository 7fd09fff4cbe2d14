//! The calls of a worker: putting a cell and taking a cell.
ghost use Rattle.std.specs.Prelude.{◌≡◌, ◌↔◌, ℕ, ◌<◌, ◌≤◌, ◌∷◌, [], ◌++◌, length, IfErr, IfSome, IfNone, IsNone, IsTrue, OnOk, OnErr};
ghost use Rattle.ol_pool.specs.Looks.{CountsOne, EachMissed, GaveNone, OneGave};
ghost use Rattle.ol_pool.specs.Pools.{IsHandOf, TookFirst, part_of};

use crate::hands::Hand;
use crate::looks::take_from;
use crate::pool::Pool;
use crate::pool_look::PoolLook;

impl Pool {
    /// Adds a cell at the back of the hand's own deque. Never waits for another thread.
    ///
    /// `Err`: the deque had to grow, and no memory was found, which happens only if this hand has
    /// put at least 64 cells. It returns the cell. The pool is unchanged, and `refused` of the hand
    /// rises by 1.
    pub fn put(&self, hand: &mut Hand, cell: u32) -> Result<(), u32>
        requires below { cell < self.now.cells }
        requires hand { IsHandOf hand.old self.now }
        ensures sent { OnOk result
            (hand.new ≡ record hand.old { sent = hand.old.sent ++ cell ∷ [] }) }
        ensures unchanged { OnErr result
            (hand.new ≡ record hand.old { refused = hand.new.refused }) }
        ensures refused { OnErr result (CountsOne hand.old.refused hand.new.refused) }
        ensures many { OnErr result (64 ≤ length hand.old.sent) }
        ensures back { IfErr result (λ returned. returned ≡ cell) }
    {
        hand.put(cell)
    }

    // Takes a cell from the hand's own part, or else from another's.
    fn search(&self, hand: &mut Hand) -> Option<u32>
        requires hand { IsHandOf hand.old self.now }
        ensures hand { IsHandOf hand.new self.now }
        ensures number { hand.new.number ≡ hand.old.number }
        ensures sent { hand.new.sent ≡ hand.old.sent }
        ensures refused { hand.new.refused ≡ hand.old.refused }
        ensures one { IfSome result (OneGave self.now.hands (part_of hand.old) (part_of hand.new)) }
        ensures first { IfSome result (TookFirst hand.old hand.new) }
        ensures all { IfNone result
            (EachMissed self.now.hands (part_of hand.old) (part_of hand.new)) }
        ensures stay { IfNone result
            ((p : ℕ) → GaveNone (part_of hand.old p) (part_of hand.new p)) }
    {
        let own = hand.number();
        let mut looks = PoolLook::of(self, hand);
        take_from(&mut looks, own)
    }

    /// Takes a cell: first from the hand's own deque, then from the other deques in the order of
    /// their numbers, beginning after the hand's number and continuing from 0. Never waits for
    /// another thread, and takes no memory.
    ///
    /// A cell comes from a deque only if each earlier deque in this order gave none: it answered
    /// that it is empty, or answered twice that the call should try again. The hand's counts of
    /// these answers show this, unless a count is at its greatest value. That a deque was empty
    /// isn't promised.
    ///
    /// `None`: each deque gave none in this sense, and `missed` of the hand is true.
    pub fn take(&self, hand: &mut Hand) -> Option<u32>
        requires hand { IsHandOf hand.old self.now }
        ensures below { IfSome result (λ cell. cell < self.now.cells) }
        ensures missed { IsTrue hand.new.missed ↔ IsNone result }
        ensures hand { IsHandOf hand.new self.now }
        ensures number { hand.new.number ≡ hand.old.number }
        ensures sent { hand.new.sent ≡ hand.old.sent }
        ensures refused { hand.new.refused ≡ hand.old.refused }
        ensures one { IfSome result (OneGave self.now.hands (part_of hand.old) (part_of hand.new)) }
        ensures first { IfSome result (TookFirst hand.old hand.new) }
        ensures all { IfNone result
            (EachMissed self.now.hands (part_of hand.old) (part_of hand.new)) }
        ensures stay { IfNone result
            ((p : ℕ) → GaveNone (part_of hand.old p) (part_of hand.new p)) }
    {
        let taken = self.search(hand);
        hand.given_below();
        hand.remember(taken.is_none());
        taken
    }
}
