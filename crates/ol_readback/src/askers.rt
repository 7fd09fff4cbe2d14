//! The trait of what finds the head of a frame.

ghost use Rattle.std.specs.Prelude.{◌≡◌, ℕ, IfOk, OnErr};
ghost use Rattle.ol_context.specs.Shapes.{Extends};
ghost use Rattle.ol_readback.specs.Frames.{frames_of};
ghost use Rattle.ol_readback.specs.Askers.{Reading, IsLastAsked, IsAnswered, IsStopped, IsHeldIfSome, IsKnownIfSome};

use crate::answers::Head;
use crate::asking::walk_frame;
use crate::frames::Asked;
use ol_context::Values;
use ol_limits::NoMemory;
use ol_net::Net;
use std::alloc::Global;

/// Finds the heads of frames over an `N`, which may change during a reading.
///
/// Three relations between the state at the start of a reading and its current state describe the
/// reading. The contract of `ask` is independent of what they are.
pub trait Asks<N> {
    /// The number of free ports.
    ghost free: { N → ℕ };

    /// The precondition of `ask`.
    ghost ready: { Self → N → Type 0 };

    /// The progress of a reading that started with the first two values, for a number of places
    /// whose heads are computed.
    ghost reads: { Self → N → Self → N → ℕ → Reading → Type 0 };

    /// The reading ends without a tree.
    ghost ends: { Self → N → Self → N → ℕ → Type 0 };

    /// The reading stops because no memory was found.
    ghost stops: { Self → N → Self → N → ℕ → Type 0 };

    /// The head of the last frame. `None`: the reading ends without a tree. `NoMemory`: no memory
    /// was found. Values held before are unchanged.
    fn ask(
        &mut self,
        alloc: Global,
        net: &mut N,
        values: &mut Values,
        asked: &Asked<'_>,
    ) -> Result<Option<Head>, NoMemory>
        requires ready { ready self.old net.old }
        requires asked { IsLastAsked (free net.old) values.old asked.now.frames.now.items
            asked.now.skips.now.items asked.now.at }
        ensures answered { IfOk result
            (IsAnswered reads ends self.old net.old self.new net.new
            (frames_of values.old asked.now.frames.now.items) values.new) }
        ensures stopped { OnErr result
            (IsStopped reads stops self.old net.old self.new net.new
            (frames_of values.old asked.now.frames.now.items)) }
        ensures ready { IfOk result (λ r. ready self.new net.new) }
        ensures free { IfOk result (λ r. free net.new ≡ free net.old) }
        ensures held { IfOk result (IsHeldIfSome values.new) }
        ensures known { IfOk result
            (IsKnownIfSome (free net.new) (frames_of values.old asked.now.frames.now.items)) }
        ensures extends { Extends values.old values.new };

    /// Theorem: a reading may stop in any state.
    ghost may_stop: { (s : Self) (n : N) (s' : Self) (n' : N) (heads : ℕ) (r : Reading) →
        reads s n s' n' heads r → stops s n s' n' heads };
}

/// Finds heads by walks of at most `edges` crossings, over a net that doesn't change.
#[derive(Drop)]
pub struct Walks {
    pub edges: u64,
}

impl<'a> Asks<&'a Net> for Walks {
    ghost use Rattle.std.specs.Prelude.{⊤};
    ghost use Rattle.ol_readback.specs.Walks.{IsReadByWalks};

    ghost free = { λ n. n.now.free };

    ghost ready = { λ w n. ⊤ };

    ghost reads = { λ w n w' n' heads r. IsReadByWalks n.now w.edges n'.now w'.edges heads r };

    ghost ends = { λ w n w' n' heads. ⊥ };

    ghost stops = { λ w n w' n' heads. ⊤ };

    fn ask(
        &mut self,
        alloc: Global,
        net: &mut &'a Net,
        values: &mut Values,
        asked: &Asked<'_>,
    ) -> Result<Option<Head>, NoMemory> {
        let seen: &Net = net;
        seen.is_net();
        let head = walk_frame(alloc, seen, values, asked, self.edges)?;
        Ok(Some(head))
    }

    ghost may_stop = { λ s n s' n' heads r h. tt };
}
