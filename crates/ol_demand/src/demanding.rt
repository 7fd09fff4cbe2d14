//! The whole on-demand reduction.

ghost use Rattle.std.specs.Prelude.{◌≡◌, ◌+◌, ◌-◌, ◌*◌, ◌<◌, ◌≤◌, ◌↔◌, length, false, IfOk, OnErr};
ghost use Rattle.ol_net.specs.Numbered.{net_of};
ghost use Rattle.ol_readback.specs.Sources.{HasHeadsOf};
ghost use Rattle.ol_readback.specs.Texts.{AreNamed};
ghost use Rattle.ol_demand.specs.Demands.{HasMoreSteps};
ghost use Rattle.ol_demand.specs.Answers.{start_of, IsAnswer, IsSpent, IfDone, journal_of, IsNeeded, StopsOnTheWay};

use crate::answers::Demanded;
use crate::asking::Chains;
use ol_limits::NoMemory;
use ol_net::Net;
use ol_readback::{ReadTree, read};
use ol_rules::UnderWay;
use std::alloc::Global;

/// The term that a net represents, read from free port 0 by on-demand reduction: only the active
/// pairs that its chains meet are rewritten. The net has given at most 2,000,000,000 numbers minus
/// four for each interaction that the fuel allows, `heads` is at least 1, and the net has a free
/// port.
///
/// `Done` has the tree, for whose first `heads` places heads were computed, and the trace. Each
/// later place is `Cut`, and so is a place whose chain would make more than twice as many crossings
/// as there are nodes. `Spent` is returned exactly if the whole reduction has more than `fuel`
/// interactions, and has the trace of the first `fuel` interactions. The net is the result of the
/// trace. `NoMemory`: no memory was found, and the net is the result of some number of the first
/// interactions.
///
/// Each pair of the trace is, by birth names, rewritten in every reduction to normal form, and each
/// head of the tree is the head of the initial net, by paths of any length.
pub fn demand(alloc: Global, net: &mut Net, fuel: u32, heads: u32) -> Result<Demanded, NoMemory>
    requires few { length net.old.nodes + 4 * fuel ≤ 2000000000 }
    requires heads { 1 ≤ heads }
    requires root { 0 < net.old.free }
    ensures answer { IfOk result (IsAnswer net.old heads fuel net.new) }
    ensures spent { IfOk result (λ d. IsSpent d ↔ HasMoreSteps (start_of net.old) heads fuel) }
    ensures needed { IfOk result (λ d. IsNeeded (start_of net.old) (journal_of d)) }
    ensures heads { IfOk result (λ d. IfDone d (HasHeadsOf (net_of net.old) false)) }
    ensures names { IfOk result (λ d. IfDone d (AreNamed (net.old.free - 1))) }
    ensures free { IfOk result (λ d. net.new.free ≡ net.old.free) }
    ensures no_memory { OnErr result (StopsOnTheWay net.old heads fuel net.new) }
{
    net.is_net();
    let run = UnderWay::new(alloc, net);
    let mut chains = Chains { run, fuel };
    let Some(nodes) = read(alloc, &mut chains, net, heads)? else {
        return Ok(Demanded::Spent {
            journal: chains.run.journal,
        });
    };
    Ok(Demanded::Done {
        tree: ReadTree::of(nodes),
        journal: chains.run.journal,
    })
}
