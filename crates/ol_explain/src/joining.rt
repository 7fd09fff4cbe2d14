//! After which entry of a trace two nodes are joined.

ghost use Rattle.std.specs.Prelude.{◌≡◌, ◌≤◌, true, false, length, IfOk};
ghost use Rattle.ol_net.specs.Nets.{slot, Linked};
ghost use Rattle.ol_view.specs.Checks.{start_net_of_graph};
ghost use Rattle.ol_orders.specs.Replays.{net_here, IsReplay};
ghost use Rattle.ol_explain.specs.Explained.{IsJoinedAfter};
ghost use Rattle.ol_explain.specs.Reasons.{IsReplayed};
ghost use Rattle.ol_limits.specs.Limits.{most_fuel, most_nodes};

use ol_limits::NoMemory;
use ol_net::Net;
use ol_orders::Replay;
use ol_rules::{NodeName, are_facing};
use std::alloc::Global;

// Whether the principal ports of the nodes of these names are joined.
fn are_joined(replay: &Replay, first: NodeName, second: NodeName) -> bool
    requires replay { IsReplayed replay.now }
    ensures joined { result ≡ true → Linked (net_here replay.now) (slot first 0) (slot second 0) }
    ensures apart { result ≡ false
        → Linked (net_here replay.now) (slot first 0) (slot second 0) → ⊥ }
{
    let Some(x) = replay.numbers.node_of(first) else {
        return false;
    };
    let Some(y) = replay.numbers.node_of(second) else {
        return false;
    };
    are_facing(&replay.net, x, y)
}

/// After how many entries of a run from the net the principal ports of two nodes, which are joined
/// in its last net, are joined for the first time: 0 where they are in the first net. `NoMemory`:
/// no memory was found.
pub fn joined_after(
    alloc: Global,
    net: &Net,
    replay: &Replay,
    first: NodeName,
    second: NodeName,
) -> Result<u32, NoMemory>
    requires few { length net.now.nodes ≤ most_nodes }
    requires entries { length replay.now.run.journal ≤ most_fuel }
    requires replay { IsReplay net.now replay.now }
    requires joined { Linked (net_here replay.now) (slot first 0) (slot second 0) }
    ensures { IfOk result
        (IsJoinedAfter (start_net_of_graph net.now) replay.now.run.journal first second) }
{
    net.is_net();
    let mut again = Replay::new(alloc, net)?;
    for k in 0..replay.run.journal.len() {
        if are_joined(&again, first, second) {
            return Ok(k);
        }
        let Some(entry) = replay.run.journal.get(k) else {
            unreachable!()
        };
        if !again.rewrite_named(entry.first, entry.second)? {
            unreachable!()
        }
    }
    Ok(replay.run.journal.len())
}
