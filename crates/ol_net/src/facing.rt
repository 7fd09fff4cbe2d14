//! Active and stuck pairs of a net.

ghost use Rattle.std.specs.Prelude.{◌≡◌, ℕ, ◌+◌, ◌*◌, ◌^◌, ◌<◌, ◌≤◌, length, true, ◌↔◌};
ghost use Rattle.ol_net.specs.Graph.{Graph, IsTabled, facing_at};
ghost use Rattle.ol_net.specs.Scans.{graph_of, IsLesserOfStuck};
ghost use Rattle.ol_net.specs.Numbered.{net_of};
ghost use Rattle.ol_net.specs.Pairs.{HasStuck};

use crate::parts::{Facing, Kind, NodeId, Port, facing_of};
use crate::table::{kind_in, partner_in};

/// What a node and the node at the other end of its principal port's link are to each other, if
/// that link joins two principal ports.
pub fn facing_in(free: u32, nodes: &[Option<(Kind, u32)>], partners: &[usize], at: NodeId) -> Facing
    requires few { length nodes.now < 2 ^ 31 }
    requires net { IsTabled free nodes.now partners.now }
    ensures { result ≡ facing_at (graph_of free nodes.now partners.now) at }
{
    let Some(here) = kind_in(nodes, at.0 as usize) else {
        return Facing::None;
    };
    let principal = Port::Of { node: at, slot: 0 };
    let Some(Port::Of { node, slot: 0 }) = partner_in(free, nodes, partners, principal) else {
        return Facing::None;
    };
    match kind_in(nodes, node.0 as usize) {
        Some(there) => facing_of(here, there),
        None => Facing::None,
    }
}

/// The number of stuck pairs. Each pair is counted at its node with the smaller number.
pub fn stuck_in(free: u32, nodes: &[Option<(Kind, u32)>], partners: &[usize]) -> u32
    requires few { length nodes.now < 2 ^ 31 }
    requires net { IsTabled free nodes.now partners.now }
    ensures { HasStuck (net_of (graph_of free nodes.now partners.now)) result }
{
    let mut pairs = 0;
    for n in 0..nodes.len() as u32 {
        if is_lesser_of_stuck(free, nodes, partners, NodeId(n)) {
            pairs += 1;
        }
    }
    pairs
}

// Whether the node is in a stuck pair with one of a greater number.
fn is_lesser_of_stuck(
    free: u32,
    nodes: &[Option<(Kind, u32)>],
    partners: &[usize],
    at: NodeId,
) -> bool
    requires few { length nodes.now < 2 ^ 31 }
    requires net { IsTabled free nodes.now partners.now }
    ensures { (result ≡ true) ↔ IsLesserOfStuck (graph_of free nodes.now partners.now) at.0 }
{
    let Facing::Stuck = facing_in(free, nodes, partners, at) else {
        return false;
    };
    match partner_in(free, nodes, partners, Port::Of { node: at, slot: 0 }) {
        Some(Port::Of { node, .. }) => at.0 < node.0,
        _ => false,
    }
}
