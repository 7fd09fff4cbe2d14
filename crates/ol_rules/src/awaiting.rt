//! Node numbers that wait for their turn; they include the numbers of all nodes in active pairs.

ghost use Rattle.std.specs.Prelude.{OnOk};
ghost use Rattle.ol_rules.specs.Waiting.{AreAdded, IsActiveIn, IsBeside};

use crate::facing::node_at;
use ol_limits::NoMemory;
use ol_net::{Facing, Net, NodeId, Port};
use std::collections::BTreeSet;

/// Adds to `waiting` every node of an active pair with a number in `from..to`.
pub fn await_active(
    waiting: &mut BTreeSet<u32>,
    net: &Net,
    from: u32,
    to: u32,
) -> Result<(), NoMemory>
    ensures { OnOk result (AreAdded (IsActiveIn net.now from to) waiting.old waiting.new) }
{
    for n in from..to {
        if let Facing::Active(_) = net.facing(NodeId(n)) {
            let Ok(_) = waiting.insert(n) else {
                return Err(NoMemory);
            };
        }
    }
    Ok(())
}

/// Adds to `waiting` every node whose principal port is linked to an auxiliary port of this node.
pub fn await_beside(waiting: &mut BTreeSet<u32>, net: &Net, at: NodeId) -> Result<(), NoMemory>
    ensures { OnOk result (AreAdded (IsBeside net.now at.0) waiting.old waiting.new) }
{
    net.is_net();
    for slot in 1..3 {
        if let Some(node) = node_at(net, Port::Of { node: at, slot }) {
            let Ok(_) = waiting.insert(node.0) else {
                return Err(NoMemory);
            };
        }
    }
    Ok(())
}
