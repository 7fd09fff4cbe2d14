//! Principal ports that are linked to each other.

ghost use Rattle.std.specs.Prelude.{◌≡◌, ◌↔◌, true};
ghost use Rattle.ol_net.specs.Nets.{slot, Linked};
ghost use Rattle.ol_net.specs.Numbered.{net_of};
ghost use Rattle.ol_rules.specs.Waiting.{FindsNode};

use ol_net::{Net, NodeId, Port};

/// The node whose principal port is linked to a port. `None`: there is no such node.
pub fn node_at(net: &Net, port: Port) -> Option<NodeId>
    ensures { FindsNode net.now port result }
{
    net.is_net();
    match net.partner(port) {
        Some(Port::Of { node, slot }) => { if slot == 0 { Some(node) } else { None } }
        Some(Port::Free(_)) => None,
        None => None,
    }
}

/// Whether the principal ports of the two nodes are linked to each other.
pub fn are_facing(net: &Net, x: NodeId, y: NodeId) -> bool
    ensures { (result ≡ true) ↔ Linked (net_of net.now) (slot x.0 0) (slot y.0 0) }
{
    net.is_net();
    match node_at(net, Port::Of { node: x, slot: 0 }) {
        Some(node) => node.0 == y.0,
        None => false,
    }
}
