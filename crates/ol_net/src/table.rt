//! The kind of a node, the ports of a net, the place of a port and its partner, from the tables of
//! a net.

ghost use Rattle.std.specs.Prelude.{◌≡◌, ◌+◌, ◌*◌, ◌^◌, ◌<◌, length};
ghost use Rattle.ol_net.specs.Pairing.{other};
ghost use Rattle.ol_net.specs.Graph.{kind_at, partner_in, IsTabled, place, port_at, has_port, has_slot};

use crate::parts::{Kind, NodeId, Port};

/// The kind and the index of the node with number `n`, if it is live.
pub fn kind_in(nodes: &[Option<(Kind, u32)>], n: usize) -> Option<(Kind, u32)>
    ensures { result ≡ kind_at nodes.now n }
{
    if n < nodes.len() { nodes[n] } else { None }
}

// Whether a node of this kind, if there is one, has the slot.
fn has_slot_in(kind: Option<(Kind, u32)>, slot: u8) -> bool
    ensures { result ≡ has_slot kind slot }
{
    match kind {
        Some(k) => slot < k.0.slots(),
        None => false,
    }
}

/// Whether the net has the port.
pub fn is_port(free: u32, nodes: &[Option<(Kind, u32)>], p: Port) -> bool
    ensures { result ≡ has_port free nodes.now p }
{
    match p {
        Port::Free(k) => k < free,
        Port::Of { node, slot } => has_slot_in(kind_in(nodes, node.0 as usize), slot),
    }
}

/// The port at the other end of a port's link, or `None` if the net has no such port.
pub fn partner_in(
    free: u32,
    nodes: &[Option<(Kind, u32)>],
    partners: &[usize],
    p: Port,
) -> Option<Port>
    requires few { length nodes.now < 2 ^ 31 }
    requires net { IsTabled free nodes.now partners.now }
    ensures { result ≡ partner_in free nodes.now partners.now p }
{
    if !is_port(free, nodes, p) {
        return None;
    }
    let at = place_of(free, p);
    Some(port_at(free, other(partners, at)))
}

/// The partner of the place `at` in the table.
pub fn other(partners: &[usize], at: usize) -> usize
    requires { at < length partners.now }
    ensures { result ≡ other partners.now at }
{
    partners[at]
}

/// The place of a port in the table of a net with `free` free ports. Free ports are first, by
/// number, followed by three places for each node number.
pub fn place_of(free: u32, p: Port) -> usize
    ensures { result ≡ place free p }
{
    match p {
        Port::Free(k) => k as usize,
        Port::Of { node, slot } => free as usize + 3 * node.0 as usize + slot as usize,
    }
}

/// The port at place `k` in the table of a net with `free` free ports.
pub fn port_at(free: u32, k: usize) -> Port
    requires { k < free + 3 * 2 ^ 31 }
    ensures { result ≡ port_at free k }
{
    if k < free as usize {
        return Port::Free(k as u32);
    }
    let rest = k - free as usize;
    Port::Of {
        node: NodeId((rest / 3) as u32),
        slot: (rest % 3) as u8,
    }
}
