//! A small net built from its parts, and what is refused.

use crate::small_nets::{Small, net_of};
use ol_net::{Kind, Net, NodeId, Port};
use std::alloc::Global;
use std::test::Fail;

fn of(node: u32, slot: u8) -> Port {
    Port::Of {
        node: NodeId(node),
        slot,
    }
}

/// What two nodes that face each other tell, the numbers of their net, and a partner.
fn told(alloc: Global) -> Result<String, Fail> {
    let net = net_of(alloc, Small::Stuck)?;
    let facing = [net.facing(NodeId(0)), net.facing(NodeId(1))];
    let numbers = [net.stuck(), net.nodes(), net.free_ports(), net.top_index()];
    let partner = net.partner(Port::Free(3));
    Ok(format!(in alloc; "{facing:?} {numbers:?} {partner:?}")?)
}

#[test]
fn counts_a_stuck_pair_once(rt: HostRuntime) -> Result<(), Fail> {
    let text = told(rt.alloc())?;
    let wanted = b"[Stuck, Stuck] [1, 2, 4, 0] Some(Of { node: NodeId(1), slot: 2 })".as_slice();
    assert!(rt; text.as_bytes() == wanted, "{text}");
    Ok(())
}

/// Where indexes of up to 2 are allowed: what an abstraction of an index, whose slots are linked, and
/// so many free ports come to.
fn built(alloc: Global, index: u32, free: u32) -> Result<String, Fail> {
    let nodes = vec![in alloc; (Kind::Lam, index)]?;
    let links = vec![in alloc; (Port::Free(0), of(0, 0)), (of(0, 1), of(0, 2))]?;
    let nodes = Net::build_to(alloc, 2, free, nodes, links).map(|net| net.nodes());
    Ok(format!(in alloc; "{nodes:?}")?)
}

/// The faults that `net_files` has not: an index above the greatest, and a free port that is loose.
#[test]
fn refuses_indexes_above_a_top_of_two(rt: HostRuntime) -> Result<(), Fail> {
    for (index, free, wanted) in [
        (2, 1, b"Ok(1)".as_slice()),
        (3, 1, b"Err(BadIndex { node: 0 })".as_slice()),
        (2, 2, b"Err(Loose { port: Free(1) })".as_slice()),
    ] {
        let text = built(rt.alloc(), index, free)?;
        assert!(rt; text.as_bytes() == wanted, "{text}");
    }
    Ok(())
}
