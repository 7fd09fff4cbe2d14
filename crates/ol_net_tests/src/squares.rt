//! Both orders of two pairs of a small net, and what is refused.

ghost use Rattle.std.specs.Prelude.{◌≤◌, IfOk, length};

use crate::small_nets::{Small, net_of};
use ol_diamond::{Square, two_orders};
use ol_net::{Net, NodeId};
use ol_rules::run;
use std::alloc::{AllocError, Global};
use std::test::Fail;

/// The net after two steps. A croissant, node 3, and a bracket, node 5, each face a copy of an
/// abstraction, nodes 11 and 12.
fn after_two(alloc: Global) -> Result<Net, Fail>
    ensures { IfOk result (λ net. length net.nodes ≤ 100) }
{
    let mut net = net_of(alloc, Small::Twice)?;
    run(alloc, &mut net, 2)?;
    if net.born() > 100 {
        return Err("large")?;
    }
    Ok(net)
}

/// The rules of a square, and what the two orders leave: the numbers of the new nodes change places.
fn shown(alloc: Global, square: &Square) -> Result<String, AllocError> {
    let rules = [square.rule_a, square.rule_b];
    let born = [square.ab.born(), square.ba.born()];
    let after_ab = [square.ab.kind_of(NodeId(13)), square.ab.kind_of(NodeId(15))];
    let after_ba = [square.ba.kind_of(NodeId(13)), square.ba.kind_of(NodeId(18))];
    format!(in alloc; "{rules:?} {born:?} {after_ab:?} {after_ba:?}")
}

/// Both orders at two nodes of the net after two steps.
fn orders(alloc: Global, first: u32, second: u32) -> Result<String, Fail> {
    let net = after_two(alloc)?;
    match two_orders(&net, NodeId(first), NodeId(second)) {
        Ok(square) => Ok(shown(alloc, &square)?),
        Err(fault) => Ok(format!(in alloc; "{fault:?}")?),
    }
}

/// Each pair has its rule in both orders. Two nodes of one pair are refused, and a node in no active
/// pair.
#[test]
fn rewrites_in_both_orders(rt: HostRuntime) -> Result<(), Fail> {
    for (second, wanted) in [
        (
            5,
            b"[CrossCroissant, CrossBracket] [19, 19] \
            [Some((Croissant, 0)), Some((Lam, 0))] [Some((Bracket, 0)), Some((Lam, 0))]"
                .as_slice(),
        ),
        (11, b"SamePair".as_slice()),
        (9, b"NotActive".as_slice()),
    ] {
        let text = orders(rt.alloc(), 3, second)?;
        assert!(rt; text.as_bytes() == wanted, "{text}");
    }
    Ok(())
}
