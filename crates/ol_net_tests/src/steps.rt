//! Small nets, step by step.

use crate::small_nets::{Small, net_of};
use ol_net::{Net, NodeId};
use ol_rules::step;
use ol_view::show;
use std::alloc::Global;
use std::test::Fail;

/// What a step at a node of a small net comes to.
fn answer(alloc: Global, net: &mut Net, at: u32) -> Result<String, Fail> {
    if net.born() > 2_000_000_000 {
        return Err("large")?;
    }
    let rule = step(net, NodeId(at));
    Ok(format!(in alloc; "{rule:?}\n")?)
}

/// What steps at these nodes come to, and the net then.
fn stepped(alloc: Global, small: Small, nodes: &[u32]) -> Result<Vec<u8>, Fail> {
    let mut net = net_of(alloc, small)?;
    let mut text = Vec::new(alloc);
    for at in nodes {
        let answer = answer(alloc, &mut net, *at)?;
        text.extend_from_slice(answer.as_bytes())?;
    }
    let shown = show(alloc, &net)?;
    text.extend_from_slice(&shown)?;
    Ok(text)
}

/// Four steps leave an identity, and a node of no pair has none. Two fans go whose slots 1 are linked:
/// joined to each other they are a loop, which goes too.
#[test]
fn nets_are_stepped(rt: HostRuntime) -> Result<(), Fail> {
    for (small, nodes, wanted) in [
        (
            Small::Once,
            [0, 4, 2, 6, 5].as_slice(),
            b"Ok(Beta)\nErr(NotActive)\nOk(CrossCroissant)\nOk(CrossCroissant)\nOk(Croissant)\n\
            nodes 2\nf0 7.0\n7 lam 0 f0 9.1 9.0\n9 croissant 0 7.2 7.1\n"
                .as_slice(),
        ),
        (
            Small::Loop,
            [0].as_slice(),
            b"Ok(Fan)\nnodes 0\nf0 f1\nf1 f0\n".as_slice(),
        ),
    ] {
        let text = stepped(rt.alloc(), small, nodes)?;
        assert!(rt; text.as_slice() == wanted);
    }
    Ok(())
}
