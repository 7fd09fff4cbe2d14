//! Small nets, laid out, rewritten or not, and frozen.

use crate::closing::closed;
use crate::small_nets::Small;
use ol_netfile::write_net;
use ol_reduce::freeze;
use ol_wire::Words;
use std::alloc::Global;
use std::test::Fail;

/// The text of the frozen net, whose nodes are numbered without a gap.
fn frozen(alloc: Global, words: &Words) -> Result<Vec<u8>, Fail> {
    let net = freeze(alloc, words)?;
    if net.nodes() != net.born() || net.nodes() > 1_000 || net.free_ports() > 1_000 {
        return Err("large")?;
    }
    Ok(write_net(alloc, &net)?)
}

/// Untouched words give the net, and four rewrites leave an identity.
#[test]
fn words_are_frozen(rt: HostRuntime) -> Result<(), Fail> {
    for (small, cells, wanted) in [
        (
            Small::Links,
            [].as_slice(),
            b"ol net 1\nfree 4\nnode app 0\nnode lam 0\nnode eraser -\nnode croissant 7\n\
            node eraser -\nlink f0 0.1\nlink f1 3.0\nlink f2 f3\nlink 0.0 1.0\nlink 0.2 2.0\n\
            link 1.1 1.2\nlink 3.1 4.0\n"
                .as_slice(),
        ),
        (
            Small::Once,
            [0, 2, 6, 9].as_slice(),
            b"ol net 1\nfree 1\nnode lam 0\nnode croissant 0\n\
            link f0 0.0\nlink 0.1 1.1\nlink 0.2 1.0\n"
                .as_slice(),
        ),
    ] {
        let words = closed(rt.alloc(), small, 4, cells)?;
        let text = frozen(rt.alloc(), &words)?;
        assert!(rt; text.as_slice() == wanted);
    }
    Ok(())
}
