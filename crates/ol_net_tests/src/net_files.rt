//! Net files that are read, written and refused.

use crate::small_nets::{Small, net_of};
use ol_netfile::{read_net, write_net};
use ol_rules::run;
use std::alloc::Global;
use std::test::Fail;

/// The text of a small net after at most so many steps.
fn written(alloc: Global, small: Small, steps: u32) -> Result<Vec<u8>, Fail> {
    let mut net = net_of(alloc, small)?;
    if steps > 100 {
        return Err("far")?;
    }
    run(alloc, &mut net, steps)?;
    if net.nodes() > 1_000 || net.free_ports() > 1_000 {
        return Err("large")?;
    }
    Ok(write_net(alloc, &net)?)
}

/// A net that was read, and one after a step: numbers are gone, and the nodes that are left are
/// ranked.
#[test]
fn writes_what_was_read_and_ranks_nodes(rt: HostRuntime) -> Result<(), Fail> {
    for (small, steps, wanted) in [
        (
            Small::Stuck,
            0,
            b"ol net 1\nfree 4\nnode fan 0\nnode lam 0\n\
            link f0 0.1\nlink f1 0.2\nlink f2 1.1\nlink f3 1.2\nlink 0.0 1.0\n"
                .as_slice(),
        ),
        (
            Small::Crossed,
            1,
            b"ol net 1\nfree 3\nnode bracket 0\nnode bracket 0\nnode lam 2\n\
            link f0 2.0\nlink f1 0.0\nlink f2 1.0\nlink 0.1 2.1\nlink 1.1 2.2\n"
                .as_slice(),
        ),
    ] {
        let text = written(rt.alloc(), small, steps)?;
        assert!(rt; text.as_slice() == wanted);
    }
    Ok(())
}

/// Why a text gives no net.
fn refusal(alloc: Global, text: &str) -> Result<String, Fail> {
    if text.len() > 1_000 {
        return Err("long")?;
    }
    let fault = read_net(alloc, text.as_bytes()).err().ok_or("a net")?;
    Ok(format!(in alloc; "{fault:?}")?)
}

/// Rows parted by `;`: a fault, and after `|` a text that has it. A fault of `Net::build` is of the
/// nodes and links in their order. Each line of the grammar is broken once, and texts end too early.
#[test]
fn finds_faults(rt: HostRuntime) -> Result<(), Fail> {
    let rows = str::from_utf8(
        b"Build { fault: Loose { port: Of { node: NodeId(0), slot: 0 } } }|ol net 1\nfree 4\nnode fan 0\nnode lam 0\nlink f0 0.1\nlink f1 0.2\nlink f2 1.1\nlink f3 1.2\n;\
        Build { fault: BadIndex { node: 1 } }|ol net 1\nfree 0\nnode lam 0\nnode fan 1000001\n;\
        Build { fault: BadPort { link: 1 } }|ol net 1\nfree 2\nnode eraser -\nlink f0 f1\nlink 0.0 0.1\n;\
        Build { fault: Twice { link: 1 } }|ol net 1\nfree 3\nlink f0 f2\nlink f1 f2\n;\
        BadText { line: 1 }|;\
        BadText { line: 1 }|ol net 2\n;\
        BadText { line: 1 }|ol net 1\r\nfree 0\n;\
        BadText { line: 1 }|ol net 1;\
        BadText { line: 2 }|ol net 1\n;\
        BadText { line: 2 }|ol net 1\nfree 1000001\n;\
        BadText { line: 2 }|ol net 1\nfree 01\n;\
        BadText { line: 2 }|ol net 1\nfree 1;\
        BadText { line: 2 }|ol net 1\nfree \n;\
        BadText { line: 3 }|ol net 1\nfree 1\n\n;\
        BadText { line: 3 }|ol net 1\nfree 0\nnode lam\n;\
        BadText { line: 3 }|ol net 1\nfree 0\nnode lam 4294967296\n;\
        BadText { line: 3 }|ol net 1\nfree 0\nnode lamb 0\n;\
        BadText { line: 3 }|ol net 1\nfree 0\nnode eraser 0\n;\
        BadText { line: 3 }|ol net 1\nfree 0\nnode fan -\n;\
        BadText { line: 3 }|ol net 1\nfree 0\nnode fan  0\n;\
        BadText { line: 3 }|ol net 1\nfree 2\nlink f1 f0\n;\
        BadText { line: 3 }|ol net 1\nfree 2\nlink f0 f0\n;\
        BadText { line: 3 }|ol net 1\nfree 2\nlink f0 f1 \n;\
        BadText { line: 3 }|ol net 1\nfree 2\nlink f0 0.3\n;\
        BadText { line: 3 }|ol net 1\nfree 2\nlink f0 0.00\n;\
        BadText { line: 4 }|ol net 1\nfree 2\nlink f0 f1\nnode lam 0\n;\
        BadText { line: 4 }|ol net 1\nfree 4\nlink f1 f2\nlink f0 f3\n;\
        BadText { line: 4 }|ol net 1\nfree 4\nlink f1 f2\nlink f1 f3\n;\
        BadText { line: 6 }|ol net 1\nfree 4\nnode fan 0\nnode lam 0\nlink f1 0.2\nlink f0 0.1\nlink f2 1.1\nlink f3 1.2\nlink 0.0 1.0\n;\
        BadText { line: 7 }|ol net 1\nfree 0\nnode croissant 7\nnode app 1000000\nlink 0.0 1.2\nlink 0.1 1.0\nlink 1.1 1.3\n"
            .as_slice(),
    )
    .ok()
    .ok_or("rows")?;
    for row in rows.split(';') {
        let (wanted, text) = row.split_once('|').ok_or("no row")?;
        let fault = refusal(rt.alloc(), text)?;
        assert!(rt; fault.as_str() == wanted, "{row}");
    }
    Ok(())
}
