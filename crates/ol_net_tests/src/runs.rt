//! Whole runs of one small term.

use crate::small_nets::{Small, net_of};
use ol_rules::{counts, run};
use std::alloc::Global;
use std::test::Fail;

/// How a run ends, how many entries it has and nodes it leaves, the rules, and the first entry.
fn ran(alloc: Global, fuel: u32) -> Result<String, Fail> {
    let mut net = net_of(alloc, Small::Twice)?;
    if fuel > 100 {
        return Err("far")?;
    }
    let ran = run(alloc, &mut net, fuel)?;
    let (ended, length, nodes) = (ran.ended, ran.journal.len(), net.nodes());
    let counts = counts(&ran.journal);
    let first = ran.journal.get(0);
    Ok(format!(in alloc; "{ended:?} {length} {nodes} {counts:?} {first:?}")?)
}

/// Seventeen steps leave an identity, and sixteen are one too few.
#[test]
fn seventeen_steps_leave_an_identity(rt: HostRuntime) -> Result<(), Fail> {
    for (fuel, wanted) in [
        (
            17,
            b"Done 17 2 Counts { beta: 2, fan: 1, croissant: 3, bracket: 1, cross_fan: 2, \
            cross_croissant: 6, cross_bracket: 2, erase: 0 } \
            Some(Entry { rule: Beta, first: Init(0), second: Init(1) })"
                .as_slice(),
        ),
        (
            16,
            b"Spent 16 4 Counts { beta: 2, fan: 1, croissant: 2, bracket: 1, cross_fan: 2, \
            cross_croissant: 6, cross_bracket: 2, erase: 0 } \
            Some(Entry { rule: Beta, first: Init(0), second: Init(1) })"
                .as_slice(),
        ),
    ] {
        let text = ran(rt.alloc(), fuel)?;
        assert!(rt; text.as_bytes() == wanted, "{text}");
    }
    Ok(())
}
