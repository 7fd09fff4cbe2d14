//! Traces that tell rules and waves, whole and broken. The texts are another program's.

use crate::checks::found;
use crate::small_nets::{Small, net_of};
use ol_diamond::waves;
use ol_rules::run;
use ol_view::trace_text_2;
use std::alloc::Global;
use std::test::Fail;

/// The trace of a run of (\x. x x) (\y. y), then how many waves it has, the first, and that past the
/// last.
fn traced(alloc: Global) -> Result<Vec<u8>, Fail> {
    let net = net_of(alloc, Small::Twice)?;
    let mut last = net.copy()?;
    let ran = run(alloc, &mut last, 100)?;
    let mut text = trace_text_2(alloc, &net, &ran.journal)?;
    let list = waves(alloc, &net, &ran.journal)?;
    let (length, first, past) = (list.len(), list.get(0), list.get(17));
    let told = format!(in alloc; "{length} {first:?} {past:?}")?;
    text.extend_from_slice(told.as_bytes())?;
    Ok(text)
}

/// Each rule but `erase`, and pairs side by side.
#[test]
fn traces_waves(rt: HostRuntime) -> Result<(), Fail> {
    let text = traced(rt.alloc())?;
    assert!(rt;
        text.as_slice()
            == b"ol trace 2\nbeta 1 0 1\ncross-fan 2 6 7\ncross-croissant 3 3 1.2\nbeta 4 2 2.2\n\
            cross-bracket 3 5 1.3\ncross-croissant 4 4 4.2\ncross-fan 3 8 1.1\nfan 4 1.0 6.0\n\
            cross-croissant 4 2.1 6.1\ncroissant 5 2.0 8.0\ncross-bracket 4 4.1 6.2\n\
            bracket 5 4.0 10.0\ncross-croissant 5 5.1 10.1\ncroissant 6 5.0 12.0\n\
            cross-croissant 5 5.2 8.1\ncross-croissant 6 12.1 14.1\ncroissant 7 14.0 15.0\n\
            17 Some(1) None"
                .as_slice()
    );
    Ok(())
}

/// Rows parted by `;`: what a text is found to be, and the text after `|`. A wrong rule, a wrong wave
/// and a pair that isn't active; each line of the grammar, broken once.
#[test]
fn finds_runs_with_waves(rt: HostRuntime) -> Result<(), Fail> {
    let rows = str::from_utf8(
        b"Complete|ol trace 2\nbeta 1 0 1\ncross-croissant 2 2 3\ncross-croissant 3 4 1.1\ncroissant 4 1.0 2.0\n;\
        Run { k: 0 }|ol trace 2\n;\
        Run { k: 1 }|ol trace 2\nbeta 1 0 1\n;\
        NotARun { line: 2 }|ol trace 2\nfan 1 0 1\n;\
        NotARun { line: 2 }|ol trace 2\nbeta 2 0 1\n;\
        NotARun { line: 2 }|ol trace 2\nbeta 0 0 1\n;\
        NotARun { line: 2 }|ol trace 2\nbeta 4294967295 0 1\n;\
        NotARun { line: 2 }|ol trace 2\nbeta 1 2 3\n;\
        NotARun { line: 2 }|ol trace 2\nfan 1 0 1\nbeta 01 0 1\n;\
        NotARun { line: 4 }|ol trace 2\nbeta 1 0 1\ncross-croissant 2 2 3\ncross-fan 3 4 1.1\n;\
        NotARun { line: 4 }|ol trace 2\nbeta 1 0 1\ncross-croissant 2 2 3\ncross-croissant 2 4 1.1\n;\
        NotARun { line: 4 }|ol trace 2\nbeta 1 0 1\ncross-croissant 2 2 3\ncross-croissant 4 4 1.1\n;\
        NotARun { line: 4 }|ol trace 2\nbeta 1 0 1\ncross-croissant 2 2 3\ncross-croissant 2 2 3\n;\
        BadText { line: 1 }|ol trace 2;\
        BadText { line: 1 }|ol trace 2\r\nbeta 1 0 1\n;\
        BadText { line: 1 }|ol trace 02\n;\
        BadText { line: 1 }|ol trace 2 \n;\
        BadText { line: 2 }|ol trace 2\nbeta 01 0 1\n;\
        BadText { line: 2 }|ol trace 2\nbeta 00 0 1\n;\
        BadText { line: 2 }|ol trace 2\nbeta 4294967296 0 1\n;\
        BadText { line: 2 }|ol trace 2\nbeta +1 0 1\n;\
        BadText { line: 2 }|ol trace 2\nbeta  1 0 1\n;\
        BadText { line: 2 }|ol trace 2\nbeta 1  0 1\n;\
        BadText { line: 2 }|ol trace 2\nbeta 1 0  1\n;\
        BadText { line: 2 }|ol trace 2\n beta 1 0 1\n;\
        BadText { line: 2 }|ol trace 2\nbeta 1 0 1 \n;\
        BadText { line: 2 }|ol trace 2\nbeta 1 0 1\r\n;\
        BadText { line: 2 }|ol trace 2\nbeta 1 0 1;\
        BadText { line: 2 }|ol trace 2\nbeta 1 0\n;\
        BadText { line: 2 }|ol trace 2\nbeta 0 1\n;\
        BadText { line: 2 }|ol trace 2\n0 1\n;\
        BadText { line: 2 }|ol trace 2\n\n;\
        BadText { line: 2 }|ol trace 2\nbeta 1 1 0\n;\
        BadText { line: 2 }|ol trace 2\nbeta 1 0 0\n;\
        BadText { line: 2 }|ol trace 2\nBeta 1 0 1\n;\
        BadText { line: 2 }|ol trace 2\nbet 1 0 1\n;\
        BadText { line: 2 }|ol trace 2\nbetas 1 0 1\n;\
        BadText { line: 2 }|ol trace 2\nbeta1 0 1\n;\
        BadText { line: 2 }|ol trace 2\nlam 1 0 1\n;\
        BadText { line: 2 }|ol trace 2\ncross 1 0 1\n;\
        BadText { line: 2 }|ol trace 2\ncross-beta 1 0 1\n;\
        BadText { line: 2 }|ol trace 2\nbeta 01 0 1\nfan 1 0 1\n;\
        BadText { line: 2 }|ol trace 1\nbeta 1 0 1\n"
            .as_slice(),
    )
    .ok()
    .ok_or("rows")?;
    for row in rows.split(';') {
        let (wanted, text) = row.split_once('|').ok_or("no row")?;
        let found = found(rt.alloc(), text)?;
        assert!(rt; found.as_str() == wanted, "{row}");
    }
    Ok(())
}
