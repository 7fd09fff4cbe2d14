//! Traces of small terms, whole and broken, and nets after some leads.

ghost use Rattle.std.specs.Prelude.{◌≤◌, length};

use crate::small_nets::{Small, net_of};
use ol_net::Net;
use ol_rules::run;
use ol_view::{Check, Checker, after, check, show, trace_text};
use std::alloc::Global;
use std::test::Fail;

/// The trace of a run of (\x. x) (\y. y).
fn traced(alloc: Global) -> Result<Vec<u8>, Fail> {
    let mut net = net_of(alloc, Small::Once)?;
    let ran = run(alloc, &mut net, 100)?;
    Ok(trace_text(alloc, &ran.journal)?)
}

/// The same term's net after some leads.
fn led(alloc: Global, leads: u32) -> Result<Vec<u8>, Fail>
    requires { leads ≤ 100 }
{
    let net = net_of(alloc, Small::Once)?;
    let led = after(alloc, &net, leads)?;
    Ok(show(alloc, &led.net)?)
}

#[test]
fn traces_runs_and_shows_nets(rt: HostRuntime) -> Result<(), Fail> {
    let trace = traced(rt.alloc())?;
    let led = led(rt.alloc(), 1)?;
    assert!(rt;
        trace.as_slice() == b"ol trace 1\n0 1\n2 3\n4 1.1\n1.0 2.0\n".as_slice()
            && led.as_slice()
                == b"nodes 3\nf0 2.1\n2 croissant 0 3.0 f0\n3 lam 1 2.0 4.1 4.0\n\
                4 croissant 1 3.2 3.1\n"
                    .as_slice()
    );
    Ok(())
}

/// What is found of a text that is fed byte by byte.
fn found_by_bytes(alloc: Global, net: &Net, text: &[u8]) -> Result<Check, Fail>
    requires { length net.now.nodes ≤ 100 }
{
    let mut checker = Checker::new(alloc, net)?;
    for at in 0..text.len() {
        if let Some(found) = checker.feed(&text[at..at + 1])? {
            return Ok(found);
        }
    }
    Ok(checker.finish())
}

/// What a text is found to be, whole and byte by byte, against the net of (\x. x) (\y. y).
pub fn found(alloc: Global, text: &str) -> Result<String, Fail> {
    let net = net_of(alloc, Small::Once)?;
    let found = check(alloc, &net, text.as_bytes())?;
    let fed = found_by_bytes(alloc, &net, text.as_bytes())?;
    if fed != found {
        return Err(Fail::from("it is found otherwise byte by byte"));
    }
    Ok(format!(in alloc; "{found:?}")?)
}

/// Rows parted by `;`: what a text is found to be, and the text after `|`. Each line of the grammar is
/// broken once. The line of a pair that isn't active comes before a line that is bad, and the other
/// way round.
#[test]
fn finds_runs_and_bad_lines(rt: HostRuntime) -> Result<(), Fail> {
    let rows = str::from_utf8(b"Complete|ol trace 1\n0 1\n2 3\n4 1.1\n1.0 2.0\n;\
        Run { k: 0 }|ol trace 1\n;\
        Run { k: 2 }|ol trace 1\n0 1\n2 3\n;\
        NotARun { line: 2 }|ol trace 1\n2 3\n;\
        NotARun { line: 2 }|ol trace 1\n0 2\n;\
        NotARun { line: 2 }|ol trace 1\n0 9\n;\
        NotARun { line: 2 }|ol trace 1\n4294967294 4294967295\n;\
        NotARun { line: 2 }|ol trace 1\n2 3\n3 2\n;\
        NotARun { line: 4 }|ol trace 1\n0 1\n2 3\n2 3\n4 1.1\n1.0 2.0\n;\
        NotARun { line: 4 }|ol trace 1\n0 1\n2 3\n4 0.1\n;\
        NotARun { line: 4 }|ol trace 1\n0 1\n2 3\n4 2.1\n;\
        NotARun { line: 4 }|ol trace 1\n0 1\n2 3\n4 1.3\n;\
        NotARun { line: 4 }|ol trace 1\n0 1\n2 3\n4 4294967295.3\n;\
        BadText { line: 1 }|;\
        BadText { line: 1 }|ol trace 1;\
        BadText { line: 1 }|ol trace 3\n;\
        BadText { line: 1 }|ol trace 1 \n0 1\n;\
        BadText { line: 1 }|ol trace 1\r\n0 1\n;\
        BadText { line: 1 }|0 1\n;\
        BadText { line: 2 }|ol trace 1\n0 0\n;\
        BadText { line: 2 }|ol trace 1\n0 1;\
        BadText { line: 2 }|ol trace 1\n0  1\n;\
        BadText { line: 2 }|ol trace 1\n 0 1\n;\
        BadText { line: 2 }|ol trace 1\n0 1 \n;\
        BadText { line: 2 }|ol trace 1\n0 1\r\n;\
        BadText { line: 2 }|ol trace 1\n00 1\n;\
        BadText { line: 2 }|ol trace 1\n0 01\n;\
        BadText { line: 2 }|ol trace 1\n0 4294967296\n;\
        BadText { line: 2 }|ol trace 1\n0 99999999999999999999\n;\
        BadText { line: 2 }|ol trace 1\n0 1.4\n;\
        BadText { line: 2 }|ol trace 1\n0 1.00\n;\
        BadText { line: 2 }|ol trace 1\n0 1.\n;\
        BadText { line: 2 }|ol trace 1\n0\n;\
        BadText { line: 2 }|ol trace 1\n0.1 1\n;\
        BadText { line: 2 }|ol trace 1\n1.1 1.0\n;\
        BadText { line: 2 }|ol trace 1\n1.1 4\n;\
        BadText { line: 2 }|ol trace 1\n+0 1\n;\
        BadText { line: 2 }|ol trace 1\n3 2\n2 3\n;\
        BadText { line: 3 }|ol trace 1\n0 1\n3 2\n4 1.1\n1.0 2.0\n;\
        BadText { line: 3 }|ol trace 1\n0 1\n\n"
        .as_slice())
    .ok()
    .ok_or("rows")?;
    for row in rows.split(';') {
        let (wanted, text) = row.split_once('|').ok_or("no row")?;
        let found = found(rt.alloc(), text)?;
        assert!(rt; found.as_str() == wanted, "{row}");
    }
    Ok(())
}
