//! `steps` at the limits of terms.
use crate::reductions::steps;
use crate::rows::one;
use ol_strategies::Order;
use std::alloc::Global;
use std::fmt::Write;
use std::process::Abort;
use std::test::Fail;

// Asserts how the steps of a text end.
fn assert_end(rt: &impl Abort, alloc: Global, text: &str, end: &[u8]) -> Result<(), Fail> {
    let told = one(alloc, steps(Order::Leftmost, false, false), text)?;
    assert!(rt; told.as_bytes().ends_with(end), "{told}");
    Ok(())
}

#[test]
fn a_step_may_give_too_large_a_term(rt: HostRuntime) -> Result<(), Fail> {
    let alloc = rt.alloc();
    let bound = " x".repeat(alloc, 223)?;
    let free = " y".repeat(alloc, 223)?;
    let text = format!(in alloc; "(\\x. x{bound}) (y{free})")?;
    assert_end(
        &rt,
        alloc,
        &text,
        b"step 1 exceeds the limits: size 100351 of 100000, depth 447 of 1000\n!",
    )
}

// A term of 449 applications, one in the argument of another, round as many free names: each
// application has a bracket for each of them.
fn nested(alloc: Global) -> Result<String, Fail> {
    let mut text = "x (".repeat(alloc, 450)?;
    for k in 0..450u32 {
        write!(text, "a{k} ")?;
    }
    let end = ")".repeat(alloc, 450)?;
    text.push_str(&end)?;
    Ok(text)
}

#[test]
fn a_term_of_many_nodes_is_refused(rt: HostRuntime) -> Result<(), Fail> {
    let text = nested(rt.alloc())?;
    assert_end(&rt, rt.alloc(), &text, b"Refused: !limit nodes 200000\n")
}

#[test]
fn deep_and_long_terms_are_refused(rt: HostRuntime) -> Result<(), Fail> {
    let rows: [(&str, usize, &[u8]); 3] = [
        ("x ", 1_001, b"Refused: !limit depth 1000\n"),
        (" ", 1_048_576, b"Refused: !syntax at byte 1048576\n"),
        (" ", 1_048_577, b"Refused: !limit bytes 1048576\n"),
    ];
    for (part, times, end) in rows {
        let text = part.repeat(rt.alloc(), times)?;
        assert_end(&rt, rt.alloc(), &text, end)?;
    }
    Ok(())
}
