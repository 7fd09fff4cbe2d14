//! `walk --frame`.
use crate::fakes::{NONE, ran, shown, written};
use ol_bench::Asked;
use ol_decoding::Wanted;
use ol_limits::Heads;
use ol_term::Translation;
use std::alloc::Global;
use std::process::Abort;
use std::test::Fail;

// What is told of a place, of so many crossings; of three places two are asked, by walks of 50
// crossings.
fn walked(alloc: Global, path: &[u32], lines: u32, text: &str) -> Result<String, Fail> {
    let path = Vec::from_slice(alloc, path)?;
    let wanted = Wanted {
        translation: Translation::One,
        heads: Heads::of(2),
        edges: 50,
        path,
        question: None,
        lines,
    };
    let file = written(alloc, text)?;
    let asked = Asked::Walk { file, wanted };
    ran(alloc, &asked, Vec::new(alloc), (NONE, NONE))
}

// Asserts what is told of the place of a row.
fn assert_walk(
    rt: &impl Abort,
    alloc: Global,
    path: &[u32],
    lines: u32,
    row: &[u8],
) -> Result<(), Fail> {
    let (text, wanted) = shown(row).split_once('|').ok_or("no row")?;
    let told = walked(alloc, path, lines, text)?;
    assert!(rt; told.as_str() == wanted, "{told}");
    Ok(())
}

/// Five crossings of the paths of docs/learn/BY_HAND.md, a place below a free variable, a head
/// that is a free name, a place that isn't asked, and one without a head.
#[test]
fn questions_are_told(rt: HostRuntime) -> Result<(), Fail> {
    let five = b"\\x y. x y|Yes: asked 0 f0 empty\n0.0 lam 0 undefined\nasked 1 f0 o.empty\n\
        0.0 lam 0 0.1 empty\n1.0 lam 0 undefined\nasked 2 f0 o.o.empty\n0.0 lam 0 0.1 o.empty\n\
        1.0 lam 0 1.1 empty\n...\nabstractions 2, binder 1 of root, arguments 1\n!";
    assert_walk(&rt, rt.alloc(), &[], 5, five)?;
    let none = b"\\x y. x y|No: !no such place\n";
    assert_walk(&rt, rt.alloc(), &[1, 1], 9, none)?;
    let free = b"f x y|Yes: asked 0 f0 empty\n...\nabstractions 0, free f, arguments 2\n!";
    assert_walk(&rt, rt.alloc(), &[], 0, free)?;
    assert_walk(&rt, rt.alloc(), &[2], 9, b"f x y|Yes: ...\n!")?;
    let omega = b"(\\x. x x) (\\x. x x)|Yes: asked 0 f0 empty\n...\n...\n!";
    assert_walk(&rt, rt.alloc(), &[], 0, omega)
}
