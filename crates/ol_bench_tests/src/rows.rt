//! Rows of commands on one text and on two.
//!
//! Rows are parted by `%`, and a bar stands before what a call comes to, as `fakes::ran` tells it.
ghost use Rattle.ol_bench.specs.Commands.{IsTwoWithin};

use crate::fakes::{NONE, ran, shown, written};
use ol_bench::{Asked, OnOne, OnTwo};
use std::alloc::Global;
use std::process::Abort;
use std::test::Fail;

/// What a command on a text comes to.
pub fn one(alloc: Global, command: OnOne, text: &str) -> Result<String, Fail> {
    let file = written(alloc, text)?;
    let asked = Asked::One { file, command };
    ran(alloc, &asked, Vec::new(alloc), (NONE, NONE))
}

/// What a command on two texts comes to.
fn two(alloc: Global, command: OnTwo, text: &str, other: &str) -> Result<String, Fail>
    requires within { IsTwoWithin command }
{
    let file = written(alloc, text)?;
    let other = written(alloc, other)?;
    let asked = Asked::Two {
        file,
        other,
        command,
    };
    ran(alloc, &asked, Vec::new(alloc), (NONE, NONE))
}

/// Asserts of each row what the command on its text comes to.
pub fn assert_one(rt: &impl Abort, alloc: Global, command: OnOne, rows: &[u8]) -> Result<(), Fail> {
    for row in shown(rows).split('%') {
        let (text, wanted) = row.split_once('|').ok_or("no row")?;
        let told = one(alloc, command, text)?;
        assert!(rt; told.as_str() == wanted, "{told}");
    }
    Ok(())
}

/// Asserts of each row what the command on the text and on the row's one comes to.
pub fn assert_two(
    rt: &impl Abort,
    alloc: Global,
    command: OnTwo,
    text: &[u8],
    rows: &[u8],
) -> Result<(), Fail>
    requires within { IsTwoWithin command }
{
    for row in shown(rows).split('%') {
        let (other, wanted) = row.split_once('|').ok_or("no row")?;
        let told = two(alloc, command, shown(text), other)?;
        assert!(rt; told.as_str() == wanted, "{told}");
    }
    Ok(())
}
