//! `grade`, also where files can't be read or are too long.
ghost use Rattle.std.specs.Prelude.{◌≤◌, length, IfOk};
ghost use Rattle.ol_bench.specs.Commands.{IsWithinBounds};

use crate::fakes::{NONE, file, named, ran, shown, written};
use ol_bench::{Asked, Given};
use ol_derivations::Bounds;
use ol_limits::{Fuel, Heads};
use ol_term::Translation;
use std::alloc::Global;
use std::process::Abort;
use std::test::Fail;

// The file whose name stands behind a slash, or the text.
fn given(alloc: Global, word: &str) -> Result<Given, Fail> {
    let given = match word.split_once('/') {
        Some((_, name)) => named(alloc, name)?,
        None => written(alloc, word)?,
    };
    Ok(given)
}

// The students, with a bar between two.
fn students(alloc: Global, words: &str) -> Result<Vec<Given>, Fail>
    ensures { IfOk result (λ students. length students.items ≤ 1000) }
{
    let mut students = Vec::new(alloc);
    for word in words.split('|') {
        students.push(given(alloc, word)?)?;
    }
    if students.len() > 1_000 {
        return Err(Fail::from("too many"));
    }
    Ok(students)
}

// What is asked by a row: the inputs, the solution, and the students.
fn asked(alloc: Global, row: &str) -> Result<Asked, Fail>
    ensures { IfOk result IsWithinBounds }
{
    let (inputs, more) = row.split_once('|').ok_or("no row")?;
    let (solution, words) = more.split_once('|').ok_or("no solution")?;
    let bounds = Bounds {
        translation: Translation::Two,
        fuel: Fuel::of(100),
        heads: Heads::of(4),
    };
    let students = students(alloc, words)?;
    let inputs = given(alloc, inputs)?;
    let solution = given(alloc, solution)?;
    Ok(Asked::Grade {
        inputs,
        solution,
        students,
        bounds,
    })
}

// Asserts of each row what is said of its students. There is one file, `long`, of so many bytes.
fn assert_graded(rt: &impl Abort, alloc: Global, bytes: usize, rows: &[u8]) -> Result<(), Fail> {
    for row in shown(rows).split('%') {
        let (words, wanted) = row.split_once(" => ").ok_or("no row")?;
        let long = " ".repeat(alloc, bytes)?;
        let mut files = Vec::new(alloc);
        files.push(file(alloc, "long", long.as_bytes())?)?;
        let asked = asked(alloc, words)?;
        let told = ran(alloc, &asked, files, (NONE, NONE))?;
        assert!(rt; told.as_str() == wanted, "{told}");
    }
    Ok(())
}

/// Comments of a function end with its line, an abstraction ends an input of two, no bracket of the
/// one closes one of the other, and a solution may be no text.
#[test]
fn students_are_graded(rt: HostRuntime) -> Result<(), Fail> {
    let rows = b"x y\n\\z. z|\\f. f|\\f. f # this ends => Yes: -e: equal on 2 of 2\n!%\
        x \\v. v|f|\\x. f x => Yes: -e: equal on 1 of 1\n!%\
        (\\x. x) y|\\f. f (\\x. x)|\\f. f f => Yes: -e: equal on 1 of 1\n!%\
        x\ny|\\v. v|\\v. x|\\v. v => No: -e: different at root on 2: expected y, got x\n\
        -e: equal on 2 of 2\n!%\
        g|\\x. (x|x => Refused: !solution: syntax, line 1, column 7\n%\
        # none\n|x|x => Refused: !inputs: none\n";
    assert_graded(&rt, rt.alloc(), 1, rows)
}

#[test]
fn files_of_students_may_fail(rt: HostRuntime) -> Result<(), Fail> {
    let rows = b"x|\\v. v|/gone|/long|\\v. v => No: gone: can't be read\n\
        long: limit bytes 1048576\n-e: equal on 1 of 1\n!%\
        x|/gone|\\v. v => Refused: !read fault\n%\
        x|/long|\\v. v => Refused: !limit bytes 1048576\n";
    assert_graded(&rt, rt.alloc(), 1_048_577, rows)
}
