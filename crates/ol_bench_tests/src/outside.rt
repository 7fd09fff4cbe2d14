//! `same` and `check` through `bench`, where a call of the source or of a sink fails, or none does.
ghost use Rattle.ol_bench.specs.Commands.{IsTwoWithin, IsWithinBounds};
ghost use Rattle.std.specs.Prelude.{IfOk};

use crate::fakes::{NONE, file, named, ran, shown};
use ol_bench::{Asked, OnTwo};
use ol_io::MemFile;
use ol_subjects::{Layout, Subject};
use ol_term::Translation;
use std::alloc::Global;
use std::process::Abort;
use std::test::Fail;

fn asked(alloc: Global, command: OnTwo) -> Result<Asked, Fail>
    requires within { IsTwoWithin command }
    ensures { IfOk result IsWithinBounds }
{
    let file = named(alloc, "-")?;
    let other = named(alloc, "other")?;
    Ok(Asked::Two {
        file,
        other,
        command,
    })
}

fn files(alloc: Global, text: &[u8], other: &str) -> Result<Vec<MemFile>, Fail> {
    let mut files = Vec::new(alloc);
    files.push(file(alloc, "-", text)?)?;
    files.push(file(alloc, "other", other.as_bytes())?)?;
    Ok(files)
}

// Asserts what a command on a text and on the row's one comes to, where the calls of these numbers
// fail, of the source's ones and of each sink's ones.
fn assert_ran(
    rt: &impl Abort,
    alloc: Global,
    of: (OnTwo, &[u8]),
    row: (u64, u64, &[u8]),
) -> Result<(), Fail>
    requires within { IsTwoWithin of.0 }
{
    let (other, wanted) = shown(row.2).split_once('|').ok_or("no row")?;
    let files = files(alloc, of.1, other)?;
    let asked = asked(alloc, of.0)?;
    let told = ran(alloc, &asked, files, (row.0, row.1))?;
    assert!(rt; told.as_str() == wanted, "{told}");
    Ok(())
}

/// Calls 0 to 2 of the source read the first file, and calls 3 to 5 the second.
#[test]
fn calls_may_fail(rt: HostRuntime) -> Result<(), Fail> {
    let wire = b"ol net 1\nfree 2\nlink f0 f1\n".as_slice();
    let rows: [(u64, u64, &[u8]); 5] = [
        (NONE, NONE, b"ol net 1\nfree 2\nlink f0 f1\n|Yes: same\n!"),
        (3, NONE, b"ol net 1\n|Refused: !read fault\n"),
        (4, NONE, b"ol net 1\n|Refused: !read fault\n"),
        (NONE, 1, b"ol net 1\nfree 2\nlink f0 f1\n|WriteFault: sam!"),
        (NONE, 2, b"x|WriteFault: !bad ne"),
    ];
    for row in rows {
        assert_ran(&rt, rt.alloc(), (OnTwo::Same, wire), row)?;
    }
    Ok(())
}

/// Call 4 of the source reads the journal, and call 5 its end.
#[test]
fn a_journal_is_read_no_further(rt: HostRuntime) -> Result<(), Fail> {
    let command = OnTwo::Check {
        subject: Subject::Term(Translation::Two),
        layout: Layout::Lines,
    };
    let rows: [(u64, u64, &[u8]); 3] = [
        (5, NONE, b"bad\nx|BadText: bad text at line 1\n!"),
        (5, NONE, b"ol trace 1\n|Refused: !read fault\n"),
        (NONE, NONE, b"ol trace 1\n|Yes: complete\n!"),
    ];
    for row in rows {
        assert_ran(&rt, rt.alloc(), (command, b"x".as_slice()), row)?;
    }
    Ok(())
}
