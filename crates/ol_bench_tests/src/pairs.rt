//! `same`, `after` and `explain`.
ghost use Rattle.std.specs.Prelude.{◌≤◌};
ghost use Rattle.ol_bench.specs.Commands.{IsTwoWithin};

use crate::rows::assert_two;
use ol_bench::OnTwo;
use ol_subjects::{Layout, Subject};
use ol_term::Translation;
use std::test::Fail;

const TERM: Subject = Subject::Term(Translation::Two);

/// A free port that only one net has, lines that count from `ol net 1`, the first of two nets that
/// are refused, and what `ol net` writes before a net.
#[test]
fn nets_are_compared(rt: HostRuntime) -> Result<(), Fail> {
    let rows = b"ol net 1\nfree 1\nnode eraser -\nlink f0 0.0\n|No: different at f1: only here\n!%\
        ol net 1\nfree 3\nnode eraser -\nlink f0 f1\nlink f2 0.0\n|\
        No: different at f2: only there\n!%\
        x\nol net 1\n|Refused: !bad net at line 2\n%\
        beta 0\nstuck 0\nol net 1\nfree 2\nlink f0 f1\n|Yes: same\n!";
    assert_two(
        &rt,
        rt.alloc(),
        OnTwo::Same,
        b"ol net 1\nfree 2\nlink f0 f1\n",
        rows,
    )?;
    let refused = b"x|Refused: !bad net at line 2\n";
    assert_two(&rt, rt.alloc(), OnTwo::Same, b"ol net 1\n", refused)
}

/// Four parts of two erasers, and a last part: too many tries.
#[test]
fn same_gives_up(rt: HostRuntime) -> Result<(), Fail> {
    let first = b"ol net 1\nfree 0\nnode eraser -\nnode eraser -\nnode eraser -\nnode eraser -\n\
        node eraser -\nnode eraser -\nnode eraser -\nnode eraser -\nnode lam 0\nnode eraser -\n\
        link 0.0 1.0\nlink 2.0 3.0\nlink 4.0 5.0\nlink 6.0 7.0\nlink 8.0 9.0\nlink 8.1 8.2\n";
    let rows = b"ol net 1\nfree 0\nnode eraser -\nnode eraser -\nnode eraser -\nnode eraser -\n\
        node eraser -\nnode eraser -\nnode eraser -\nnode eraser -\nnode lam 0\nnode eraser -\n\
        link 0.0 1.0\nlink 2.0 3.0\nlink 4.0 5.0\nlink 6.0 7.0\nlink 8.0 8.2\nlink 8.1 9.0\n|\
        No: undecided: equal from the free ports, which don't reach 10 and 10 nodes\n!";
    assert_two(&rt, rt.alloc(), OnTwo::Same, first, rows)
}

fn after(subject: Subject, lines: u32) -> OnTwo
    requires { (1 ≤ lines) × (lines ≤ 8000001) }
    ensures { IsTwoWithin result }
{
    OnTwo::After {
        subject,
        lines,
        weights: false,
    }
}

/// What stands behind the lines isn't looked at. A file is refused before its journal.
#[test]
fn nets_after_lines_are_told(rt: HostRuntime) -> Result<(), Fail> {
    let term = b"(\\x. x) (\\y. y)".as_slice();
    let two = b"ol trace 1\n0 1\nno line|Yes: step 1\nnodes 3\nf0 2.1\n2 croissant 0 3.0 f0\n\
        3 lam 1 2.0 4.1 4.0\n4 croissant 1 3.2 3.1\n!";
    assert_two(&rt, rt.alloc(), after(TERM, 2), term, two)?;
    let three = b"ol trace 1\n0 1\nno line|No: !bad text at line 3\n%|No: !bad text at line 1\n";
    assert_two(&rt, rt.alloc(), after(TERM, 3), term, three)?;
    let refused = b"|Refused: !syntax at byte 2\n";
    assert_two(&rt, rt.alloc(), after(TERM, 1), b"(x", refused)?;
    let net = b"ol net 1\nfree 2\nnode eraser -\nnode fan 1\nlink f0 1.2\nlink f1 1.1\n\
        link 0.0 1.0\n";
    let erased = b"ol trace 2\nerase 1 0 1\n|Yes: step 1\nnodes 2\nf0 0.1.0\nf1 0.0.0\n\
        0.0 eraser - f1\n0.1 eraser - f0\n!";
    assert_two(&rt, rt.alloc(), after(Subject::Net, 2), net, erased)
}

fn explain(subject: Subject, layout: Layout) -> OnTwo
    ensures { IsTwoWithin result }
{
    OnTwo::Explain { subject, layout }
}

/// A stuck pair isn't told of those that are left. A file is refused before its journal, and by a
/// line also where the answer would be an object.
#[test]
fn pairs_that_are_left_are_told(rt: HostRuntime) -> Result<(), Fail> {
    let net = b"ol net 1\nfree 8\nnode lam 0\nnode lam 0\nnode app 0\nnode lam 0\nlink f0 0.1\n\
        link f1 0.2\nlink f2 1.1\nlink f3 1.2\nlink f4 2.1\nlink f5 2.2\nlink f6 3.1\n\
        link f7 3.2\nlink 0.0 1.0\nlink 2.0 3.0\n";
    let rows = b"ol trace 1\n|Run: run 0\nbeta 1 2 3\n!";
    let lines = explain(Subject::Net, Layout::Lines);
    assert_two(&rt, rt.alloc(), lines, net, rows)?;
    let refused = b"no trace|Refused: !bad net at line 1\n";
    let object = explain(Subject::Net, Layout::Object);
    assert_two(&rt, rt.alloc(), object, b"x", refused)
}

#[test]
fn a_cause_is_one_of_the_translation(rt: HostRuntime) -> Result<(), Fail> {
    let subject = Subject::Term(Translation::One);
    let rows = b"ol trace 2\nbeta 1 0 1\ncross-croissant 2 3 4\n|\
        NotARun: not a run at line 3\n3 is linked to port 0 of 6\nit is a run of translation 2\n!";
    let command = explain(subject, Layout::Lines);
    assert_two(&rt, rt.alloc(), command, b"(\\x. x z) (\\y. y)", rows)
}
