//! Faults at each call, and a source and a sink that never fail.
ghost use Rattle.std.specs.Prelude.{◌≡◌, ◌≤◌, ◌<◌, ℕ, List, Option, Some};
ghost use Rattle.ol_io.specs.Sure.{bytes_of, told_by};
ghost use Rattle.ol_cli.specs.Completeness.{AskForWhatCanBeDone, IsDoneOrNothing};

use crate::fakes::{files_of, told, words_of};
use crate::pages::replayed;
use ol_cli::{Outcome, Status, ol};
use ol_io::{Gate, OpenGate, SureSink, SureSource};
use std::alloc::Global;
use std::sync::Wait;
use std::test::Fail;
use std::thread::Threads;

/// The source is begun by call 0 and read by calls 1 to 3. The three bytes of `x $` would be refused
/// at byte 2.
#[test]
fn calls_may_fail(rt: HostRuntime) -> Result<(), Fail> {
    let page = br"$ run - < \x. x ! 0 -
ReadFault
read fault

$ run - < x $ y ! 2 -
ReadFault
read fault

$ run - < \x. x ! 3 -
ReadFault
read fault

$ walk - < \x. x ! 4 -
Done
\a. a

$ walk - < \x. x ! - 0
WriteFault

$ walk - < \x. x ! - 1
WriteFault
\a.
$ walk - < \x. x ! 1 1
WriteFault
rea
$ walk - <  ! - 0
WriteFault

$ run k
ReadFault
read fault

"
        .as_slice();
    let now = replayed(&rt, rt.alloc(), page)?;
    assert!(rt; now.as_slice() == page);
    Ok(())
}

/// Calls 0 to 2 of the source read a first file of one byte, and call 3 begins the second; of a
/// first file of nine bytes it is call 5.
#[test]
fn the_first_of_two_files_is_refused_first(rt: HostRuntime) -> Result<(), Fail> {
    let page = br"$ check - j < ( < ol trace 1| ! 5 -
Syntax
syntax at byte 1

$ check - j < x < ol trace 1| ! 2 -
ReadFault
read fault

$ check - j < x < ol trace 1| ! 4 -
ReadFault
read fault

$ equal --fuel 0 - j < ( < x ! 3 -
Syntax
syntax at byte 1

$ equal --fuel 0 - j < (\x. x) y < x ! 5 -
Spent
fuel 0

$ equal --fuel 0 - j < x < x ! 3 -
ReadFault
read fault

$ equal --fuel 5 - j < (\x. x x) (\x. x x) < (
Spent
fuel 5

$ equal - j < x < x )
Syntax
syntax at byte 2

"
        .as_slice();
    let now = replayed(&rt, rt.alloc(), page)?;
    assert!(rt; now.as_slice() == page);
    Ok(())
}

// The answer of 103 bytes takes 35 writes of three bytes.
#[test]
fn each_write_may_fail(rt: HostRuntime) -> Result<(), Fail> {
    let whole = b"WriteFault\n\\a. a\nbeta 0\nfan 0\ncroissant 0\nbracket 0\ncross-fan 0\n\
        cross-croissant 0\ncross-bracket 0\nerase 0\nstuck 0\n"
        .as_slice();
    for write in 0..35usize {
        let call = format!(in rt.alloc(); "run --fuel 0 - < \\x. x ! - {write}")?;
        let text = told(&rt, rt.alloc(), &call, &OpenGate)?;
        assert!(rt;
            Some(text.as_slice()) == whole.get(..11 + 3 * write),
            "{write}"
        );
    }
    Ok(())
}

// `ol` over a source and a sink that never fail: their counts of faults are the constant 0, so no
// premise on faults is left.
fn surely<R: Threads + Wait + Sync, G: Gate + Sync>(
    rt: &R,
    alloc: Global,
    words: &Vec<String>,
    src: &mut SureSource,
    out: &mut SureSink,
    gate: &G,
) -> Outcome
    ensures done { AskForWhatCanBeDone words.now.items (λ _ name. Some (bytes_of src.old.files name))
        → IsDoneOrNothing words.now.items (λ _ name. Some (bytes_of src.old.files name))
        result.status (told_by out.old) (told_by out.new) }
    ensures contents { ◌≡◌ {A = List ℕ → Option (List ℕ)}
        (λ name. Some (bytes_of src.new.files name)) (λ name. Some (bytes_of src.old.files name)) }
{
    ol(rt, alloc, words, src, out, gate)
}

// The second call reads the same bytes again.
#[test]
fn without_faults_the_answer_is_written(rt: HostRuntime) -> Result<(), Fail> {
    let alloc = rt.alloc();
    let mut src = SureSource::new(files_of(alloc, "\\x. x")?);
    let words = words_of(alloc, "walk -")?;
    for _call in 0..2u32 {
        let mut out = SureSink::new(alloc, 1_048_576)?;
        let outcome = surely(&rt, alloc, &words, &mut src, &mut out, &OpenGate);
        let is_done = outcome.status == Status::Done;
        assert!(rt; is_done && out.bytes() == b"\\a. a\n".as_slice());
    }
    Ok(())
}
