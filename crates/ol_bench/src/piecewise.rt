//! A trace that is judged while it is read, piece by piece.

ghost use Rattle.std.specs.Prelude.{◌≡◌, ℕ, ◌+◌, ◌<◌, ◌≤◌, ◌∷◌, List, Option, true, false, length, IfOk};
ghost use Rattle.ol_io.specs.Outside.{Counts};
ghost use Rattle.ol_io.specs.Readings.{AreOfSince, Reading};
ghost use Rattle.ol_bench.specs.Inputs.{most_of};
ghost use Rattle.ol_bench.specs.Traces.{ComesOfTrace, IsReadNoFurther, most_read_ahead};
ghost use Rattle.ol_limits.specs.Limits.{most_journal_bytes};
ghost use Rattle.ol_bench.specs.Piecewise.{AnswersCheck, Judges, judging_failed};

use crate::asked::Content;
use crate::taking::refusal;
use ol_explain::answer_in;
use ol_io::{Begun, Got, ReadAll, Source};
use ol_limits::{MOST_JOURNAL_BYTES, NoMemory};
use ol_net::Net;
use ol_subjects::{Answer, End, Layout, NetRead, Subject, read_subject};
use ol_view::{Check, Checker};
use std::alloc::Global;

// The most bytes that are read at once.
const MOST_PIECE: usize = 65_536;

// How many bytes of a trace are asked for after so many. After as many as a trace may have, another
// byte is asked for, in place of which the end may come.
fn piece_after(given: usize) -> usize
    requires { given ≤ most_journal_bytes }
    ensures some { 1 ≤ result }
    ensures piece { result ≤ most_read_ahead }
    ensures within { given < most_journal_bytes → given + result ≤ most_journal_bytes }
{
    let left = MOST_JOURNAL_BYTES as usize - given;
    left.max(1).min(MOST_PIECE)
}

// What is found of the trace that was just begun. It is read until this is fixed, in pieces of at
// most 65,536 bytes, none of which is kept.
fn found_on<S: Source>(alloc: Global, src: &mut S, net: &Net) -> Result<Check, ReadAll>
    requires ready { S.ready src.old ≡ true }
    requires given { S.given src.old ≡ 0 }
    requires ended { S.ended src.old ≡ false }
    requires few { length net.now.nodes ≤ 1000000 }
    ensures judged { Judges net.now (S.left src.old) (S.ended src.new)
        (S.readings src.old) (S.readings src.new) result }
    ensures cause { Counts (judging_failed result) (S.faults src.old) (S.faults src.new) }
{
    let most = MOST_JOURNAL_BYTES as usize;
    let Ok(mut checker) = Checker::new(alloc, net) else {
        return Err(ReadAll::NoMemory);
    };
    let mut given = 0;
    let mut buf = [0u8; MOST_PIECE];
    'reading: loop {
        let asked = piece_after(given);
        match src.read(&mut buf[..asked]) {
            Got::Failed => return Err(ReadAll::Fault),
            Got::End => return Ok(checker.finish()),
            Got::Bytes(count) => {
                if given >= most {
                    return Err(ReadAll::TooLong);
                }
                match checker.feed(&buf[..count]) {
                    Err(_) => return Err(ReadAll::NoMemory),
                    Ok(Some(found)) => return Ok(found),
                    Ok(None) => given += count,
                }
            }
        }
    }
}

// The answer to the trace that was just begun, where the first file has these bytes.
fn answer_on<S: Source>(
    alloc: Global,
    src: &mut S,
    bytes: &[u8],
    subject: Subject,
    layout: Layout,
) -> Result<Answer, NoMemory>
    requires ready { S.ready src.old ≡ true }
    requires given { S.given src.old ≡ 0 }
    requires ended { S.ended src.old ≡ false }
    requires short { length bytes.now ≤ most_of (Content.Subject subject) }
    ensures { AnswersCheck bytes.now subject layout (S.left src.old) (S.ended src.new)
        (S.faults src.old) (S.faults src.new) (S.readings src.old) (S.readings src.new) result }
{
    match read_subject(alloc, bytes, subject)? {
        NetRead::Refused(text) => {
            let end = End::Refused;
            Ok(Answer { text, end })
        }
        NetRead::Net(net) => match found_on(alloc, src, &net) {
            Err(fault) => refusal(alloc, fault, Content::Journal),
            Ok(found) => answer_in(alloc, found, layout),
        },
    }
}

/// What the trace of a name is found to be, where the first file has these bytes. The trace is
/// read until this is fixed, in pieces of at most 65,536 bytes.
pub fn check_by_pieces<S: Source>(
    alloc: Global,
    src: &mut S,
    bytes: &[u8],
    name: &str,
    subject: Subject,
    layout: Layout,
) -> Result<Answer, NoMemory>
    requires known { S.knows src.old name.now ≡ true }
    requires short { length bytes.now ≤ most_of (Content.Subject subject) }
    ensures caused { (files : ℕ → List ℕ → Option (List ℕ))
        → AreOfSince files (S.readings src.old) (S.readings src.new)
        → IfOk result (λ a. ComesOfTrace layout subject bytes.now (files 0 name.now)
        (S.faults src.old) (S.faults src.new) a.text.items a.end) }
    ensures told { AreOfSince (λ _. S.contents src.old) (S.readings src.old) (S.readings src.new) }
    ensures no_further { (trace : Reading) × (S.readings src.new ≡ trace ∷ S.readings src.old)
        × IsReadNoFurther subject bytes.now trace.bytes }
{
    match src.begin(name) {
        Begun::Failed => refusal(alloc, ReadAll::Fault, Content::Journal),
        Begun::Ready => answer_on(alloc, src, bytes, subject, layout),
    }
}
