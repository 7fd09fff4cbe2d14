//! The calls that C makes, by their names. A slice is a pointer and a length, and the memory there
//! is the caller's (olcheck.h says what it owes). Each answers whatever the bytes are.

ghost use Rattle.ol_subjects.specs.declared.subjects.Subject.TheVariants.{Net};
ghost use Rattle.ol_check_c.specs.Asked.{IsVerdict, IsVerdictBy, IsCounted, IsCountedBy, IsWrittenOut, IsWrittenOutBy};

use crate::answers::{RuleCounts, Verdict, no_counts};
use crate::asking::{counted, found, no_translation, subject_of, told};
use ol_subjects::Subject;
use std::alloc::Global;

/// What a trace is found to be against the net of a term, by the translation of this number.
#[unsafe(no_mangle)]
pub extern "C" fn ol_proved_check(
    alloc: Global,
    term: &[u8],
    translation: u32,
    journal: &[u8],
) -> Verdict
    ensures verdict { IsVerdictBy translation term.now journal.now result }
{
    match subject_of(translation) {
        Some(subject) => found(alloc, subject, term, journal),
        None => no_translation(translation),
    }
}

/// What a trace is found to be against the net of a net file.
#[unsafe(no_mangle)]
pub extern "C" fn ol_proved_check_net(alloc: Global, net: &[u8], journal: &[u8]) -> Verdict
    ensures verdict { IsVerdict Net net.now journal.now result }
{
    found(alloc, Subject::Net, net, journal)
}

/// What `ol_proved_check` answers, and how often each rule stands in the trace. Zeros, where the
/// trace has a bad line or isn't looked at.
#[unsafe(no_mangle)]
pub extern "C" fn ol_proved_count(
    alloc: Global,
    term: &[u8],
    translation: u32,
    journal: &[u8],
    counts: &mut RuleCounts,
) -> Verdict
    ensures counted { IsCountedBy translation term.now journal.now result counts.new }
{
    match subject_of(translation) {
        Some(subject) => {
            let (verdict, rules) = counted(alloc, subject, term, journal);
            *counts = rules;
            verdict
        }
        None => {
            *counts = no_counts();
            no_translation(translation)
        }
    }
}

/// What `ol_proved_check_net` answers, and how often each rule stands in the trace.
#[unsafe(no_mangle)]
pub extern "C" fn ol_proved_count_net(
    alloc: Global,
    net: &[u8],
    journal: &[u8],
    counts: &mut RuleCounts,
) -> Verdict
    ensures counted { IsCounted Net net.now journal.now result counts.new }
{
    let (verdict, rules) = counted(alloc, Subject::Net, net, journal);
    *counts = rules;
    verdict
}

/// Writes the front of what `ol-bench explain` answers, as much as there is room for, and tells how
/// many bytes all of it has. 0: there is nothing to write.
#[unsafe(no_mangle)]
pub extern "C" fn ol_proved_explain(
    alloc: Global,
    term: &[u8],
    translation: u32,
    journal: &[u8],
    room: &mut [u8],
) -> usize
    ensures written { IsWrittenOutBy translation term.now journal.now room.old result room.new }
{
    match subject_of(translation) {
        Some(subject) => told(alloc, subject, term, journal, room),
        None => 0,
    }
}

/// The same of a trace against a net file.
#[unsafe(no_mangle)]
pub extern "C" fn ol_proved_explain_net(
    alloc: Global,
    net: &[u8],
    journal: &[u8],
    room: &mut [u8],
) -> usize
    ensures written { IsWrittenOut Net net.now journal.now room.old result room.new }
{
    told(alloc, Subject::Net, net, journal, room)
}
