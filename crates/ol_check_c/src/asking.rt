//! The answers, over slices.

ghost use Rattle.std.specs.Prelude.{◌≡◌, ◌<◌, ◌^◌, length, IfSome, IfNone, IfOk, IfErr};
ghost use Rattle.ol_check_c.specs.Verdicts.{too_long, no_memory, no_translation};
ghost use Rattle.ol_check_c.specs.Asked.{subject_of, AreTooLong, AreShort, IsVerdict, IsCounted, IsWritten, IsWrittenOut};
ghost use Rattle.ol_check_c.specs.Found.{IsFoundVerdict, AreFoundCounts, IsToldOut};

use crate::answers::{RuleCounts, Verdict, counts_told, no_counts, verdict_of, verdict_with};
use ol_explain::{checked, explained, tallied};
use ol_limits::{MOST_JOURNAL_BYTES, NoMemory};
use ol_subjects::{Subject, most_bytes};
use ol_term::Translation;
use std::alloc::Global;

/// What stands in a file with a term, by the number of the translation, or `None` where no
/// translation has this number. 0 stands for 2.
pub fn subject_of(translation: u32) -> Option<Subject>
    ensures { result ≡ subject_of translation }
{
    if translation == 1 {
        return Some(Subject::Term(Translation::One));
    }
    if translation == 0 || translation == 2 {
        return Some(Subject::Term(Translation::Two));
    }
    None
}

/// No translation has this number.
pub fn no_translation(translation: u32) -> Verdict
    ensures { result ≡ no_translation translation }
{
    verdict_with(7, translation)
}

// A file has more bytes than this.
fn too_long(most: usize) -> Verdict
    requires { most < 2 ^ 32 }
    ensures { result ≡ too_long most }
{
    verdict_with(5, most as u32)
}

// No memory was found.
fn no_memory() -> Verdict
    ensures { result ≡ no_memory }
{
    verdict_with(6, 0)
}

// The limit that the bytes of one of the two files pass, if they do.
fn limit(subject: Subject, bytes: &[u8], journal: &[u8]) -> Option<Verdict>
    ensures long { IfSome result (AreTooLong subject bytes.now journal.now) }
    ensures short { IfNone result (AreShort subject bytes.now journal.now) }
{
    let most = most_bytes(subject);
    if most < bytes.len() {
        return Some(too_long(most));
    }
    if (MOST_JOURNAL_BYTES as usize) < journal.len() {
        return Some(too_long(MOST_JOURNAL_BYTES as usize));
    }
    None
}

// What the journal is found to be. `NoMemory`: no memory was found, and neither file is too long.
fn find(alloc: Global, subject: Subject, bytes: &[u8], journal: &[u8]) -> Result<Verdict, NoMemory>
    ensures found { IfOk result (IsFoundVerdict subject bytes.now journal.now) }
    ensures short { IfErr result (λ _. AreShort subject bytes.now journal.now) }
{
    if let Some(long) = limit(subject, bytes, journal) {
        return Ok(long);
    }
    match checked(alloc, bytes, journal, subject) {
        Ok(finding) => Ok(verdict_of(finding)),
        Err(_) => Err(NoMemory),
    }
}

/// What the trace is found to be.
pub fn found(alloc: Global, subject: Subject, bytes: &[u8], journal: &[u8]) -> Verdict
    ensures { IsVerdict subject bytes.now journal.now result }
{
    match find(alloc, subject, bytes, journal) {
        Ok(verdict) => verdict,
        Err(_) => no_memory(),
    }
}

// What the journal is found to be, and how often each rule stands in it. `NoMemory`: no memory was
// found, and neither file is too long.
fn count(
    alloc: Global,
    subject: Subject,
    bytes: &[u8],
    journal: &[u8],
) -> Result<(Verdict, RuleCounts), NoMemory>
    ensures counted { IfOk result (λ r. AreFoundCounts subject bytes.now journal.now r.0 r.1) }
    ensures short { IfErr result (λ _. AreShort subject bytes.now journal.now) }
{
    if let Some(long) = limit(subject, bytes, journal) {
        return Ok((long, no_counts()));
    }
    match tallied(alloc, bytes, journal, subject) {
        Ok(tally) => Ok((verdict_of(tally.finding), counts_told(tally.counts))),
        Err(_) => Err(NoMemory),
    }
}

/// What the trace is found to be, and how often each rule stands in it.
pub fn counted(
    alloc: Global,
    subject: Subject,
    bytes: &[u8],
    journal: &[u8],
) -> (Verdict, RuleCounts)
    ensures { IsCounted subject bytes.now journal.now result.0 result.1 }
{
    match count(alloc, subject, bytes, journal) {
        Ok(counted) => counted,
        Err(_) => (no_memory(), no_counts()),
    }
}

// Writes as much of a text as there is room for, and tells how many bytes it has.
fn write(text: &[u8], room: &mut [u8]) -> usize
    ensures front { IsWritten text.now room.old room.new }
    ensures whole { result ≡ length text.now }
{
    let count = text.len().min(room.len());
    room[..count].copy_from_slice(&text[..count]);
    text.len()
}

// The explanation of what the journal is found to be: its front, as far as there is room, and how
// many bytes it has. `NoMemory`: no memory was found, and nothing was written.
fn tell(
    alloc: Global,
    subject: Subject,
    bytes: &[u8],
    journal: &[u8],
    room: &mut [u8],
) -> Result<usize, NoMemory>
    ensures told { IfOk result (λ n. IsToldOut subject bytes.now journal.now room.old n room.new) }
    ensures unwritten { IfErr result (λ _. room.new ≡ room.old) }
{
    if let Some(_) = limit(subject, bytes, journal) {
        return Ok(0);
    }
    match explained(alloc, bytes, journal, subject) {
        Ok(answer) => Ok(write(&answer.text, room)),
        Err(_) => Err(NoMemory),
    }
}

/// The explanation of what the trace is found to be: its front, as far as there is room, and how
/// many bytes it has.
pub fn told(alloc: Global, subject: Subject, bytes: &[u8], journal: &[u8], room: &mut [u8]) -> usize
    ensures { IsWrittenOut subject bytes.now journal.now room.old result room.new }
{
    match tell(alloc, subject, bytes, journal, room) {
        Ok(count) => count,
        Err(_) => 0,
    }
}
