//! The answers of `check` and `explain`, each as one JSON object on one line.

ghost use Rattle.std.specs.Prelude.{◌≡◌, ◌≤◌, ◌++◌, length, drop, IfOk, OnOk};
ghost use Rattle.std.specs.Fmt.{decimal};
ghost use Rattle.ol_subjects.specs.Subjects.{most_bytes};
ghost use Rattle.ol_explain.specs.Judged.{end_of, found_line};
ghost use Rattle.ol_explain.specs.Objects.{IsExplainedObject, IsJudgedObject, found_members, found_in, object_line, why_member};

use crate::explaining::of_net;
use crate::judging::answer_of;
use crate::others::put_other;
use ol_limits::NoMemory;
use ol_subjects::{
    Answer, End, Layout, NetRead, Subject, put, put_lines, put_number, read_subject,
};
use ol_view::{Check, check};
use std::alloc::Global;

// Appends some words and a number.
fn put_numbered(
    alloc: Global,
    text: &mut Vec<u8>,
    words: &[u8],
    number: u32,
) -> Result<(), NoMemory>
    ensures { OnOk result (text.new.items ≡ text.old.items ++ (words.now ++ decimal number)) }
{
    put(text, words)?;
    put_number(alloc, text, number as u64)
}

// Appends the members that tell what a journal is found to be.
fn put_found(alloc: Global, text: &mut Vec<u8>, found: Check) -> Result<(), NoMemory>
    ensures { OnOk result (text.new.items ≡ text.old.items ++ found_members found) }
{
    match found {
        Check::Complete => put(text, b"\"verdict\":\"complete\""),
        Check::Run { k } => put_numbered(alloc, text, b"\"verdict\":\"run\",\"entries\":", k),
        Check::NotARun { line } => {
            put_numbered(alloc, text, b"\"verdict\":\"not a run\",\"line\":", line)
        }
        Check::BadText { line } => {
            put_numbered(alloc, text, b"\"verdict\":\"bad text\",\"line\":", line)
        }
    }
}

// The object for the line of what is found.
fn found_object(alloc: Global, found: Check) -> Result<Vec<u8>, NoMemory>
    ensures { IfOk result (λ text. text.items ≡ object_line (found_members found)) }
{
    let mut text = Vec::new(alloc);
    put(&mut text, b"{")?;
    put_found(alloc, &mut text, found)?;
    put(&mut text, b"}\n")?;
    Ok(text)
}

/// What a trace is found to be, as the line of `judged` or the object of `judged_object`, and how
/// they end. `NoMemory`: no memory was found.
pub fn answer_in(alloc: Global, found: Check, layout: Layout) -> Result<Answer, NoMemory>
    ensures text { IfOk result (λ a. a.text.items ≡ found_in layout found) }
    ensures end { IfOk result (λ a. a.end ≡ end_of found) }
{
    let line = answer_of(alloc, found)?;
    match layout {
        Layout::Lines => Ok(line),
        Layout::Object => {
            let text = found_object(alloc, found)?;
            let end = line.end;
            Ok(Answer { text, end })
        }
    }
}

// The object for some lines, the first of which tells what is found.
fn lines_object(alloc: Global, found: Check, lines: &[u8]) -> Result<Vec<u8>, NoMemory>
    requires first { length (found_line found) ≤ length lines.now }
    ensures { IfOk result (λ text. text.items ≡ object_line
        (found_members found ++ why_member (drop (length (found_line found)) lines.now))) }
{
    let first = answer_of(alloc, found)?;
    let mut text = Vec::new(alloc);
    put(&mut text, b"{")?;
    put_found(alloc, &mut text, found)?;
    put(&mut text, b",\"why\":")?;
    put_lines(alloc, &mut text, &lines[first.text.len()..])?;
    put(&mut text, b"}\n")?;
    Ok(text)
}

/// What a trace is found to be against the net of a file, as one JSON object on one line (RFC
/// 8259), with a line feed behind it. Its member `verdict` is `complete`, `run`, `not a run` or
/// `bad text`. Of `run` the number `entries` tells how many entries the trace has, of the last two
/// the number `line` which line is the first bad one.
///
/// How it ends, and the bounds of the files, are those of `judged`. A file that is refused is so by
/// its line, which is no object. `NoMemory`: no memory was found.
pub fn judged_object(
    alloc: Global,
    bytes: &[u8],
    journal: &[u8],
    subject: Subject,
) -> Result<Answer, NoMemory>
    requires short { length bytes.now ≤ most_bytes subject }
    ensures { IfOk result (λ a. IsJudgedObject bytes.now journal.now a.text.items subject a.end) }
{
    match read_subject(alloc, bytes, subject)? {
        NetRead::Refused(text) => {
            let end = End::Refused;
            Ok(Answer { text, end })
        }
        NetRead::Net(net) => {
            let found = check(alloc, &net, journal)?;
            let answer = answer_in(alloc, found, Layout::Object)?;
            Ok(answer)
        }
    }
}

/// What a trace is found to be against the net of a file, and why, as one JSON object on one line.
/// It has the members of `judged_object`. Its member `why` is an array of strings: the lines that
/// `explained` answers below the first one.
///
/// How it ends, and the bounds of the files, are those of `explained`. A file that is refused is so
/// by its line, which is no object. `NoMemory`: no memory was found.
pub fn explained_object(
    alloc: Global,
    bytes: &[u8],
    journal: &[u8],
    subject: Subject,
) -> Result<Answer, NoMemory>
    requires short { length bytes.now ≤ most_bytes subject }
    ensures { IfOk result (λ a.
        IsExplainedObject bytes.now journal.now a.text.items subject a.end) }
{
    match read_subject(alloc, bytes, subject)? {
        NetRead::Refused(text) => {
            let end = End::Refused;
            Ok(Answer { text, end })
        }
        NetRead::Net(net) => {
            let mut explanation = of_net(alloc, &net, journal)?;
            put_other(alloc, &mut explanation.answer, bytes, journal, subject)?;
            let object = lines_object(alloc, explanation.found, &explanation.answer.text)?;
            Ok(Answer {
                text: object,
                end: explanation.answer.end,
            })
        }
    }
}
