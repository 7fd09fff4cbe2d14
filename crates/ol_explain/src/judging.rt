//! The command `check`: what a trace is found to be against the net of a file.

ghost use Rattle.std.specs.Prelude.{◌≡◌, ◌≤◌, length, codes, IfOk};
ghost use Rattle.ol_explain.specs.Afters.{line_with};
ghost use Rattle.ol_explain.specs.Judged.{IsJudged, end_of, found_line};
ghost use Rattle.ol_subjects.specs.Subjects.{most_bytes};

use crate::naming::{put, put_number};
use ol_limits::NoMemory;
use ol_subjects::{Answer, End, NetRead, Subject, read_subject};
use ol_view::{Check, check};
use std::alloc::Global;

/// The answer of these words and a number.
pub fn line_of(alloc: Global, words: &str, number: u32, end: End) -> Result<Answer, NoMemory>
    ensures text { IfOk result (λ a. a.text.items ≡ line_with words.now number) }
    ensures end { IfOk result (λ a. a.end ≡ end) }
{
    let mut text = String::new(alloc);
    put(&mut text, words)?;
    put_number(&mut text, number)?;
    put(&mut text, "\n")?;
    let text = text.into_bytes();
    Ok(Answer { text, end })
}

/// The answer that no pair is left.
pub fn complete(alloc: Global) -> Result<Answer, NoMemory>
    ensures text { IfOk result (λ a. a.text.items ≡ codes "complete\n") }
    ensures end { IfOk result (λ a. a.end ≡ End.Yes) }
{
    let mut text = String::new(alloc);
    put(&mut text, "complete\n")?;
    let text = text.into_bytes();
    let end = End::Yes;
    Ok(Answer { text, end })
}

/// The line of what a trace is found to be, and how a command ends that answers with it.
pub fn answer_of(alloc: Global, found: Check) -> Result<Answer, NoMemory>
    ensures text { IfOk result (λ a. a.text.items ≡ found_line found) }
    ensures end { IfOk result (λ a. a.end ≡ end_of found) }
{
    match found {
        Check::Complete => complete(alloc),
        Check::Run { k } => line_of(alloc, "run ", k, End::Run),
        Check::NotARun { line } => line_of(alloc, "not a run at line ", line, End::NotARun),
        Check::BadText { line } => line_of(alloc, "bad text at line ", line, End::BadText),
    }
}

/// What a trace is found to be against the net of a file, as the line of `ol check`.
///
/// - `Yes`: `complete`, a run after which no pair is active.
/// - `Run`: `run` with the number of entries, after which some pair is active.
/// - `NotARun`: the number of the first bad line, which is in the grammar and isn't the next one of
///   a run.
/// - `BadText`: the number of the first bad line, which isn't in the grammar.
/// - `Refused`: `ol` refuses the file with the term or the net, by this line.
///
/// The file has at most 1,048,576 bytes with a term, and 33,554,432 with a net. `NoMemory`: no
/// memory was found.
pub fn judged(
    alloc: Global,
    bytes: &[u8],
    journal: &[u8],
    subject: Subject,
) -> Result<Answer, NoMemory>
    requires short { length bytes.now ≤ most_bytes subject }
    ensures { IfOk result (λ a. IsJudged bytes.now journal.now a.text.items subject a.end) }
{
    match read_subject(alloc, bytes, subject)? {
        NetRead::Refused(text) => {
            let end = End::Refused;
            Ok(Answer { text, end })
        }
        NetRead::Net(net) => {
            let found = check(alloc, &net, journal)?;
            let answer = answer_of(alloc, found)?;
            Ok(answer)
        }
    }
}
