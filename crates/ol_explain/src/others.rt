//! What is said of the other translation, where a term's trace isn't one of a run under the one
//! that was asked.

ghost use Rattle.std.specs.Prelude.{◌≡◌, ◌≢◌, ◌≤◌, ◌++◌, ℕ, List, true, false, length, OnOk};
ghost use Rattle.ol_explain.specs.Others.{other_of, is_run_found, run_line, translation_number, TellsOther};
ghost use Rattle.ol_subjects.specs.Subjects.{most_bytes};

use crate::tallying::{Finding, checked};
use ol_limits::NoMemory;
use ol_subjects::{Answer, End, Subject, put, put_number};
use ol_term::Translation;
use ol_view::Check;
use std::alloc::Global;

fn other(translation: Translation) -> Translation
    ensures { result ≡ other_of translation }
{
    match translation {
        Translation::One => Translation::Two,
        Translation::Two => Translation::One,
    }
}

fn number_of(translation: Translation) -> u64
    ensures { result ≡ translation_number translation }
{
    match translation {
        Translation::One => 1,
        Translation::Two => 2,
    }
}

// Whether a line of the journal is in the grammar, and isn't the next one of a run.
fn is_off(end: End) -> bool
    ensures off { result ≡ true → end ≡ End.NotARun }
    ensures good { result ≡ false → end ≢ End.NotARun }
{
    match end {
        End::NotARun => true,
        End::Yes => false,
        End::No => false,
        End::Nothing => false,
        End::Refused => false,
        End::Run => false,
        End::BadText => false,
    }
}

// Whether it is found that the journal is one of a run.
fn is_run(finding: Finding) -> bool
    ensures { result ≡ is_run_found finding }
{
    match finding {
        Finding::Found(Check::Complete) => true,
        Finding::Found(Check::Run { .. }) => true,
        Finding::Found(Check::NotARun { .. }) => false,
        Finding::Found(Check::BadText { .. }) => false,
        Finding::Refused => false,
    }
}

// Appends that the journal is one of a run of this translation, if it is found to be one.
fn put_run(
    alloc: Global,
    text: &mut Vec<u8>,
    translation: Translation,
    finding: Finding,
) -> Result<(), NoMemory>
    ensures { OnOk result
        (text.new.items ≡ text.old.items ++ run_line translation finding) }
{
    if !is_run(finding) {
        return Ok(());
    }
    put(text, b"it is a run of translation ")?;
    put_number(alloc, text, number_of(translation))?;
    put(text, b"\n")
}

/// Appends to an answer what is said of the other translation: where a term's trace has a line
/// that isn't the next one of a run, and is one of a run of the other translation, complete or not,
/// a line that says so. `NoMemory`: no memory was found.
pub fn put_other(
    alloc: Global,
    answer: &mut Answer,
    bytes: &[u8],
    journal: &[u8],
    subject: Subject,
) -> Result<(), NoMemory>
    requires short { length bytes.now ≤ most_bytes subject }
    ensures text { OnOk result ((more : List ℕ)
        × TellsOther bytes.now journal.now subject answer.old.end more
        × (answer.new.text.items ≡ answer.old.text.items ++ more)) }
    ensures end { OnOk result (answer.new.end ≡ answer.old.end) }
{
    let Subject::Term(translation) = subject else {
        return Ok(());
    };
    if !is_off(answer.end) {
        return Ok(());
    }
    let other = other(translation);
    let finding = checked(alloc, bytes, journal, Subject::Term(other))?;
    put_run(alloc, &mut answer.text, other, finding)?;
    Ok(())
}
