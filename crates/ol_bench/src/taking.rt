//! The bytes that are given, of a file or of a text on the command line.

ghost use Rattle.std.specs.Prelude.{◌≡◌, ℕ, ◌≤◌, ◌<◌, ◌++◌, List, Option, true, false, length, IfOk, OnOk, IsErrOf};
ghost use Rattle.ol_io.specs.Calls.{read_all_failed};
ghost use Rattle.ol_io.specs.Outside.{Counts, IsLonger};
ghost use Rattle.ol_io.specs.Readings.{AreOfSince};
ghost use Rattle.ol_bench.specs.Inputs.{IsAllWithin, IsNamed, limit_line, limit_words, most_of, told_of};
ghost use Rattle.ol_bench.specs.Taking.{IsReadOnce, IsRefusal};

use crate::asked::{Content, Given, most_of};
use ol_io::{ReadAll, Source, read_all};
use ol_limits::NoMemory;
use ol_subjects::{Answer, End, Subject, put, put_number};
use std::alloc::Global;

// These bytes once more, if they are no more than so many.
fn copied(alloc: Global, text: &[u8], most: usize) -> Result<Vec<u8>, ReadAll>
    ensures same { IfOk result (λ bytes. bytes.items ≡ text.now) }
    ensures short { IfOk result (λ bytes. length bytes.items ≤ most) }
    ensures no_fault { read_all_failed result ≡ false }
    ensures longer { IsErrOf result ReadAll.TooLong → most < length text.now }
{
    if most < text.len() {
        return Err(ReadAll::TooLong);
    }
    match Vec::from_slice(alloc, text) {
        Ok(bytes) => Ok(bytes),
        Err(_) => Err(ReadAll::NoMemory),
    }
}

/// The bytes that are given, all of them. An error says why there are none, as of `read_all`.
pub fn bytes_of<S: Source>(
    alloc: Global,
    src: &mut S,
    given: &Given,
    content: Content,
) -> Result<Vec<u8>, ReadAll>
    requires known { (name : List ℕ) → IsNamed given.now name → S.knows src.old name ≡ true }
    ensures whole { (files : ℕ → List ℕ → Option (List ℕ))
        → AreOfSince files (S.readings src.old) (S.readings src.new)
        → IfOk result (λ bytes. IsAllWithin (most_of content)
        (told_of files given.now) bytes.items) }
    ensures longer { (files : ℕ → List ℕ → Option (List ℕ))
        → AreOfSince files (S.readings src.old) (S.readings src.new)
        → IsErrOf result ReadAll.TooLong → IsLonger (told_of files given.now) (most_of content) }
    ensures cause { Counts (read_all_failed result) (S.faults src.old) (S.faults src.new) }
    ensures knows { S.knows src.new ≡ S.knows src.old }
    ensures contents { S.contents src.new ≡ S.contents src.old }
    ensures told { AreOfSince (λ _. S.contents src.old) (S.readings src.old) (S.readings src.new) }
    ensures once { IsReadOnce given.now (S.readings src.old) (S.readings src.new) }
{
    match given {
        Given::Name(name) => read_all(alloc, src, name.as_str(), most_of(content)),
        Given::Text(text) => copied(alloc, text.as_bytes(), most_of(content)),
    }
}

// Appends the words before a limit.
fn limit_words(content: Content) -> &'static str
    ensures { result.now ≡ limit_words content }
{
    match content {
        Content::Subject(Subject::Term(_)) => "limit bytes ",
        Content::Subject(Subject::Net) => "limit net ",
        Content::Journal => "limit journal ",
    }
}

// Appends the line by which a longer file is refused.
fn put_limit(alloc: Global, text: &mut Vec<u8>, content: Content) -> Result<(), NoMemory>
    ensures { OnOk result (text.new.items ≡ text.old.items ++ limit_line content) }
{
    put(text, limit_words(content).as_bytes())?;
    put_number(alloc, text, most_of(content) as u64)?;
    put(text, b"\n")
}

/// The answer where there are no bytes of a file, and why there are none.
pub fn refusal(alloc: Global, fault: ReadAll, content: Content) -> Result<Answer, NoMemory>
    ensures text { IfOk result (λ a. IsRefusal fault content a.text.items) }
    ensures refused { IfOk result (λ a. a.end ≡ End.Refused) }
{
    let mut text = Vec::new(alloc);
    match fault {
        ReadAll::NoMemory => return Err(NoMemory),
        ReadAll::Fault => put(&mut text, b"read fault\n")?,
        ReadAll::TooLong => put_limit(alloc, &mut text, content)?,
    }
    let end = End::Refused;
    Ok(Answer { text, end })
}
