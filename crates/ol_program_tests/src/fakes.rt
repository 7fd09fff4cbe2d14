//! Calls of `ol` over the fakes, as a page shows them.
//!
//! A call is a line `WORDS < FIRST < SECOND ! READ WRITE`. It has the words behind the program's
//! name, the text of standard input and that of the file `j`, as `spelled` says. Then come the
//! numbers of the calls of the source and of the sink that fail, `-` where none does. Of these three
//! ends each may be missing, the last one first. Where the last one stands, a call of the source or
//! the sink hands over three bytes at most.
ghost use Rattle.std.specs.Prelude.{◌<◌};

use ol_cli::{Outcome, ol};
use ol_io::{Gate, MemFile, MemSink, MemSource};
use std::alloc::{AllocError, Global};
use std::sync::Wait;
use std::test::Fail;
use std::thread::Threads;

// The program's name, and words that stand apart by spaces.
pub fn words_of(alloc: Global, line: &str) -> Result<Vec<String>, AllocError> {
    let mut words = Vec::new(alloc);
    words.push(String::from_str(alloc, "ol")?)?;
    for word in line.split_ascii_whitespace() {
        words.push(String::from_str(alloc, word)?)?;
    }
    Ok(words)
}

// A text, and so many times two of what came before in brackets, side by side.
fn tree(alloc: Global, leaf: &str, levels: u32) -> Result<String, AllocError> {
    let mut text = String::from_str(alloc, leaf)?;
    for _level in 0..levels {
        text = format!(in alloc; "({text} {text})")?;
    }
    Ok(text)
}

// Puts a text behind others, `|` as a line feed.
fn put(all: &mut Vec<u8>, text: &str) -> Result<(), AllocError> {
    for byte in text.bytes() {
        all.push(if byte == b'|' { b'\n' } else { byte })?;
    }
    Ok(())
}

fn number(text: &str) -> u32 {
    match text.parse::<u32>() {
        Ok(number) => number,
        Err(_) => 1_000_000,
    }
}

// Puts a part as `spelled` has it.
fn put_part(alloc: Global, all: &mut Vec<u8>, part: &str) -> Result<(), AllocError> {
    if let Some((leaf, levels)) = part.split_once('^') {
        let text = tree(alloc, leaf, number(levels))?;
        return put(all, &text);
    }
    let (text, count) = part.split_once('*').unwrap_or((part, "1"));
    for _round in 0..number(count) {
        put(all, text)?;
    }
    Ok(())
}

/// A text by its parts, which commas part: `TEXT*COUNT` is TEXT so many times, and `TEXT^LEVELS` a
/// tree of applications of so many levels over it. A line feed is written `|`.
pub fn spelled(alloc: Global, parts: &str) -> Result<Vec<u8>, AllocError> {
    let mut all = Vec::new(alloc);
    for part in parts.split(',') {
        put_part(alloc, &mut all, part)?;
    }
    Ok(all)
}

/// A file in memory.
pub fn file(alloc: Global, name: &str, parts: &str) -> Result<MemFile, AllocError> {
    Ok(MemFile {
        name: String::from_str(alloc, name)?,
        bytes: spelled(alloc, parts)?,
    })
}

/// Standard input, and the file `j` where there is a second.
pub fn files_of(alloc: Global, texts: &str) -> Result<Vec<MemFile>, AllocError> {
    let (first, second) = texts.split_once(" < ").unwrap_or((texts, ""));
    let mut files = Vec::new(alloc);
    files.push(file(alloc, "-", first)?)?;
    files.push(file(alloc, "j", second)?)?;
    Ok(files)
}

/// A sink that takes so many bytes in a call, of which the one of this number fails.
pub fn sink(alloc: Global, most: usize, failing: u64) -> Result<MemSink, Fail>
    requires { 0 < most }
{
    let failing = Vec::from_slice(alloc, &[failing])?;
    let sink = MemSink::new(alloc, 1_048_576, most, failing)
        .ok()
        .ok_or("no memory")?;
    Ok(sink)
}

// How many bytes are handed over in a call where these calls fail.
fn most_of(failing: &str) -> usize
    ensures { 0 < result }
{
    if failing == "- -" { 65_536 } else { 3 }
}

// The status, and how many interactions the closed words have, where there are some.
fn head_of(alloc: Global, outcome: &Outcome) -> Result<String, AllocError> {
    match &outcome.closed {
        Some(words) => format!(in alloc; "{:?} {}\n", outcome.status, words.events()),
        None => format!(in alloc; "{:?}\n", outcome.status),
    }
}

// A line, and a text behind it: of a long one how many bytes it has, and the last of them.
fn shown(alloc: Global, head: &str, text: &[u8]) -> Result<Vec<u8>, AllocError> {
    let length = text.len();
    let mut all = Vec::from_slice(alloc, head.as_bytes())?;
    if length <= 600 {
        all.extend_from_slice(text)?;
    } else {
        let line = format!(in alloc; "{length} bytes, the last of them\n")?;
        all.extend_from_slice(line.as_bytes())?;
        all.extend_from_slice(&text[length - 20..])?;
    }
    Ok(all)
}

/// What a call comes to.
pub fn told(
    rt: &(impl Threads + Wait + Sync),
    alloc: Global,
    call: &str,
    gate: &(impl Gate + Sync),
) -> Result<Vec<u8>, Fail> {
    let (call, failing) = call.split_once(" ! ").unwrap_or((call, "- -"));
    let (read, write) = failing.split_once(' ').unwrap_or(("-", "-"));
    let (words, texts) = call.split_once(" < ").unwrap_or((call, ""));
    let most = most_of(failing);
    let words = words_of(alloc, words)?;
    let reads = Vec::from_slice(alloc, &[number(read) as u64])?;
    let mut src = MemSource::new(files_of(alloc, texts)?, most, reads);
    let mut out = sink(alloc, most, number(write) as u64)?;
    let outcome = ol(rt, alloc, &words, &mut src, &mut out, gate);
    let head = head_of(alloc, &outcome)?;
    let text = shown(alloc, &head, out.bytes())?;
    Ok(text)
}
