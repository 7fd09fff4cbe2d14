//! The command `free`: the free names of a text.

ghost use Rattle.std.specs.Prelude.{◌≡◌, ◌≤◌, ◌<◌, ◌^◌, ◌++◌, length, IfOk, OnOk};
ghost use Rattle.ol_limits.specs.Limits.{most_term_bytes};
ghost use Rattle.ol_places.specs.Frees.{line_if, or_closed, AreFreeLines, IsFree};
ghost use Rattle.ol_places.specs.Scans.{IsRefusal};

use crate::columns::Place;
use crate::scanning::{no_scan, take};
use crate::tokens::first_token;
use ol_limits::NoMemory;
use ol_parse::{ParseFault, parse};
use ol_subjects::{Answer, End, put, put_number};
use std::alloc::Global;

// Appends the line of a name, if it is free.
fn put_line(
    alloc: Global,
    text: &mut Vec<u8>,
    free: bool,
    name: &[u8],
    place: Place,
) -> Result<(), NoMemory>
    ensures { OnOk result (text.new.items ≡ text.old.items ++ line_if free name.now place) }
{
    let mut line = Vec::new(alloc);
    if free {
        put(&mut line, name)?;
        put(&mut line, b" line ")?;
        put_number(alloc, &mut line, place.line)?;
        put(&mut line, b" column ")?;
        put_number(alloc, &mut line, place.column)?;
        put(&mut line, b"\n")?;
    }
    put(text, &line)
}

// The lines of the free names, token by token.
fn free_lines(alloc: Global, bytes: &[u8]) -> Result<Vec<u8>, NoMemory>
    requires short { length bytes.now ≤ most_term_bytes }
    ensures { IfOk result (λ text. AreFreeLines bytes.now text.items) }
{
    let mut text = Vec::new(alloc);
    let mut scan = no_scan(alloc);
    let mut place = Place { line: 1, column: 1 };
    let mut rest = bytes;
    while let Some(first) = first_token(rest) {
        let (gap, behind) = rest.split_at(first.gap);
        let (token, left) = behind.split_at(first.length);
        let here = place.behind_all(gap);
        let free = take(&mut scan, first.kind, token)?;
        put_line(alloc, &mut text, free, token, here)?;
        place = here.behind_all(token);
        rest = left;
    }
    Ok(text)
}

// The lines, or that there are none.
fn or_closed(alloc: Global, lines: Vec<u8>) -> Result<Vec<u8>, NoMemory>
    ensures { IfOk result (λ text. text.items ≡ or_closed lines.items) }
{
    if !lines.is_empty() {
        return Ok(lines);
    }
    let mut text = Vec::new(alloc);
    put(&mut text, b"closed\n")?;
    Ok(text)
}

// The line by which a text is refused.
fn refusal(alloc: Global, fault: ParseFault) -> Result<Vec<u8>, NoMemory>
    ensures { IfOk result (λ text. IsRefusal fault text.items) }
{
    let mut text = Vec::new(alloc);
    match fault {
        ParseFault::NoMemory => return Err(NoMemory),
        ParseFault::Syntax { at } => {
            put(&mut text, b"syntax at byte ")?;
            put_number(alloc, &mut text, at as u64)?;
            put(&mut text, b"\n")?;
        }
        ParseFault::Depth { .. } => put(&mut text, b"limit depth 1000\n")?,
    }
    Ok(text)
}

/// The free names of a text: a line `x line L column C` for each occurrence, in the order of the
/// text. Lines and columns are counted from 1, columns in bytes. The file has at most 1,048,576
/// bytes.
///
/// - `Yes`: these lines, or `closed` if no name is free.
/// - `Refused`: the text isn't in the grammar, and the answer is `syntax at byte B`; or its term is
///   deeper than 1,000, and the answer is `limit depth 1000`.
///
/// `NoMemory`: no memory was found.
pub fn free_names(alloc: Global, bytes: &[u8]) -> Result<Answer, NoMemory>
    requires short { length bytes.now ≤ most_term_bytes }
    ensures { IfOk result (λ a. IsFree bytes.now a.text.items a.end) }
{
    let _file = match parse(alloc, bytes) {
        Ok(file) => file,
        Err(fault) => {
            let text = refusal(alloc, fault)?;
            let end = End::Refused;
            return Ok(Answer { text, end });
        }
    };
    let lines = free_lines(alloc, bytes)?;
    let text = or_closed(alloc, lines)?;
    let end = End::Yes;
    Ok(Answer { text, end })
}
