//! The command `where` of a byte: its line and its column.

ghost use Rattle.std.specs.Prelude.{◌≡◌, ◌≢◌, ℕ, ◌+◌, ◌-◌, ◌<◌, ◌≤◌, ◌++◌, ◌⊎◌, length, take, drop, count_by, slice_index, IfOk, OnOk};
ghost use Rattle.ol_places.specs.Places.{is_feed, blank, blanks, line_and_column, place_text, past_text, IsLineOf, IsWhere};

use ol_limits::NoMemory;
use ol_subjects::{Answer, End, put, put_number};
use std::alloc::Global;

const FEED: u8 = 10;

// Where the line of this place begins.
fn line_start(bytes: &[u8], at: usize) -> usize
    requires { at ≤ length bytes.now }
    ensures before { result ≤ at }
    ensures one_line { (k : ℕ) → result ≤ k → k < at → slice_index bytes.now k ≢ 10 }
    ensures begins { (result ≡ 0) ⊎ (slice_index bytes.now (result - 1) ≡ 10) }
{
    let mut start = at;
    while start > 0 && bytes[start - 1] != FEED {
        start -= 1;
    }
    start
}

// Where the line of this place ends: at its line feed, or at the end of the bytes.
fn line_end(bytes: &[u8], at: usize) -> usize
    requires { at ≤ length bytes.now }
    ensures after { at ≤ result }
    ensures within { result ≤ length bytes.now }
    ensures one_line { (k : ℕ) → at ≤ k → k < result → slice_index bytes.now k ≢ 10 }
    ensures ends { (result ≡ length bytes.now) ⊎ (slice_index bytes.now result ≡ 10) }
{
    let mut end = at;
    while end < bytes.len() && bytes[end] != FEED {
        end += 1;
    }
    end
}

// Where the line of this place begins and ends.
pub fn line_of(bytes: &[u8], at: usize) -> (usize, usize)
    requires { at ≤ length bytes.now }
    ensures { IsLineOf bytes.now at result.0 result.1 }
{
    (line_start(bytes, at), line_end(bytes, at))
}

// How many lines end in these bytes.
fn lines_in(bytes: &[u8]) -> usize
    ensures { result ≡ count_by is_feed bytes.now }
{
    bytes.iter().filter(|byte| **byte == FEED).count()
}

// What is as wide as a byte: a tab for a tab, nothing for a later byte of a sign of several bytes,
// else a space.
fn put_blank(text: &mut Vec<u8>, byte: u8) -> Result<(), NoMemory>
    ensures { OnOk result (text.new.items ≡ text.old.items ++ blank byte) }
{
    if byte == b'\t' {
        put(text, b"\t")
    } else if byte < 128 || 191 < byte {
        put(text, b" ")
    } else {
        put(text, b"")
    }
}

// What is as wide as these bytes.
fn put_blanks(text: &mut Vec<u8>, front: &[u8]) -> Result<(), NoMemory>
    ensures { OnOk result (text.new.items ≡ text.old.items ++ blanks front.now) }
{
    for k in 0..front.len() {
        put_blank(text, front[k])?;
    }
    Ok(())
}

// Appends the numbers of the line and of the column of a place.
pub fn put_line_and_column(
    alloc: Global,
    text: &mut Vec<u8>,
    bytes: &[u8],
    at: usize,
    start: usize,
) -> Result<(), NoMemory>
    requires before { start ≤ at }
    requires within { at ≤ length bytes.now }
    ensures { OnOk result
        (text.new.items ≡ text.old.items ++ line_and_column bytes.now at start) }
{
    put(text, b"line ")?;
    put_number(alloc, text, lines_in(&bytes[..start]) as u64 + 1)?;
    put(text, b", column ")?;
    put_number(alloc, text, (at - start) as u64 + 1)
}

// The text of a place within the bytes, or at their end.
pub fn place_text(
    alloc: Global,
    bytes: &[u8],
    at: usize,
    start: usize,
    end: usize,
) -> Result<Vec<u8>, NoMemory>
    requires line { IsLineOf bytes.now at start end }
    ensures { IfOk result (λ text. text.items ≡ place_text bytes.now at start end) }
{
    let mut text = Vec::new(alloc);
    put_line_and_column(alloc, &mut text, bytes, at, start)?;
    put(&mut text, b"\n")?;
    put(&mut text, &bytes[start..][..end - start])?;
    put(&mut text, b"\n")?;
    put_blanks(&mut text, &bytes[start..][..at - start])?;
    put(&mut text, b"^\n")?;
    Ok(text)
}

// The text where there is no such place.
fn past_text(alloc: Global, length: usize) -> Result<Vec<u8>, NoMemory>
    ensures { IfOk result (λ text. text.items ≡ past_text length) }
{
    let mut text = Vec::new(alloc);
    put(&mut text, b"past the end at byte ")?;
    put_number(alloc, &mut text, length as u64)?;
    put(&mut text, b"\n")?;
    Ok(text)
}

/// Where a byte stands, counted from 0 as in `syntax at byte B`: its line and its column, the line
/// itself, and a caret below the byte. Lines and columns are counted from 1, columns in bytes. The
/// place behind the last byte is one too. `No`: the bytes end before. `NoMemory`: no memory was
/// found.
pub fn whereabouts(alloc: Global, bytes: &[u8], at: usize) -> Result<Answer, NoMemory>
    ensures { IfOk result (λ a. IsWhere bytes.now at a.text.items a.end) }
{
    if at > bytes.len() {
        let text = past_text(alloc, bytes.len())?;
        let end = End::No;
        return Ok(Answer { text, end });
    }
    let (start, last) = line_of(bytes, at);
    let text = place_text(alloc, bytes, at, start, last)?;
    let end = End::Yes;
    Ok(Answer { text, end })
}
