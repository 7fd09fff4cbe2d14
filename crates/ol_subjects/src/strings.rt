//! Strings and arrays of strings, as JSON writes them.

ghost use Rattle.std.specs.Prelude.{◌≡◌, ◌++◌, ◌<◌, [], map, IfOk, OnOk};
ghost use Rattle.ol_subjects.specs.Strings.{array_of, hex_digit, in_string, lines_of, pieces_of, stands, string, strings_after};

use crate::texts::put;
use ol_limits::NoMemory;
use std::alloc::{AllocError, Global};

fn stands(byte: u8) -> bool
    ensures { result ≡ stands byte }
{
    31 < byte && byte < 127 && byte != b'"' && byte != b'\\'
}

fn hex_digit(value: u8) -> u8
    requires { value < 16 }
    ensures { result ≡ hex_digit value }
{
    if value < 10 {
        b'0' + value
    } else {
        b'a' + (value - 10)
    }
}

// Appends what stands for a byte in a string.
fn put_in_string(text: &mut Vec<u8>, byte: u8) -> Result<(), NoMemory>
    ensures { OnOk result (text.new.items ≡ text.old.items ++ in_string byte) }
{
    if stands(byte) {
        return put(text, &[byte]);
    }
    put(text, b"\\u00")?;
    put(text, &[hex_digit(byte / 16), hex_digit(byte % 16)])
}

// Appends a string.
fn put_string(text: &mut Vec<u8>, bytes: &[u8]) -> Result<(), NoMemory>
    ensures { OnOk result (text.new.items ≡ text.old.items ++ string bytes.now) }
{
    put(text, b"\"")?;
    for byte in bytes {
        put_in_string(text, *byte)?;
    }
    put(text, b"\"")
}

// What stands between line feeds.
fn pieces(alloc: Global, text: &[u8]) -> Result<Vec<&[u8]>, AllocError>
    ensures { IfOk result (λ pieces. map (λ x. x.now) pieces.items ≡ pieces_of text.now) }
{
    text.split(|byte| *byte == b'\n').collect(alloc)
}

// Appends strings, a comma between each two.
fn put_strings(text: &mut Vec<u8>, lines: &[&[u8]]) -> Result<(), NoMemory>
    ensures { OnOk result (text.new.items
        ≡ text.old.items ++ strings_after [] (map (λ x. x.now) lines.now)) }
{
    let mut before: &[u8] = b"";
    for k in 0..lines.len() {
        put(text, before)?;
        put_string(text, lines[k])?;
        before = b",";
    }
    Ok(())
}

// Appends an array of strings.
fn put_array(text: &mut Vec<u8>, lines: &[&[u8]]) -> Result<(), NoMemory>
    ensures { OnOk result (text.new.items
        ≡ text.old.items ++ array_of (map (λ x. x.now) lines.now)) }
{
    put(text, b"[")?;
    put_strings(text, lines)?;
    put(text, b"]")
}

/// Appends the lines of a text, each of which ends with a line feed, as a JSON array of strings
/// (RFC 8259, sections 5 and 7). Where the last byte is another it is left out all the same. A byte
/// that isn't a printable one of ASCII is written by its number, so the array is ASCII whatever the
/// text has. `NoMemory`: no memory was found.
pub fn put_lines(alloc: Global, text: &mut Vec<u8>, lines: &[u8]) -> Result<(), NoMemory>
    ensures { OnOk result (text.new.items ≡ text.old.items ++ array_of (lines_of lines.now)) }
{
    if lines.is_empty() {
        return put(text, b"[]");
    }
    let pieces = pieces(alloc, &lines[..lines.len() - 1])?;
    put_array(text, &pieces)
}
