//! The function of a text.

ghost use Rattle.std.specs.Prelude.{◌≡◌, ◌+◌, ◌-◌, ◌≤◌, ◌++◌, [], length, take, slice_index_or, codes, IfOk};
ghost use Rattle.ol_derivations.specs.Lines.{lines_of};
ghost use Rattle.ol_derivations.specs.Grades.{place_words};
ghost use Rattle.ol_derivations.specs.StudentsSoFar.{IsParsed, seen_lines};

use crate::applying::Function;
use crate::lines::{lines_of, words_of};
use ol_limits::{MOST_TERM_BYTES, NoMemory};
use ol_parse::{ParseFault, parse};
use ol_subjects::{put, put_number};
use std::alloc::Global;

// The column behind the last of some lines. No line is so long that its column has no number.
fn last_column(lines: &[&[u8]]) -> Result<u64, NoMemory>
    ensures { IfOk result (λ column. column ≡ length
        (slice_index_or (seen_lines lines.now) (length lines.now - 1) []) + 1) }
{
    let Some(line) = lines.last() else {
        return Ok(1);
    };
    match line.len().checked_add(1) {
        Some(column) => Ok(column as u64),
        None => Err(NoMemory),
    }
}

// The words of a text that isn't in the grammar from this byte on.
fn syntax_words(alloc: Global, bytes: &[u8], at: usize) -> Result<Vec<u8>, NoMemory>
    requires within { at ≤ length bytes.now }
    ensures { IfOk result (λ text. text.items ≡ codes "syntax, " ++ place_words bytes.now at) }
{
    let front = lines_of(alloc, &bytes[..at])?;
    let column = last_column(&front)?;
    let mut text = Vec::new(alloc);
    put(&mut text, b"syntax, line ")?;
    put_number(alloc, &mut text, front.len() as u64)?;
    put(&mut text, b", column ")?;
    put_number(alloc, &mut text, column)?;
    Ok(text)
}

/// What comes of a text.
#[derive(Drop)]
pub enum Parsed<'a> {
    /// A function.
    Function(Function<'a>),
    /// The words that say why it is none.
    Fault(Vec<u8>),
}

/// The function of a text, or why the text is none. `NoMemory`: no memory was found.
pub fn function_of<'a>(alloc: Global, text: &'a [u8]) -> Result<Parsed<'a>, NoMemory>
    ensures { IfOk result (IsParsed text.now) }
{
    if text.len() > MOST_TERM_BYTES as usize {
        let words = words_of(alloc, b"limit bytes 1048576")?;
        return Ok(Parsed::Fault(words));
    }
    match parse(alloc, text) {
        Ok(file) => Ok(Parsed::Function(Function { text, file })),
        Err(fault) => match fault {
            ParseFault::NoMemory => Err(NoMemory),
            ParseFault::Syntax { at } => {
                let words = syntax_words(alloc, text, at)?;
                Ok(Parsed::Fault(words))
            }
            ParseFault::Depth { .. } => {
                let words = words_of(alloc, b"limit depth 1000")?;
                Ok(Parsed::Fault(words))
            }
        },
    }
}
