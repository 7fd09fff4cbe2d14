//! The carets under a subterm.

ghost use Rattle.std.specs.Prelude.{◌≡◌, ◌+◌, ◌++◌, length, replicate, true, false, OnOk, IfOk};
ghost use Rattle.ol_steps.specs.Terms.{named_of};
ghost use Rattle.ol_steps.specs.NamedTexts.{named_text};
ghost use Rattle.ol_steps.specs.Marks.{mark_line, part, text_before};

use crate::printing::{
    before_binder, before_body, is_abstraction, is_name, left_bracket, put_part, right_bracket,
};
use crate::terms::NamedTerm;
use ol_limits::NoMemory;
use ol_subjects::put;
use std::alloc::Global;

// What is printed before an application at an address. The application itself is handed back.
fn put_before<'a>(
    text: &mut Vec<u8>,
    term: &'a NamedTerm,
    at: &[u8],
    body: bool,
) -> Result<&'a NamedTerm, NoMemory>
    ensures text { OnOk result
        (text.new.items ≡ text.old.items ++ text_before body (named_of term.now) at.now) }
    ensures part { IfOk result (λ u. named_of u.now ≡ part (named_of term.now) at.now) }
{
    match (term, at.split_first()) {
        (NamedTerm::Abstraction(binder, inner), Some((_, rest))) => {
            put(text, before_binder(body).as_bytes())?;
            put(text, binder)?;
            let found = put_before(text, inner, rest, true)?;
            Ok(found)
        }
        (NamedTerm::Application(function, argument), Some((to, rest))) => {
            put(text, before_body(body).as_bytes())?;
            put(text, left_bracket(is_abstraction(function)).as_bytes())?;
            if *to == 1 {
                let found = put_before(text, function, rest, false)?;
                return Ok(found);
            }
            put_part(text, function, false)?;
            put(text, right_bracket(is_abstraction(function)).as_bytes())?;
            put(text, b" ")?;
            put(text, left_bracket(!is_name(argument)).as_bytes())?;
            let found = put_before(text, argument, rest, false)?;
            Ok(found)
        }
        _ => {
            put(text, before_body(body).as_bytes())?;
            Ok(term)
        }
    }
}

// A byte so many times.
fn put_times(text: &mut Vec<u8>, byte: u8, times: usize) -> Result<(), NoMemory>
    ensures { OnOk result (text.new.items ≡ text.old.items ++ replicate times byte) }
{
    for _k in 0..times {
        text.push(byte)?;
    }
    Ok(())
}

/// Appends the line of carets under the application at an address of a term, as it stands below
/// the term's own line: a space for each byte before the application, and a caret for each byte of
/// its text, without brackets round it. The calls recurse as deep as the term is. `NoMemory`: no
/// memory was found.
pub fn put_mark(
    alloc: Global,
    text: &mut Vec<u8>,
    term: &NamedTerm,
    at: &[u8],
) -> Result<(), NoMemory>
    ensures { OnOk result
        (text.new.items ≡ text.old.items ++ mark_line (named_of term.now) at.now) }
{
    let mut before = Vec::new(alloc);
    let marked = put_before(&mut before, term, at, false)?;
    let mut itself = Vec::new(alloc);
    put_part(&mut itself, marked, false)?;
    put_times(text, b' ', before.len())?;
    put_times(text, b'^', itself.len())?;
    put(text, b"\n")
}
