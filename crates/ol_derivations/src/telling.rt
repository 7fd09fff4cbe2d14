//! The lines of the answer.

ghost use Rattle.std.specs.Prelude.{◌≡◌, ◌++◌, [], if◌then◌else◌, codes, IfOk, OnOk};
ghost use Rattle.std.specs.List.{flat_map};
ghost use Rattle.std.specs.Fmt.{decimal};
ghost use Rattle.ol_beta.specs.AddressTexts.{address_text};
ghost use Rattle.ol_derivations.specs.Verdicts.{verdict_words};
ghost use Rattle.ol_derivations.specs.Derivations.{line_text};

use crate::judging::Verdict;
use ol_limits::NoMemory;
use ol_subjects::{put, put_number};
use std::alloc::Global;

// The moves of an address.
fn put_moves(alloc: Global, text: &mut Vec<u8>, at: &[u8]) -> Result<(), NoMemory>
    ensures { OnOk result (text.new.items ≡ text.old.items ++ flat_map decimal at.now) }
{
    for k in 0..at.len() {
        put_number(alloc, text, at[k] as u64)?;
    }
    Ok(())
}

// An address: a dot for the root, else the digits of its moves.
fn put_address(alloc: Global, text: &mut Vec<u8>, at: &[u8]) -> Result<(), NoMemory>
    ensures { OnOk result (text.new.items ≡ text.old.items ++ address_text at.now) }
{
    if at.is_empty() {
        put(text, b".")
    } else {
        put_moves(alloc, text, at)
    }
}

// The words of one beta step.
fn step_words(alloc: Global, at: &[u8], leftmost: bool) -> Result<Vec<u8>, NoMemory>
    ensures { IfOk result (λ text. text.items ≡ codes "one beta step, at " ++ address_text at.now
        ++ (if leftmost then codes ", leftmost" else [])) }
{
    let mut text = Vec::new(alloc);
    put(&mut text, b"one beta step, at ")?;
    put_address(alloc, &mut text, at)?;
    if leftmost {
        put(&mut text, b", leftmost")?;
    }
    Ok(text)
}

// The words of a verdict, where the term before stands on line m.
fn verdict_words(alloc: Global, m: usize, verdict: &Verdict) -> Result<Vec<u8>, NoMemory>
    ensures { IfOk result (λ text. text.items ≡ verdict_words m verdict.now) }
{
    match verdict {
        Verdict::Step { at, leftmost } => {
            let text = step_words(alloc, at, *leftmost)?;
            Ok(text)
        }
        Verdict::Same => {
            let mut text = Vec::new(alloc);
            put(&mut text, b"the same term")?;
            Ok(text)
        }
        Verdict::Steps(steps) => {
            let mut text = Vec::new(alloc);
            put_number(alloc, &mut text, *steps as u64)?;
            put(&mut text, b" steps")?;
            Ok(text)
        }
        Verdict::Apart => {
            let mut text = Vec::new(alloc);
            put(&mut text, b"not convertible")?;
            Ok(text)
        }
        Verdict::NoStep => {
            let mut text = Vec::new(alloc);
            put(&mut text, b"no beta step of line ")?;
            put_number(alloc, &mut text, m as u64)?;
            Ok(text)
        }
    }
}

/// The line with some words about line n.
pub fn line_text(alloc: Global, n: usize, words: &[u8]) -> Result<Vec<u8>, NoMemory>
    ensures { IfOk result (λ text. text.items ≡ line_text n words.now) }
{
    let mut text = Vec::new(alloc);
    put(&mut text, b"line ")?;
    put_number(alloc, &mut text, n as u64)?;
    put(&mut text, b": ")?;
    put(&mut text, words)?;
    put(&mut text, b"\n")?;
    Ok(text)
}

/// The line of a verdict on the term of line n, where the term before stands on line m.
pub fn verdict_line(
    alloc: Global,
    n: usize,
    m: usize,
    verdict: &Verdict,
) -> Result<Vec<u8>, NoMemory>
    ensures { IfOk result (λ text. text.items ≡ line_text n (verdict_words m verdict.now)) }
{
    let words = verdict_words(alloc, m, verdict)?;
    line_text(alloc, n, &words)
}
