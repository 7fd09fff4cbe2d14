//! What is told of a term: the values that fit it, and those that fit the parts of these values.

ghost use Rattle.std.specs.Prelude.{◌≡◌, ◌+◌, ◌<◌, ◌^◌, ◌++◌, ◌↔◌, [], is_some, IsTrue, IfOk, OnOk};
ghost use Rattle.std.specs.Fmt.{decimal};
ghost use Rattle.ol_term.specs.Trees.{tree_of, depth};
ghost use Rattle.ol_decoding.specs.Told.{line, lines, within, IsTold, SomeFits};
ghost use Rattle.ol_decoding.specs.Decoders.{values, some_found, truth_line, count_line, pair_line, told};

use crate::decoders::{boolean, church, is_pair, item_count, list, scott};
use ol_limits::NoMemory;
use ol_subjects::{put, put_number};
use ol_term::Term;
use std::alloc::Global;

// A line behind the number of a part.
fn put_line(text: &mut Vec<u8>, number: &[u8], words: &[u8]) -> Result<(), NoMemory>
    ensures { OnOk result (text.new.items ≡ text.old.items ++ line number.now words.now) }
{
    put(text, number)?;
    put(text, words)?;
    put(text, b"\n")
}

// The line of a truth value, where there is one.
fn put_truth(text: &mut Vec<u8>, number: &[u8], truth: Option<bool>) -> Result<(), NoMemory>
    ensures { OnOk result (text.new.items ≡ text.old.items ++ truth_line number.now truth) }
{
    match truth {
        None => Ok(()),
        Some(true) => put_line(text, number, b"true"),
        Some(false) => put_line(text, number, b"false"),
    }
}

// The line of some words and a number, where there is one.
pub fn put_count(
    alloc: Global,
    text: &mut Vec<u8>,
    number: &[u8],
    words: &[u8],
    count: Option<u32>,
) -> Result<(), NoMemory>
    ensures { OnOk result
        (text.new.items ≡ text.old.items ++ count_line number.now words.now count) }
{
    let Some(count) = count else {
        return Ok(());
    };
    put(text, number)?;
    put(text, words)?;
    put_number(alloc, text, count as u64)?;
    put(text, b"\n")
}

// The line of a pair, where there is one.
fn put_pair(text: &mut Vec<u8>, number: &[u8], pair: bool) -> Result<(), NoMemory>
    ensures { OnOk result (text.new.items ≡ text.old.items ++ pair_line number.now pair) }
{
    if pair {
        put_line(text, number, b"pair")
    } else {
        Ok(())
    }
}

// Whether some value fits a term.
fn some_found(term: &Term) -> bool
    requires shallow { depth (tree_of term.now) < 2 ^ 32 }
    ensures { result ≡ some_found (tree_of term.now) }
{
    boolean(term).is_some()
        || church(term).is_some()
        || list(term).is_some()
        || is_pair(term)
        || scott(term).is_some()
}

// The lines of the values that fit a term, or the line that none does.
fn put_lines(alloc: Global, text: &mut Vec<u8>, number: &[u8], term: &Term) -> Result<(), NoMemory>
    requires shallow { depth (tree_of term.now) < 2 ^ 32 }
    ensures { OnOk result
        (text.new.items ≡ text.old.items ++ lines number.now (values (tree_of term.now))) }
{
    if !some_found(term) {
        return put_line(text, number, b"no encoding fits");
    }
    put_truth(text, number, boolean(term))?;
    put_count(alloc, text, number, b"Church numeral ", church(term))?;
    put_count(alloc, text, number, b"list of ", list(term))?;
    put_pair(text, number, is_pair(term))?;
    put_count(alloc, text, number, b"Scott numeral ", scott(term))
}

// The number of a part within a part.
fn within(alloc: Global, number: &[u8], part: u32) -> Result<Vec<u8>, NoMemory>
    ensures { IfOk result (λ text. text.items ≡ within number.now part) }
{
    let mut text = Vec::new(alloc);
    put(&mut text, number)?;
    put_number(alloc, &mut text, part as u64)?;
    put(&mut text, b": ")?;
    Ok(text)
}

// The number of the next item. A list has fewer than 2^32 items, each of which takes memory.
fn after(item: u32) -> Result<u32, NoMemory>
    ensures { IfOk result (λ r. r ≡ item + 1) }
{
    match item.checked_add(1) {
        Some(next) => Ok(next),
        None => Err(NoMemory),
    }
}

// What is told of a term that has this number, or of the items of a list from one on.
fn put_told(
    alloc: Global,
    text: &mut Vec<u8>,
    number: &[u8],
    from: Option<u32>,
    term: &Term,
) -> Result<(), NoMemory>
    requires shallow { depth (tree_of term.now) < 2 ^ 32 }
    ensures { OnOk result
        (text.new.items ≡ text.old.items ++ told number.now from (tree_of term.now)) }
{
    match from {
        None => {
            put_lines(alloc, text, number, term)?;
            match term {
                Term::Lam(first) => match &**first {
                    Term::Lam(fold) => {
                        if item_count(fold).is_none() {
                            return Ok(());
                        }
                        put_told(alloc, text, number, Some(1), fold)
                    }
                    Term::App(left, second) => match &**left {
                        Term::App(_, part) => {
                            if !is_pair(term) {
                                return Ok(());
                            }
                            let one = within(alloc, number, 1)?;
                            put_told(alloc, text, &one, None, part)?;
                            let two = within(alloc, number, 2)?;
                            put_told(alloc, text, &two, None, second)
                        }
                        _ => Ok(()),
                    },
                    _ => Ok(()),
                },
                _ => Ok(()),
            }
        }
        Some(item) => match term {
            Term::App(step, rest) => match &**step {
                Term::App(_, part) => {
                    let inside = within(alloc, number, item)?;
                    put_told(alloc, text, &inside, None, part)?;
                    put_told(alloc, text, number, Some(after(item)?), rest)
                }
                _ => Ok(()),
            },
            _ => Ok(()),
        },
    }
}

/// What is told of a term.
#[derive(Drop)]
pub struct Told {
    /// Its lines.
    pub text: Vec<u8>,
    /// Whether some value fits the term.
    pub fits: bool,
}

/// What is told of a term: a line for each value that fits, `true` or `false` first, then a Church
/// numeral, a list, a pair and a Scott numeral; or `no encoding fits`. Behind it stands the same of
/// the items of a list or of the two parts of a pair, each line behind the number of its part.
///
/// The term's depth is below 2^32, and the call is as deep as the term. `NoMemory`: no memory was
/// found.
pub fn tell(alloc: Global, term: &Term) -> Result<Told, NoMemory>
    requires shallow { depth (tree_of term.now) < 2 ^ 32 }
    ensures text { IfOk result (λ r. IsTold [] (tree_of term.now) r.text.items) }
    ensures fits { IfOk result (λ r. IsTrue r.fits ↔ SomeFits (tree_of term.now)) }
{
    let mut text = Vec::new(alloc);
    put_told(alloc, &mut text, b"", None, term)?;
    let fits = some_found(term);
    Ok(Told { text, fits })
}
