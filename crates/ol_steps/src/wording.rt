//! The words by which parts of a term are written.

ghost use Rattle.std.specs.Prelude.{◌≡◌, ◌+◌, ◌<◌, ◌^◌, ◌++◌, length, not, IfOk, OnOk};
ghost use Rattle.ol_term.specs.Trees.{tree_of};
ghost use Rattle.ol_term.specs.BinderNames.{is_among};
ghost use Rattle.ol_steps.specs.Binders.{leaf};
ghost use Rattle.ol_steps.specs.EarlierTerms.{glossary_of};
ghost use Rattle.ol_steps.specs.Lets.{names_of_lets, row_if};
ghost use Rattle.ol_steps.specs.Trees.{binders_in};
ghost use Rattle.ol_steps.specs.ValueTrees.{row_of, rows_of};
ghost use Rattle.ol_steps.specs.Words.{barred, is_alike, is_value_of, names_for, new_rows, written_number, row_at, word_for, word_rows, worded};

use crate::folding::{abstraction, application, is_same};
use crate::lets::{Lets, NamedValue, add_if, is_name};
use crate::naming::is_same as is_same_name;
use crate::trees::{BinderTree, names_in_argument, names_in_body, names_in_function};
use ol_limits::NoMemory;
use ol_subjects::put;
use ol_term::{Names, Term};
use std::alloc::Global;

// Whether binders have the same names.
fn is_alike(binders: &BinderTree, other: &BinderTree) -> bool
    ensures { result ≡ is_alike (binders_in binders.now) (binders_in other.now) }
{
    match (binders, other) {
        (BinderTree::Leaf, BinderTree::Leaf) => true,
        (BinderTree::Binder(name, body), BinderTree::Binder(second, inner)) => {
            is_same_name(name, second) && is_alike(body, inner)
        }
        (BinderTree::Parts(left, right), BinderTree::Parts(first, second)) => {
            is_alike(left, first) && is_alike(right, second)
        }
        _ => false,
    }
}

// Whether a part is the value of a row and, if `kept`, its binders have the names of the value's.
fn is_value_of(kept: bool, row: &NamedValue, term: &Term, binders: &BinderTree) -> bool
    ensures { result
        ≡ is_value_of kept (row_of row.now) (tree_of term.now) (binders_in binders.now) }
{
    is_same(&row.value, term) && (!kept || is_alike(&row.binders, binders))
}

// A name before others, with a bar between them.
fn barred(alloc: Global, name: &[u8], others: &[u8]) -> Result<Vec<u8>, NoMemory>
    ensures { IfOk result (λ word. word.items ≡ barred name.now others.now) }
{
    let mut word = Vec::from_slice(alloc, name)?;
    if others.is_empty() {
        return Ok(word);
    }
    word.push(b'|')?;
    put(&mut word, others)?;
    Ok(word)
}

// The names of the rows whose value a part is.
fn names_for(
    alloc: Global,
    kept: bool,
    rows: &[NamedValue],
    term: &Term,
    binders: &BinderTree,
) -> Result<Vec<u8>, NoMemory>
    ensures { IfOk result (λ word. word.items
        ≡ names_for kept (rows_of rows.now) (tree_of term.now) (binders_in binders.now)) }
{
    let Some((row, left)) = rows.split_first() else {
        return Ok(Vec::new(alloc));
    };
    let others = names_for(alloc, kept, left, term, binders)?;
    if is_value_of(kept, row, term, binders) {
        let word = barred(alloc, &row.name, &others)?;
        return Ok(word);
    }
    Ok(others)
}

// The word of a part.
fn word_for(
    alloc: Global,
    rows: &[NamedValue],
    term: &Term,
    binders: &BinderTree,
) -> Result<Vec<u8>, NoMemory>
    ensures { IfOk result (λ word. word.items
        ≡ word_for (rows_of rows.now) (tree_of term.now) (binders_in binders.now)) }
{
    let kept = names_for(alloc, true, rows, term, binders)?;
    if kept.is_empty() {
        let all = names_for(alloc, false, rows, term, binders)?;
        return Ok(all);
    }
    Ok(kept)
}

// Appends a word and its value, if the word is no name yet.
fn add_new(
    alloc: Global,
    names: &mut Names,
    words: &mut Vec<NamedValue>,
    word: &[u8],
    value: &Term,
) -> Result<(), NoMemory>
    ensures names { OnOk result (names.new ≡ names.old ++ names_of_lets (row_if
        (not (is_among names.old word.now)) word.now (tree_of value.now) leaf)) }
    ensures words { OnOk result (rows_of words.new.items ≡ rows_of words.old.items ++ row_if
        (not (is_among names.old word.now)) word.now (tree_of value.now) leaf) }
{
    let is_new = !is_name(names, word);
    add_if(alloc, names, words, is_new, word, value, &BinderTree::Leaf)?;
    Ok(())
}

/// Appends the words of the values of the rows that are left, each with its value, if it is no name
/// yet. The calls recurse for each row. `NoMemory`: no memory was found.
pub fn add_words(
    alloc: Global,
    names: &mut Names,
    words: &mut Vec<NamedValue>,
    rows: &[NamedValue],
    left: &[NamedValue],
) -> Result<(), NoMemory>
    ensures names { OnOk result (names.new ≡ names.old ++ names_of_lets
        (new_rows names.old (word_rows (rows_of rows.now) (rows_of left.now)))) }
    ensures words { OnOk result (rows_of words.new.items ≡ rows_of words.old.items
        ++ new_rows names.old (word_rows (rows_of rows.now) (rows_of left.now))) }
{
    let Some((row, others)) = left.split_first() else {
        return Ok(());
    };
    let kept = names_for(alloc, true, rows, &row.value, &row.binders)?;
    add_new(alloc, names, words, &kept, &row.value)?;
    let all = names_for(alloc, false, rows, &row.value, &row.binders)?;
    add_new(alloc, names, words, &all, &row.value)?;
    add_words(alloc, names, words, rows, others)?;
    Ok(())
}

// The number of the first row of this name and this value.
fn row_at(first: u32, rows: &[NamedValue], word: &[u8], value: &Term) -> Option<u32>
    requires few { first + length rows.now < 2 ^ 32 }
    ensures { result ≡ row_at first (rows_of rows.now) word.now (tree_of value.now) }
{
    let Some((row, left)) = rows.split_first() else {
        return None;
    };
    if is_same_name(&row.name, word) && is_same(&row.value, value) {
        return Some(first);
    }
    row_at(first + 1, left, word, value)
}

// The number of the word of a part that has become free name `k`.
fn written_number(
    alloc: Global,
    lets: &Lets,
    names: &Names,
    k: u32,
    binders: &BinderTree,
) -> Result<u32, NoMemory>
    ensures { IfOk result (λ n. n
        ≡ written_number (glossary_of names.now lets.now) k (binders_in binders.now)) }
{
    if k < lets.first {
        return Ok(k);
    }
    let Some(row) = lets.rows.get((k - lets.first) as usize) else {
        return Ok(k);
    };
    let word = word_for(alloc, &lets.rows[..lets.own], &row.value, binders)?;
    Ok(row_at(lets.first, &lets.rows, &word, &row.value).unwrap_or(k))
}

/// A folded term, in which each part that has become a name is written by its word: the names of
/// the lets whose value the part is and whose binders have the names of the part's binders, or, if
/// there are none, the names of all lets whose value it is, with a bar between each two names. The
/// binders are those that the term had before it was folded. The calls recurse as deep as the term
/// is, and for each let. `NoMemory`: no memory was found.
pub fn word(
    alloc: Global,
    lets: &Lets,
    names: &Names,
    term: &Term,
    binders: &BinderTree,
) -> Result<Term, NoMemory>
    ensures { IfOk result (λ t. tree_of t
        ≡ worded (glossary_of names.now lets.now) (tree_of term.now) (binders_in binders.now)) }
{
    match term {
        Term::Var(k) => Ok(Term::Var(*k)),
        Term::Free(k) => {
            let number = written_number(alloc, lets, names, *k, binders)?;
            Ok(Term::Free(number))
        }
        Term::Lam(body) => {
            let body = word(alloc, lets, names, body, names_in_body(binders))?;
            let whole = abstraction(alloc, body)?;
            Ok(whole)
        }
        Term::App(function, argument) => {
            let function = word(alloc, lets, names, function, names_in_function(binders))?;
            let argument = word(alloc, lets, names, argument, names_in_argument(binders))?;
            let whole = application(alloc, function, argument)?;
            Ok(whole)
        }
    }
}
