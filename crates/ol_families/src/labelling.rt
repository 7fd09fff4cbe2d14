//! Labelled terms.
//!
//! The calls recurse as deep as the term is: at most 1,000 calls deep on a term within bounds.

ghost use Rattle.std.specs.Prelude.{◌≡◌, ◌+◌, ◌<◌, ◌^◌, ◌∷◌, ◌++◌, [], IfOk, OnOk};
ghost use Rattle.ol_term.specs.Trees.{tree_of, term_size, depth};
ghost use Rattle.ol_beta.specs.Measures.{HasRoom};
ghost use Rattle.ol_families.specs.Held.{held_of, bare, before, lettered, shifted};

use crate::degrees::Letter;
use ol_limits::NoMemory;
use ol_term::Term;
use std::alloc::Global;

/// A term each of whose subterms has a label, a row of letters.
#[derive(Drop)]
pub enum LabelledTerm {
    Var(u32, Vec<Letter>),
    Free(u32, Vec<Letter>),
    Lam(Box<LabelledTerm>, Vec<Letter>),
    App(Box<LabelledTerm>, Box<LabelledTerm>, Vec<Letter>),
}

fn boxed(alloc: Global, term: LabelledTerm) -> Result<Box<LabelledTerm>, NoMemory>
    ensures { IfOk result (λ b. b.value ≡ term) }
{
    let boxed = Box::new(alloc, term)?;
    Ok(boxed)
}

/// A row of one letter.
pub fn row_of(alloc: Global, letter: Letter) -> Result<Vec<Letter>, NoMemory>
    ensures { IfOk result (λ row. row.items ≡ letter ∷ []) }
{
    let mut row = Vec::new(alloc);
    row.push(letter)?;
    Ok(row)
}

/// A copy of a row.
pub fn copied(alloc: Global, row: &[Letter]) -> Result<Vec<Letter>, NoMemory>
    ensures { IfOk result (λ copy. copy.items ≡ row.now) }
{
    let copy = Vec::from_slice(alloc, row)?;
    Ok(copy)
}

// A row before another.
fn joined(first: Vec<Letter>, second: &[Letter]) -> Result<Vec<Letter>, NoMemory>
    ensures { IfOk result (λ row. row.items ≡ first.items ++ second.now) }
{
    let mut row = first;
    row.extend_from_slice(second)?;
    Ok(row)
}

// The next letter that no subterm has yet.
fn own_letter(alloc: Global, next: &mut u32) -> Result<Vec<Letter>, NoMemory>
    requires few { next.old + 1 < 2 ^ 32 }
    ensures row { IfOk result (λ row. row.items ≡ Letter.Own next.old ∷ []) }
    ensures next { next.new ≡ next.old + 1 }
{
    let letter = Letter::Own(*next);
    *next += 1;
    row_of(alloc, letter)
}

/// A term each of whose subterms has a letter of its own, from `next` on, in preorder.
#[tactic(auto, using(ol_beta::proofs::Searching::size_positive))]
pub fn with_letters(alloc: Global, term: &Term, next: &mut u32) -> Result<LabelledTerm, NoMemory>
    requires few { next.old + term_size (tree_of term.now) < 2 ^ 32 }
    ensures term { IfOk result (λ t. held_of t ≡ lettered next.old (tree_of term.now)) }
    ensures next { OnOk result (next.new ≡ next.old + term_size (tree_of term.now)) }
{
    let label = own_letter(alloc, next)?;
    match term {
        Term::Var(k) => Ok(LabelledTerm::Var(*k, label)),
        Term::Free(k) => Ok(LabelledTerm::Free(*k, label)),
        Term::Lam(body) => {
            let inside = with_letters(alloc, body, next)?;
            Ok(LabelledTerm::Lam(boxed(alloc, inside)?, label))
        }
        Term::App(function, argument) => {
            let left = with_letters(alloc, function, next)?;
            let right = with_letters(alloc, argument, next)?;
            Ok(LabelledTerm::App(boxed(alloc, left)?, boxed(alloc, right)?, label))
        }
    }
}

/// The term without its labels.
pub fn plain(alloc: Global, term: &LabelledTerm) -> Result<Term, NoMemory>
    ensures { IfOk result (λ t. tree_of t ≡ bare (held_of term.now)) }
{
    match term {
        LabelledTerm::Var(k, _) => Ok(Term::Var(*k)),
        LabelledTerm::Free(k, _) => Ok(Term::Free(*k)),
        LabelledTerm::Lam(body, _) => {
            let inside = plain(alloc, body)?;
            let inside = Box::new(alloc, inside)?;
            Ok(Term::Lam(inside))
        }
        LabelledTerm::App(function, argument, _) => {
            let left = plain(alloc, function)?;
            let left = Box::new(alloc, left)?;
            let right = plain(alloc, argument)?;
            let right = Box::new(alloc, right)?;
            Ok(Term::App(left, right))
        }
    }
}

/// A copy of a term that comes to stand under `by` more abstractions. Its variables from `from` on
/// are bound outside of it.
pub fn raised(
    alloc: Global,
    term: &LabelledTerm,
    by: u32,
    from: u32,
) -> Result<LabelledTerm, NoMemory>
    requires room { HasRoom by (bare (held_of term.now)) }
    requires shallow { from + depth (bare (held_of term.now)) < 2 ^ 32 }
    ensures { IfOk result (λ t. held_of t ≡ shifted by from (held_of term.now)) }
{
    match term {
        LabelledTerm::Var(k, w) => {
            let label = copied(alloc, w)?;
            let variable = if *k < from { *k } else { *k + by };
            Ok(LabelledTerm::Var(variable, label))
        }
        LabelledTerm::Free(k, w) => Ok(LabelledTerm::Free(*k, copied(alloc, w)?)),
        LabelledTerm::Lam(body, w) => {
            let inside = raised(alloc, body, by, from + 1)?;
            Ok(LabelledTerm::Lam(boxed(alloc, inside)?, copied(alloc, w)?))
        }
        LabelledTerm::App(function, argument, w) => {
            let left = raised(alloc, function, by, from)?;
            let right = raised(alloc, argument, by, from)?;
            let label = copied(alloc, w)?;
            Ok(LabelledTerm::App(boxed(alloc, left)?, boxed(alloc, right)?, label))
        }
    }
}

/// A term with a row put before the label of the whole term.
pub fn put_before(word: Vec<Letter>, term: LabelledTerm) -> Result<LabelledTerm, NoMemory>
    ensures { IfOk result (λ t. held_of t ≡ before word.items (held_of term)) }
{
    match term {
        LabelledTerm::Var(k, w) => Ok(LabelledTerm::Var(k, joined(word, &w)?)),
        LabelledTerm::Free(k, w) => Ok(LabelledTerm::Free(k, joined(word, &w)?)),
        LabelledTerm::Lam(body, w) => Ok(LabelledTerm::Lam(body, joined(word, &w)?)),
        LabelledTerm::App(function, argument, w) => {
            Ok(LabelledTerm::App(function, argument, joined(word, &w)?))
        }
    }
}
