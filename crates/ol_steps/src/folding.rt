//! A term whose parts are written by names.

ghost use Rattle.std.specs.Prelude.{◌≡◌, ◌+◌, ◌<◌, ◌^◌, [], length, IfOk};
ghost use Rattle.std.specs.Option.{option_map};
ghost use Rattle.ol_term.specs.Trees as tree;
ghost use Rattle.ol_term.specs.Trees.{tree_of};
ghost use Rattle.ol_steps.specs.Trees.{binders_in};
ghost use Rattle.ol_steps.specs.Lets.{values_of_lets};
ghost use Rattle.ol_steps.specs.ValueTrees.{rows_of};
ghost use Rattle.ol_steps.specs.Folded.{all_folded, folded_round, is_same, or_name, pruned, value_at};

use crate::lets::{Lets, NamedValue};
use crate::trees::BinderTree;
use ol_limits::NoMemory;
use ol_term::{Term, alpha_eq};
use std::alloc::Global;

pub fn is_same(term: &Term, other: &Term) -> bool
    ensures { result ≡ is_same (tree_of term.now) (tree_of other.now) }
{
    alpha_eq(term, other)
}

// The number of the first of these rows whose value a term is.
fn value_at(first: u32, rows: &[NamedValue], term: &Term) -> Option<u32>
    requires few { first + length rows.now < 2 ^ 32 }
    ensures { result ≡ value_at first (values_of_lets (rows_of rows.now)) (tree_of term.now) }
{
    let Some((row, left)) = rows.split_first() else {
        return None;
    };
    if is_same(&row.value, term) {
        return Some(first);
    }
    value_at(first + 1, left, term)
}

pub fn abstraction(alloc: Global, body: Term) -> Result<Term, NoMemory>
    ensures { IfOk result (λ t. tree_of t ≡ tree.lam (tree_of body)) }
{
    let body = Box::new(alloc, body)?;
    Ok(Term::Lam(body))
}

pub fn application(alloc: Global, function: Term, argument: Term) -> Result<Term, NoMemory>
    ensures { IfOk result (λ t. tree_of t ≡ tree.app (tree_of function) (tree_of argument)) }
{
    let function = Box::new(alloc, function)?;
    let argument = Box::new(alloc, argument)?;
    Ok(Term::App(function, argument))
}

// A term with these values written by their numbers.
fn fold_part(alloc: Global, first: u32, rows: &[NamedValue], term: &Term) -> Result<Term, NoMemory>
    requires few { first + length rows.now < 2 ^ 32 }
    ensures { IfOk result (λ t.
        tree_of t ≡ all_folded first (values_of_lets (rows_of rows.now)) (tree_of term.now)) }
{
    match term {
        Term::Var(k) => Ok(Term::Var(*k)),
        Term::Free(k) => Ok(Term::Free(*k)),
        Term::Lam(body) => {
            if let Some(name) = value_at(first, rows, term) {
                return Ok(Term::Free(name));
            }
            let body = fold_part(alloc, first, rows, body)?;
            let part = abstraction(alloc, body)?;
            Ok(part)
        }
        Term::App(function, argument) => {
            if let Some(name) = value_at(first, rows, term) {
                return Ok(Term::Free(name));
            }
            let function = fold_part(alloc, first, rows, function)?;
            let argument = fold_part(alloc, first, rows, argument)?;
            let part = application(alloc, function, argument)?;
            Ok(part)
        }
    }
}

/// A copy of a term.
pub fn copy(alloc: Global, term: &Term) -> Result<Term, NoMemory>
    ensures { IfOk result (λ t. tree_of t ≡ tree_of term.now) }
{
    let none: Vec<NamedValue> = Vec::new(alloc);
    let copy = fold_part(alloc, 0, &none, term)?;
    Ok(copy)
}

/// A term in which each abstraction or application that is the value of a let is the let's name. A
/// variable or a free name stays what it is. If a part is the value of several lets, the name is
/// that of the first in the list; `word` then replaces the name by the word of the part. Parts of
/// such a part aren't looked at. The calls recurse as deep as the term is, and for each let.
/// `NoMemory`: no memory was found.
pub fn fold(alloc: Global, lets: &Lets, term: &Term) -> Result<Term, NoMemory>
    ensures { IfOk result (λ t. tree_of t
        ≡ all_folded lets.now.first (values_of_lets (rows_of lets.now.rows.items))
        (tree_of term.now)) }
{
    let whole = fold_part(alloc, lets.first, &lets.rows, term)?;
    Ok(whole)
}

/// The same, if the address leads to an application, but neither this nor what it stands in becomes
/// a name. Its function and its argument may. If the address ends at another part, this part stays
/// as it is. `NoMemory`: no memory was found.
pub fn fold_round(alloc: Global, lets: &Lets, term: &Term, at: &[u8]) -> Result<Term, NoMemory>
    ensures { IfOk result (λ t. tree_of t
        ≡ folded_round lets.now.first (values_of_lets (rows_of lets.now.rows.items)) at.now
        (tree_of term.now)) }
{
    match (term, at.split_first()) {
        (Term::Lam(body), Some((_, rest))) => {
            let body = fold_round(alloc, lets, body, rest)?;
            let whole = abstraction(alloc, body)?;
            Ok(whole)
        }
        (Term::App(function, argument), None) => {
            let function = fold(alloc, lets, function)?;
            let argument = fold(alloc, lets, argument)?;
            let whole = application(alloc, function, argument)?;
            Ok(whole)
        }
        (Term::App(function, argument), Some((to, rest))) => {
            let (function, argument) = if *to == 1 {
                (
                    fold_round(alloc, lets, function, rest)?,
                    fold(alloc, lets, argument)?,
                )
            } else {
                (
                    fold(alloc, lets, function)?,
                    fold_round(alloc, lets, argument, rest)?,
                )
            };
            let whole = application(alloc, function, argument)?;
            Ok(whole)
        }
        _ => {
            let same = copy(alloc, term)?;
            Ok(same)
        }
    }
}

/// The names of binders that are left in a term, of which some parts are names now. `NoMemory`: no
/// memory was found.
pub fn prune(alloc: Global, term: &Term, binders: &BinderTree) -> Result<BinderTree, NoMemory>
    ensures { IfOk result (λ s. binders_in s ≡ pruned (tree_of term.now) (binders_in binders.now)) }
{
    match (term, binders) {
        (Term::Lam(body), BinderTree::Binder(name, below)) => {
            let below = prune(alloc, body, below)?;
            let tree = BinderTree::binder(alloc, name, below)?;
            Ok(tree)
        }
        (Term::App(function, argument), BinderTree::Parts(first, second)) => {
            let first = prune(alloc, function, first)?;
            let second = prune(alloc, argument, second)?;
            let tree = BinderTree::parts(alloc, first, second)?;
            Ok(tree)
        }
        _ => Ok(BinderTree::Leaf),
    }
}
