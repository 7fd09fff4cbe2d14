//! A term with the names that it is printed with.

ghost use Rattle.std.specs.Prelude.{◌≡◌, ◌≤◌, ◌<◌, ◌-◌, ◌+◌, length, true, slice_index_or, [], IfOk};
ghost use Rattle.ol_term.specs.Trees.{tree_of, is_below, is_named_below, depth};
ghost use Rattle.ol_term.specs.BinderNames.{binder_name};
ghost use Rattle.ol_term.specs.Printing.{IsPrintable};
ghost use Rattle.ol_steps.specs.Terms.{named_of};
ghost use Rattle.ol_steps.specs.Lettered.{lettered};

use crate::terms::NamedTerm;
use ol_limits::NoMemory;
use ol_subjects::put;
use ol_term::{BinderNames, Names, Term};
use std::alloc::Global;

// The name of a binder with `round` binders round it.
fn binder_at(
    alloc: Global,
    binders: &mut BinderNames<'_>,
    round: usize,
) -> Result<Vec<u8>, NoMemory>
    ensures name { IfOk result (λ x. x.items ≡ binder_name binders.old round) }
    ensures names { binders.new ≡ binders.old }
{
    let mut name = Vec::new(alloc);
    binders.put(&mut name, round)?;
    Ok(name)
}

// A name of the free names.
fn free_name(alloc: Global, names: &Names, k: u32) -> Result<Vec<u8>, NoMemory>
    requires { k < length names.now }
    ensures { IfOk result (λ x. x.items ≡ slice_index_or names.now k []) }
{
    let Some(free) = names.get(k) else {
        unreachable!()
    };
    let mut name = Vec::new(alloc);
    put(&mut name, free)?;
    Ok(name)
}

// A term with `round` binders round it.
fn letter_under(
    alloc: Global,
    names: &Names,
    binders: &mut BinderNames<'_>,
    term: &Term,
    round: u32,
) -> Result<NamedTerm, NoMemory>
    requires binders { binders.old ≡ names.now }
    requires printable { IsPrintable (length names.now) round (tree_of term.now) }
    ensures term { IfOk result (λ t. named_of t ≡ lettered names.now round (tree_of term.now)) }
    ensures binders { binders.new ≡ binders.old }
{
    match term {
        Term::Var(k) => {
            let name = binder_at(alloc, binders, (round - (*k + 1)) as usize)?;
            Ok(NamedTerm::Name(name))
        }
        Term::Free(k) => {
            let name = free_name(alloc, names, *k)?;
            Ok(NamedTerm::Name(name))
        }
        Term::Lam(body) => {
            let binder = binder_at(alloc, binders, round as usize)?;
            let inner = letter_under(alloc, names, binders, body, round + 1)?;
            let named = NamedTerm::abstraction(alloc, binder, inner)?;
            Ok(named)
        }
        Term::App(function, argument) => {
            let left = letter_under(alloc, names, binders, function, round)?;
            let right = letter_under(alloc, names, binders, argument, round)?;
            let named = NamedTerm::application(alloc, left, right)?;
            Ok(named)
        }
    }
}

/// A term with the names that `print_term` prints: a binder with t binders round it has name number
/// t. Every `Var` of the term is bound, every `Free` is the number of a name, and the depth is at
/// most 4294967295. The calls recurse as deep as the term is. `NoMemory`: no memory was found.
pub fn letter(alloc: Global, term: &Term, names: &Names) -> Result<NamedTerm, NoMemory>
    requires bound { is_below 0 (tree_of term.now) ≡ true }
    requires named { is_named_below (length names.now) (tree_of term.now) ≡ true }
    requires short { depth (tree_of term.now) ≤ 4294967295 }
    ensures { IfOk result (λ t. named_of t ≡ lettered names.now 0 (tree_of term.now)) }
{
    let mut binders = BinderNames::new(alloc, names);
    let named = letter_under(alloc, names, &mut binders, term, 0)?;
    Ok(named)
}
