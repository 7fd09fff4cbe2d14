//! A term with names, primed where they would clash.

ghost use Rattle.std.specs.Prelude.{◌≡◌, ◌+◌, ◌<◌, ◌^◌, true, [], length, IfOk};
ghost use Rattle.std.specs.Str.{bytes_eq};
ghost use Rattle.ol_term.specs.Trees.{tree_of, depth, is_named_below};
ghost use Rattle.ol_term.specs.BinderNames.{is_among};
ghost use Rattle.ol_steps.specs.Terms.{named_of};
ghost use Rattle.ol_steps.specs.Trees.{binders_in};
ghost use Rattle.ol_steps.specs.Naming.{named, primed, used};
ghost use Rattle.ol_steps.specs.Rounds.{names_round};

use crate::rounds::{Round, name_of};
use crate::terms::NamedTerm;
use crate::trees::BinderTree;
use ol_limits::NoMemory;
use ol_term::{Names, Term};
use std::alloc::Global;

pub fn is_same(name: &[u8], other: &[u8]) -> bool
    ensures { result ≡ bytes_eq name.now other.now }
{
    name == other
}

// Whether a name is a free one of a term, or one of a binder that is used in it and stands outside
// of the innermost `d` binders.
#[tactic(auto, using(crate::proofs::Among::among_both))]
fn is_used(term: &Term, name: &[u8], d: u32, names: &Names, round: &Round<'_>) -> bool
    requires shallow { d + depth (tree_of term.now) < 2 ^ 32 }
    requires named { is_named_below (length names.now) (tree_of term.now) ≡ true }
    ensures { result
        ≡ is_among (used d names.now (names_round round.now) (tree_of term.now)) name.now }
{
    match term {
        Term::Var(k) => {
            if *k < d {
                return false;
            }
            is_same(name_of(round, *k - d), name)
        }
        Term::Free(k) => {
            let Some(free) = names.get(*k) else {
                unreachable!()
            };
            is_same(free, name)
        }
        Term::Lam(body) => is_used(body, name, d + 1, names, round),
        Term::App(function, argument) => {
            is_used(function, name, d, names, round) || is_used(argument, name, d, names, round)
        }
    }
}

// The name of a binder over this body: with as few primes as it needs.
fn primed(
    alloc: Global,
    body: &Term,
    own: &[u8],
    names: &Names,
    round: &Round<'_>,
) -> Result<Vec<u8>, NoMemory>
    requires shallow { 1 + depth (tree_of body.now) < 2 ^ 32 }
    requires named { is_named_below (length names.now) (tree_of body.now) ≡ true }
    ensures { IfOk result (λ y. y.items
        ≡ primed (used 1 names.now (names_round round.now) (tree_of body.now)) own.now) }
{
    let mut name = Vec::from_slice(alloc, own)?;
    'primes: while is_used(body, &name, 1, names, round) {
        name.push(b'\'')?;
    }
    Ok(name)
}

// A term within these binders.
fn name_within(
    alloc: Global,
    term: &Term,
    binders: &BinderTree,
    names: &Names,
    round: &Round<'_>,
) -> Result<NamedTerm, NoMemory>
    requires shallow { depth (tree_of term.now) < 2 ^ 32 }
    requires named { is_named_below (length names.now) (tree_of term.now) ≡ true }
    ensures { IfOk result (λ t. named_of t
        ≡ named names.now (names_round round.now) (tree_of term.now) (binders_in binders.now)) }
{
    match (term, binders) {
        (Term::Var(k), _) => {
            let name = Vec::from_slice(alloc, name_of(round, *k))?;
            Ok(NamedTerm::Name(name))
        }
        (Term::Free(k), _) => {
            let Some(free) = names.get(*k) else {
                unreachable!()
            };
            let name = Vec::from_slice(alloc, free)?;
            Ok(NamedTerm::Name(name))
        }
        (Term::Lam(body), BinderTree::Binder(own, below)) => {
            let name = primed(alloc, body, own, names, round)?;
            let inside = name_within(alloc, body, below, names, &Round::Inside(&name, &*round))?;
            let term = NamedTerm::abstraction(alloc, name, inside)?;
            Ok(term)
        }
        (Term::App(function, argument), BinderTree::Parts(first, second)) => {
            let left = name_within(alloc, function, first, names, round)?;
            let right = name_within(alloc, argument, second, names, round)?;
            let term = NamedTerm::application(alloc, left, right)?;
            Ok(term)
        }
        _ => Ok(NamedTerm::Name(Vec::new(alloc))),
    }
}

/// A term with the names of its binders. Each binder has its own name, with as few primes behind it
/// as keep it from every free name and from every binder round it that is used in its body. Every
/// `Free` of the term is the number of a name, and the term is at most 4294967295 deep. The names
/// of the binders are to have the shape of the term. The calls recurse as deep as the term is.
/// `NoMemory`: no memory was found.
pub fn name(
    alloc: Global,
    term: &Term,
    binders: &BinderTree,
    names: &Names,
) -> Result<NamedTerm, NoMemory>
    requires shallow { depth (tree_of term.now) < 2 ^ 32 }
    requires named { is_named_below (length names.now) (tree_of term.now) ≡ true }
    ensures { IfOk result (λ t. named_of t
        ≡ named names.now [] (tree_of term.now) (binders_in binders.now)) }
{
    let named = name_within(alloc, term, binders, names, &Round::Outside)?;
    Ok(named)
}
