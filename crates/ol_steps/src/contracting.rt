//! The names of binders after contraction.

ghost use Rattle.std.specs.Prelude.{◌≡◌, ◌+◌, ◌<◌, ◌^◌, IfOk};
ghost use Rattle.ol_term.specs.Trees.{tree_of, depth};
ghost use Rattle.ol_steps.specs.Trees.{binders_in};
ghost use Rattle.ol_steps.specs.Contraction.{applied, contracted, put_in};

use crate::trees::{BinderTree, copied};
use ol_limits::NoMemory;
use ol_term::Term;
use std::alloc::Global;

// Those of a body, with those of an argument in each place of variable `d`.
fn put_in(
    alloc: Global,
    body: &Term,
    binders: &BinderTree,
    d: u32,
    argument: &BinderTree,
) -> Result<BinderTree, NoMemory>
    requires shallow { d + depth (tree_of body.now) < 2 ^ 32 }
    ensures { IfOk result (λ t. binders_in t
        ≡ put_in (binders_in argument.now) d (tree_of body.now) (binders_in binders.now)) }
{
    match (body, binders) {
        (Term::Var(k), _) => {
            if *k != d {
                return Ok(BinderTree::Leaf);
            }
            let copy = copied(alloc, argument)?;
            Ok(copy)
        }
        (Term::Lam(inner), BinderTree::Binder(name, below)) => {
            let below = put_in(alloc, inner, below, d + 1, argument)?;
            let tree = BinderTree::binder(alloc, name, below)?;
            Ok(tree)
        }
        (Term::App(left, right), BinderTree::Parts(first, second)) => {
            let first = put_in(alloc, left, first, d, argument)?;
            let second = put_in(alloc, right, second, d, argument)?;
            let tree = BinderTree::parts(alloc, first, second)?;
            Ok(tree)
        }
        _ => Ok(BinderTree::Leaf),
    }
}

// Those of a function that is applied.
fn applied(
    alloc: Global,
    function: &Term,
    binders: &BinderTree,
    argument: &BinderTree,
) -> Result<BinderTree, NoMemory>
    requires shallow { depth (tree_of function.now) < 2 ^ 32 }
    ensures { IfOk result (λ t. binders_in t
        ≡ applied (tree_of function.now) (binders_in binders.now) (binders_in argument.now)) }
{
    match (function, binders) {
        (Term::Lam(body), BinderTree::Binder(_, below)) => {
            let tree = put_in(alloc, body, below, 0, argument)?;
            Ok(tree)
        }
        _ => Ok(BinderTree::Leaf),
    }
}

/// The names of a term's binders after contraction of the redex at an address: each abstraction
/// keeps its name, and copies of the argument have its names. The term is at most 4294967295 deep.
/// The calls recurse as deep as the term is. `NoMemory`: no memory was found.
pub fn contract(
    alloc: Global,
    term: &Term,
    binders: &BinderTree,
    at: &[u8],
) -> Result<BinderTree, NoMemory>
    requires shallow { depth (tree_of term.now) < 2 ^ 32 }
    ensures { IfOk result (λ t. binders_in t
        ≡ contracted (tree_of term.now) (binders_in binders.now) at.now) }
{
    match (term, binders, at.split_first()) {
        (Term::Lam(body), BinderTree::Binder(name, below), Some((_, rest))) => {
            let below = contract(alloc, body, below, rest)?;
            let tree = BinderTree::binder(alloc, name, below)?;
            Ok(tree)
        }
        (Term::App(function, _), BinderTree::Parts(first, second), None) => {
            let tree = applied(alloc, function, first, second)?;
            Ok(tree)
        }
        (Term::App(function, argument), BinderTree::Parts(first, second), Some((to, rest))) => {
            let (first, second) = if *to == 1 {
                (
                    contract(alloc, function, first, rest)?,
                    copied(alloc, second)?,
                )
            } else {
                (
                    copied(alloc, first)?,
                    contract(alloc, argument, second, rest)?,
                )
            };
            let tree = BinderTree::parts(alloc, first, second)?;
            Ok(tree)
        }
        _ => {
            let tree = copied(alloc, binders)?;
            Ok(tree)
        }
    }
}
