//! The first address at which one beta step leads from a term to another.
//!
//! No term is built: what a step would make is compared part by part. The calls are as deep as the
//! term.

ghost use Rattle.std.specs.Prelude.{◌≡◌, ◌+◌, ◌<◌, ◌^◌, ◌↔◌, [], Some, true, IfOk};
ghost use Rattle.std.specs.Option.{option_map};
ghost use Rattle.ol_term.specs.Trees as trees;
ghost use Rattle.ol_term.specs.Trees.{tree_of, depth};
ghost use Rattle.ol_beta.specs.Beta.{shifted, substituted, applied};
ghost use Rattle.ol_beta.specs.Leftmost.{under};
ghost use Rattle.ol_derivations.specs.StepsFound.{IsStepFound, address_of};

use ol_limits::NoMemory;
use ol_term::{Term, alpha_eq};
use std::alloc::Global;

fn is_variable(u: &Term, k: u32) -> bool
    ensures { (result ≡ true) ↔ (tree_of u.now ≡ trees.var k) }
{
    match u {
        Term::Var(j) => *j == k,
        _ => false,
    }
}

// Whether u is a term under `by` more abstractions than before. Its variables from `from` on are
// bound outside of it.
fn is_shifted(term: &Term, by: u32, from: u32, u: &Term) -> bool
    requires shallow { from + depth (tree_of term.now) < 2 ^ 32 }
    ensures { (result ≡ true) ↔ (tree_of u.now ≡ shifted by from (tree_of term.now)) }
{
    match (term, u) {
        (Term::Var(k), Term::Var(j)) => {
            if *k < from {
                j == k
            } else {
                *k as u64 + by as u64 == *j as u64
            }
        }
        (Term::Free(k), Term::Free(j)) => j == k,
        (Term::Lam(s), Term::Lam(t)) => is_shifted(s, by, from + 1, t),
        (Term::App(f, s), Term::App(g, t)) => {
            is_shifted(f, by, from, g) && is_shifted(s, by, from, t)
        }
        _ => false,
    }
}

// Whether u is a body with an argument in each place of variable d, whose abstraction goes.
fn is_substituted(body: &Term, d: u32, argument: &Term, u: &Term) -> bool
    requires shallow { d + depth (tree_of body.now) < 2 ^ 32 }
    requires argument { depth (tree_of argument.now) < 2 ^ 32 }
    ensures { (result ≡ true)
        ↔ (tree_of u.now ≡ substituted (tree_of argument.now) d (tree_of body.now)) }
{
    match (body, u) {
        (Term::Var(k), _) => {
            if *k < d {
                is_variable(u, *k)
            } else if *k == d {
                is_shifted(argument, d, 0, u)
            } else {
                is_variable(u, *k - 1)
            }
        }
        (Term::Free(k), Term::Free(j)) => j == k,
        (Term::Lam(s), Term::Lam(t)) => is_substituted(s, d + 1, argument, t),
        (Term::App(f, s), Term::App(g, t)) => {
            is_substituted(f, d, argument, g) && is_substituted(s, d, argument, t)
        }
        _ => false,
    }
}

// Whether a function is an abstraction, and u is what it makes of an argument in one beta step.
fn is_applied(function: &Term, argument: &Term, u: &Term) -> bool
    requires function { depth (tree_of function.now) < 2 ^ 32 }
    requires argument { depth (tree_of argument.now) < 2 ^ 32 }
    ensures { (result ≡ true)
        ↔ (applied (tree_of function.now) (tree_of argument.now) ≡ Some (tree_of u.now)) }
{
    match function {
        Term::Lam(body) => is_substituted(body, 0, argument, u),
        _ => false,
    }
}

// An address from one move further up. Its moves are kept last first.
fn further(found: Option<Vec<u8>>, to: u8) -> Result<Option<Vec<u8>>, NoMemory>
    ensures { IfOk result (λ r. address_of r ≡ under to (address_of found)) }
{
    let Some(mut moves) = found else {
        return Ok(None);
    };
    moves.push(to)?;
    Ok(Some(moves))
}

/// The first address in preorder at which contraction of a term gives u, its moves last first. None
/// comes exactly where there is none.
pub fn step_found(alloc: Global, t: &Term, u: &Term) -> Result<Option<Vec<u8>>, NoMemory>
    requires shallow { depth (tree_of t.now) < 2 ^ 32 }
    ensures { IfOk result (λ r. IsStepFound (tree_of t.now) (tree_of u.now) (address_of r)) }
{
    match t {
        Term::Var(_) => Ok(None),
        Term::Free(_) => Ok(None),
        Term::Lam(body) => match u {
            Term::Lam(after) => {
                let inside = step_found(alloc, body, after)?;
                let found = further(inside, 0)?;
                Ok(found)
            }
            Term::Var(_) => Ok(None),
            Term::Free(_) => Ok(None),
            Term::App(_, _) => Ok(None),
        },
        Term::App(function, argument) => {
            if is_applied(function, argument, u) {
                return Ok(Some(Vec::new(alloc)));
            }
            let Term::App(after, beside) = u else {
                return Ok(None);
            };
            if alpha_eq(argument, beside) {
                let inside = step_found(alloc, function, after)?;
                if inside.is_some() || !alpha_eq(function, after) {
                    let found = further(inside, 1)?;
                    return Ok(found);
                }
            }
            if !alpha_eq(function, after) {
                return Ok(None);
            }
            let inside = step_found(alloc, argument, beside)?;
            let found = further(inside, 2)?;
            Ok(found)
        }
    }
}
