//! Normal forms that are found within so many steps.

ghost use Rattle.std.specs.Prelude.{◌≡◌, ◌↔◌, true, IfOk};
ghost use Rattle.std.specs.Option.{option_map};
ghost use Rattle.ol_term.specs.Trees.{Tree, tree_of, is_below};
ghost use Rattle.ol_beta.specs.Beta.{IsWithin};
ghost use Rattle.ol_derivations.specs.NormalForms.{DifferInNormalForm};
ghost use Rattle.ol_derivations.specs.StepsFound.{IsNormalFound, form_in};

use ol_beta::{BetaFault, beta, redex};
use ol_limits::NoMemory;
use ol_term::{Term, alpha_eq};
use std::alloc::Global;

/// What leftmost reduction of a term finds within so many steps.
#[derive(Drop)]
enum Normal {
    /// The term is a normal form itself.
    Itself,
    /// This normal form.
    Form(Term),
    /// None.
    Unknown,
}

impl Normal {
    // The normal form of a term of which this is found.
    fn form<'a>(&'a self, t: &'a Term) -> Option<&'a Term>
        ensures { option_map (λ v. tree_of v.now) result ≡ form_in (tree_of t.now) self.now }
    {
        match self {
            Normal::Itself => Some(t),
            Normal::Form(form) => Some(form),
            Normal::Unknown => None,
        }
    }
}

// The normal form of a term that is handed over, within so many leftmost steps.
fn reduced(alloc: Global, t: Term, most: u32) -> Result<Normal, NoMemory>
    requires within { IsWithin (tree_of t) }
    requires bound { is_below 0 (tree_of t) ≡ true }
    ensures { IfOk result (λ r. (u : Tree) →
        IsNormalFound most (tree_of t) (form_in u r)) }
{
    let mut here = t;
    let mut left = most;
    loop {
        let Some(at) = redex(alloc, &here)? else {
            return Ok(Normal::Form(here));
        };
        if left == 0 {
            return Ok(Normal::Unknown);
        }
        match beta(alloc, &here, &at) {
            Ok(next) => {
                here = next;
                left -= 1;
            }
            Err(fault) => match fault {
                BetaFault::NoMemory => return Err(NoMemory),
                BetaFault::Past { .. } => return Ok(Normal::Unknown),
                BetaFault::NotRedex => unreachable!(),
            },
        }
    }
}

// The normal form of a term, within so many leftmost steps.
fn normal_form(alloc: Global, t: &Term, most: u32) -> Result<Normal, NoMemory>
    requires within { IsWithin (tree_of t.now) }
    requires bound { is_below 0 (tree_of t.now) ≡ true }
    ensures { IfOk result (λ r.
        IsNormalFound most (tree_of t.now) (form_in (tree_of t.now) r)) }
{
    let Some(at) = redex(alloc, t)? else {
        return Ok(Normal::Itself);
    };
    if most == 0 {
        return Ok(Normal::Unknown);
    }
    match beta(alloc, t, &at) {
        Ok(next) => {
            let found = reduced(alloc, next, most - 1)?;
            Ok(found)
        }
        Err(fault) => match fault {
            BetaFault::NoMemory => Err(NoMemory),
            BetaFault::Past { .. } => Ok(Normal::Unknown),
            BetaFault::NotRedex => unreachable!(),
        },
    }
}

/// Whether leftmost reduction leads from each of two terms to a normal form, within so many steps,
/// and these differ.
pub fn differ(alloc: Global, t: &Term, u: &Term, most: u32) -> Result<bool, NoMemory>
    requires first { IsWithin (tree_of t.now) × (is_below 0 (tree_of t.now) ≡ true) }
    requires second { IsWithin (tree_of u.now) × (is_below 0 (tree_of u.now) ≡ true) }
    ensures { IfOk result (λ r.
        (r ≡ true) ↔ DifferInNormalForm most (tree_of t.now) (tree_of u.now)) }
{
    let first = normal_form(alloc, t, most)?;
    let second = normal_form(alloc, u, most)?;
    let Some(v) = first.form(t) else {
        return Ok(false);
    };
    let Some(w) = second.form(u) else {
        return Ok(false);
    };
    Ok(!alpha_eq(v, w))
}
