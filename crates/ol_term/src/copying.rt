//! Copies of terms.

ghost use Rattle.std.specs.Prelude.{◌≡◌, IfOk};
ghost use Rattle.ol_term.specs.Trees.{tree_of};

use crate::terms::Term;
use ol_limits::NoMemory;
use std::alloc::Global;

/// A term in a box. `NoMemory`: no memory was found.
pub fn boxed(alloc: Global, term: Term) -> Result<Box<Term>, NoMemory>
    ensures { IfOk result (λ b. b.value ≡ term) }
{
    let boxed = Box::new(alloc, term)?;
    Ok(boxed)
}

/// A copy of a term. The call depth is the depth of the term. `NoMemory`: no memory was found.
pub fn copied(alloc: Global, term: &Term) -> Result<Term, NoMemory>
    ensures { IfOk result (λ t. tree_of t ≡ tree_of term.now) }
{
    match term {
        Term::Var(k) => Ok(Term::Var(*k)),
        Term::Free(k) => Ok(Term::Free(*k)),
        Term::Lam(body) => {
            let inside = copied(alloc, body)?;
            Ok(Term::Lam(boxed(alloc, inside)?))
        }
        Term::App(function, argument) => {
            let left = copied(alloc, function)?;
            let right = copied(alloc, argument)?;
            Ok(Term::App(boxed(alloc, left)?, boxed(alloc, right)?))
        }
    }
}
