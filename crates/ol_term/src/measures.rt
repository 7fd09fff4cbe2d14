//! Size, depth and α-equality of terms.
//!
//! These calls take no memory. They recurse on the term, so that the call depth is the depth of the
//! term.

ghost use Rattle.std.specs.Prelude.{◌≡◌, ◌<◌, ◌^◌, ◌↔◌, true};
ghost use Rattle.ol_term.specs.Trees.{tree_of, term_size, depth};

use crate::terms::Term;

/// The number of constructors of a term, which is less than 2^64.
pub fn size(term: &Term) -> u64
    requires few { term_size (tree_of term.now) < 2 ^ 64 }
    ensures { result ≡ term_size (tree_of term.now) }
{
    match term {
        Term::Var(_) => 1,
        Term::Free(_) => 1,
        Term::Lam(body) => 1 + size(body),
        Term::App(function, argument) => 1 + size(function) + size(argument),
    }
}

/// The depth of a term: 1 for a variable, the depth of the body plus 1 for an abstraction, and the
/// depth of the deeper subterm plus 1 for an application. The term has fewer than 2^64
/// constructors.
pub fn depth(term: &Term) -> u64
    requires few { term_size (tree_of term.now) < 2 ^ 64 }
    ensures { result ≡ depth (tree_of term.now) }
{
    match term {
        Term::Var(_) => 1,
        Term::Free(_) => 1,
        Term::Lam(body) => 1 + depth(body),
        Term::App(function, argument) => {
            let left = depth(function);
            let right = depth(argument);
            1 + left.max(right)
        }
    }
}

/// Whether two terms are α-equal, that is, equal in de Bruijn notation. Free names are equal if
/// their numbers are equal.
pub fn alpha_eq(a: &Term, b: &Term) -> bool
    ensures { (result ≡ true) ↔ (tree_of a.now ≡ tree_of b.now) }
{
    match (a, b) {
        (Term::Var(j), Term::Var(k)) => j == k,
        (Term::Free(j), Term::Free(k)) => j == k,
        (Term::Lam(s), Term::Lam(t)) => alpha_eq(s, t),
        (Term::App(f, s), Term::App(g, t)) => alpha_eq(f, g) && alpha_eq(s, t),
        _ => false,
    }
}
