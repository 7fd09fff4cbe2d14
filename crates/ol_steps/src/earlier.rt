//! The terms of earlier steps.

ghost use Rattle.std.specs.Prelude.{◌≡◌, ◌<◌, ◌^◌, ◌↔◌, IsTrue};
ghost use Rattle.ol_term.specs.Trees.{tree_of, term_size};

use ol_term::{Term, alpha_eq, size};

/// The term of an earlier step, and how many constructors it has.
#[derive(Drop)]
pub struct Earlier {
    pub term: Term,
    pub size: u64,
    ghost measured: { size ≡ term_size (tree_of term) },
}

impl Earlier {
    /// A term that is kept.
    pub fn of(term: Term) -> Earlier
        requires few { term_size (tree_of term) < 2 ^ 64 }
        ensures { result.term ≡ term }
    {
        let size = size(&term);
        Earlier { term, size }
    }

    /// Whether a term of this size is the earlier one.
    pub fn is(&self, term: &Term, size: u64) -> bool
        requires { size ≡ term_size (tree_of term.now) }
        ensures { IsTrue result ↔ (tree_of self.now.term ≡ tree_of term.now) }
    {
        self.size == size && alpha_eq(&self.term, term)
    }
}
