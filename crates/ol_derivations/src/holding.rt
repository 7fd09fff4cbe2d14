//! The terms so far.

ghost use Rattle.std.specs.Prelude.{◌≡◌, true};
ghost use Rattle.ol_term.specs.Trees.{tree_of, is_below};
ghost use Rattle.ol_beta.specs.Beta.{IsWithin};

use ol_term::{Names, Term};

/// The last term so far, its free names numbered by their places in the table, and its line.
#[derive(Drop)]
pub struct Last {
    pub line: usize,
    pub term: Term,
    pub ghost within: { IsWithin (tree_of term) },
    pub ghost bound: { is_below 0 (tree_of term) ≡ true },
}

/// The terms so far: the table of their free names, and the last one.
#[derive(Drop)]
pub struct Sofar {
    pub table: Names,
    pub last: Option<Last>,
}
