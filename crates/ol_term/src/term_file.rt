//! A term and the names that are free in it.

ghost use Rattle.std.specs.Prelude.{◌≡◌, true, length};
ghost use Rattle.ol_term.specs.Trees.{tree_of, is_below, is_named_below};

use crate::name_list::Names;
use crate::terms::Term;

/// A term and its free names. Every `Var` of the term is bound, and every `Free(k)` is the name
/// with number k.
#[derive(Drop)]
pub struct TermFile {
    pub term: Term,
    pub names: Names,
    ghost bound: { is_below 0 (tree_of term) ≡ true },
    ghost named: { is_named_below (length names) (tree_of term) ≡ true },
}
