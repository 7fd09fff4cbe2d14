//! Whether a term is that of an earlier step.

ghost use Rattle.std.specs.Prelude.{◌<◌, ◌^◌};
ghost use Rattle.ol_term.specs.Trees.{tree_of, term_size};
ghost use Rattle.ol_steps.specs.EarlierTerms.{terms_of, IsFound};

use crate::earlier::Earlier;
use ol_term::{Term, size};

/// The step whose term is this one, counted from 0. None comes exactly where it is that of no step
/// yet.
pub fn step_of(kept: &[Earlier], term: &Term) -> Option<usize>
    requires few { term_size (tree_of term.now) < 2 ^ 64 }
    ensures { IsFound (terms_of kept.now) (tree_of term.now) result }
{
    let size = size(term);
    for k in 0..kept.len() {
        if kept[k].is(term, size) {
            return Some(k);
        }
    }
    None
}
