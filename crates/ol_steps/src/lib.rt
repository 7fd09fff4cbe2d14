//! The command `steps`: reduction of a term in an order, term by term, with the names of its binders,
//! with its lets folded, and with carets below the redex.
//!
//! - `terms`: terms with names
//! - `lettering`: a term with the names that it is printed with
//! - `printing`: the printed text of a term with names
//! - `marking`: the carets under a subterm
//! - `trees`: the names of a term's binders, in the term's shape
//! - `contracting`: those after contraction of a redex
//! - `rounds`: the names of the binders round a place
//! - `naming`: a term with names, primed where they would clash
//! - `tokens`: the names of a source's binders, token by token
//! - `bytes`: those, byte by byte
//! - `sources`: the names of the binders of a whole text
//! - `fronts`: how many lets stand at the front of a text
//! - `lets`: their names and values; whether a redex is that of a let
//! - `folding`: a term whose parts are written by the names of lets
//! - `wording`: the words by which those parts are written
//! - `earlier`: the terms of earlier steps
//! - `finding`: whether a term is that of an earlier step
//! - `showing`: terms as they are shown, and lets that are unfolded
//! - `lines`: the lines of an answer
//! - `stepping`: the terms of a file's reduction, up to where it ends or a term comes back
//! - `laws`: what holds of printed terms and carets, of the names of binders, of lets and folded
//!   terms, and of answers
#![tactic(auto)]

mod bytes;
mod contracting;
mod earlier;
mod finding;
mod folding;
mod fronts;
mod laws;
mod lets;
mod lettering;
mod lines;
mod marking;
mod naming;
mod printing;
mod rounds;
mod showing;
mod sources;
mod stepping;
mod terms;
mod tokens;
mod trees;
mod wording;

pub use contracting::contract;
pub use folding::{fold, fold_round, prune};
pub use fronts::front_lets;
pub use laws::{
    contracted_fits, each_step_counts, folded_fits, folded_redexes_are_marked,
    folds_are_read_again, lets_are_left, lets_are_unfolded, lets_differ, lettered_is_text,
    letters_are_read, letters_are_read_again, marks_are_under, named_is_read, names_are_read_again,
    no_let_same_answer, no_lets_no_change, no_value_is_shown, none_is_caught, nothing_is_left,
    parts_are_subterms, primed_is_least, redexes_are_marked, returns_are_endless,
    showing_changes_no_end, source_fits, source_is_kept, text_has_names, unfolded_is_term,
    words_are_shown,
};
pub use lets::{Lets, NamedValue, is_let_at, lets_of};
pub use lettering::letter;
pub use marking::put_mark;
pub use naming::name;
pub use printing::put_named;
pub use sources::binders;
pub use stepping::{Shown, is_within, steps};
pub use terms::NamedTerm;
pub use trees::BinderTree;
