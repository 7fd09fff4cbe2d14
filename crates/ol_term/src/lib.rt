//! Terms of the lambda calculus in de Bruijn notation, the names of their free variables and
//! binders, their sizes and their printed texts; and the two translations.
//!
//! - `terms`: terms without names
//! - `measures`: size, depth and α-equality
//! - `copying`: copies of terms
//! - `name_list`: lists of names, each found by an index
//! - `renumbering`: the free names of a term, numbered by another list
//! - `term_file`: a term and its free names
//! - `binder_names`: names for binders, different from the free names
//! - `binder_laws`: the theorem that these names are new
//! - `printing`: the printed text of a term
//! - `generating`: large terms, made by doubling
//! - `translations`: the two translations
//!
//! `BinderNames::put` also returns `NoMemory` if the number in a name exceeds 64 bits.
#![tactic(auto)]

mod binder_laws;
mod binder_names;
mod copying;
mod generating;
mod measures;
mod name_list;
mod printing;
mod renumbering;
mod term_file;
mod terms;
mod translations;

pub use binder_laws::binder_names_are_new;
pub use binder_names::BinderNames;
pub use copying::{boxed, copied};
pub use generating::{Made, make};
pub use measures::{alpha_eq, depth, size};
pub use name_list::Names;
pub use printing::print_term;
pub use renumbering::renumber;
pub use term_file::TermFile;
pub use terms::Term;
pub use translations::Translation;
