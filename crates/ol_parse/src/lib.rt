//! The parser of term files.
//!
//! - `parsing`: the parser
//! - `bytes`: the scanner over bytes
//! - `tokens`: the parser over tokens, with an explicit stack of open constructs
//! - `flat`: a term as a list of operations on a stack of terms
//! - `depths`: the depth of the term of such a list, before the term is built
//! - `numbers`: from names to de Bruijn numbers
//! - `steps`: the subterms that end at the operations of such a list
//! - `faults`: why a text isn't a term
//! - `laws`: the theorems on the grammar
#![tactic(auto)]

mod bytes;
mod depths;
mod faults;
mod flat;
mod laws;
mod numbers;
mod parsing;
mod steps;
mod tokens;

pub use faults::ParseFault;
pub use laws::{few_leaves, one_dead_place, one_file, one_term};
pub use parsing::parse;
