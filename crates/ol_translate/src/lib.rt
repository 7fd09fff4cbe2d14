//! Translation of terms into nets.
//!
//! - `nets`: the net of a term
//! - `faults`: why a term isn't translated
//! - `parts`: the nodes and links under construction
//! - `wires`: the free variables of a subterm, and the ports at which their wires end
//! - `index`: the position of a variable in a list of wires
//! - `laying`: the recursive construction of nodes and links
//! - `laws`: the theorem on the translations
//!
//! That both translations of a term lead to the same printed tree is only tested.
#![tactic(auto)]

mod faults;
mod index;
mod laws;
mod laying;
mod nets;
mod parts;
mod wires;

pub use faults::TransFault;
pub use laws::translation_is_a_net;
pub use nets::translate;
