//! Invariance of paths: interactions and reductions preserve the paths between free ports
//! (Gonthier, Abadi and Lévy, The Geometry of Optimal Lambda Reduction, POPL 1992).
//!
//! A path leads from a free port with a context to a free port with a context. The nets before and
//! after the interaction of any active pair have the same paths.
//!
//! - `kept`: interactions and reductions whose contracts state the invariance
//! - `laws`: the theorems on interactions, on reductions and on the table of rules
#![tactic(auto)]

mod kept;
mod laws;

pub use kept::{run_kept, step_kept};
pub use laws::{indexes_agree, journal_keeps_paths, step_keeps_paths, wrong_tables_lose_paths};
