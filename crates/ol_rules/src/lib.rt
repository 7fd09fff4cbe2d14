//! Interactions of sharing graphs (Lamping, POPL 1990): a single interaction, reductions by one
//! thread, and traces.
//!
//! - `steps`: an interaction: the two nodes of an active pair are replaced by other nodes
//! - `meetings`: which rules are annihilations
//! - `journal`: traces: the active pairs of a reduction, in order, with names that don't depend on
//!   the order
//! - `names`: from node numbers to names, and back
//! - `under_way`: a reduction in progress, and an interaction that is appended to its trace
//! - `facing`: principal ports that are linked to each other
//! - `awaiting`: node numbers that wait for their turn
//! - `one_thread`: reductions by one thread
//! - `counting`: the number of interactions of each rule
//! - `laws`: the theorems on interactions and on the reduction by one thread
//!
//! The order of the pairs is specified for the reduction by one thread only. That all reductions to
//! normal form lead to the same net, up to node names, is proved in `ol_diamond`.
#![tactic(auto)]

mod awaiting;
mod counting;
mod facing;
mod journal;
mod laws;
mod meetings;
mod names;
mod one_thread;
mod steps;
mod under_way;

pub use awaiting::{await_active, await_beside};
pub use counting::{counted, counts, no_counts};
pub use facing::{are_facing, node_at};
pub use journal::{Counts, Entry, Journal, NodeName};
pub use laws::{a_step_is_a_contraction, a_step_is_a_net, a_step_is_one, one_thread_is_one};
pub use meetings::is_meeting;
pub use names::{Names, Numbers};
pub use one_thread::{Ended, Ran, run};
pub use steps::{StepFault, step};
pub use under_way::UnderWay;
