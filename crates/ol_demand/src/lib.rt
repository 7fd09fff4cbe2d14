//! On-demand reduction: a net is read back, and only the active pairs that paths of the readback
//! meet are rewritten.
//!
//! Subterms are read in preorder, with paths for 0 abstractions, for 1 abstraction, and so on. A
//! path up to its first active pair is called a chain. This pair is rewritten, and the chain
//! continues. A part of the net that no head needs is left as it is.
//!
//! Each pair that is rewritten is rewritten in every reduction to normal form, and each head that
//! is found is the head of the initial net, because interactions preserve paths (Gonthier, Abadi
//! and Lévy, The Geometry of Optimal Lambda Reduction, POPL 1992).
//!
//! After an interaction the chain continues at the node where it met the pair: the nodes that it
//! traversed before are still there. A chain is followed for a single number of abstractions at a
//! time, from its start for each number, because an open walk, which covers all numbers at once,
//! doesn't stop at an active pair.
//!
//! - `demanding`: the whole on-demand reduction
//! - `asking`: heads found by chains, whose active pairs are rewritten
//! - `chaining`: chains: paths up to the first active pair
//! - `answers`: the answers of on-demand reduction
//! - `laws`: the theorems on on-demand reduction
//!
//! No contract bounds the crossings of all chains together: a place with q abstractions is read by
//! q + 1 chains, and a chain that has made too many level values starts again.
#![tactic(auto)]

mod answers;
mod asking;
mod chaining;
mod demanding;
mod laws;

pub use answers::Demanded;
pub use demanding::demand;
pub use laws::{demand_run_is_one, each_pair_is_needed, heads_are_of_the_source};
