//! Strong confluence: if some reduction of a sharing graph to normal form exists, all reductions to
//! normal form lead to the same net in the same number of interactions, whatever the order of the
//! active pairs.
//!
//! Two interactions of different active pairs commute, as in any interaction net (Lafont,
//! Interaction Nets, POPL 1990). The theorems are about birth names (creation histories): a created
//! node is named by the two nodes of its interaction and its place, and not by the moment of its
//! creation, so that both orders of two interactions give the same names. The names in a trace
//! contain the moment (the ticket); theorem `birth_follows` translates them into birth names.
//!
//! The theorems have no code. `two_orders` computes the square of two active pairs on a net.
//!
//! - `one_thread`: what the trace of any reduction implies for the reduction by one thread
//! - `square`: two active pairs of a net, rewritten in both orders
//! - `weighing`: the waves (parallel steps) of a trace, by a replay on a net with weights
//! - `wave_laws`: the theorems on waves
//! - `laws`: the theorems on reductions with birth names
//!
//! A wave is a number of a parallel step, and not a time; that no other order needs fewer parallel
//! steps isn't proved.
#![tactic(auto)]

mod laws;
mod one_thread;
mod square;
mod wave_laws;
mod weighing;

pub use laws::{
    birth_follows, birth_names_are_one, complete_runs_agree, done_means_done, names_stay_apart,
    no_run_is_longer, pair_to_front, pairs_commute,
};
pub use one_thread::{one_thread_agrees, same_nets_run_alike};
pub use square::{Square, SquareFault, two_orders};
pub use wave_laws::{heaviest_stays, runs_have_waves, waves_agree};
pub use weighing::{Rewritten, WaveList, Weighing, waves};
