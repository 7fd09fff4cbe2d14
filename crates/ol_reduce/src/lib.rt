//! Parallel reduction: worker threads that take cells (task slots) and rewrite their pairs until no
//! active pair is left, a final sweep over all cells, and the net of the closed shared memory.
//!
//! - `reducing`: a net reduced by any number of workers
//! - `counting`: the same without the trace
//! - `gathering`: from seats to workers and back, and the work of all workers
//! - `workers`: a worker: a seat of the table and a hand of the pool
//! - `working`: the loop of a worker
//! - `sweeping`: the sweep over all cells, after all seats are joined
//! - `answers`: how the work of a seat ended
//! - `reduced`: the result of all workers
//! - `freezing`: the net of the words of a closed table
//! - `live`: the remaining nodes
//! - `chains`: chains of wires
//! - `draft`: a net whose links are being found
//! - `reading`: words by their numbers
//!
//! The contracts of the toolchain's `atomic_table`, `crossbeam_deque`, `crossbeam_utils` and `core`
//! are trusted. A call may wait for other threads: if it returns, its contract holds, but progress
//! and fairness aren't promised. That more than one thread made the turns isn't promised either,
//! nor what the gate is called with.
#![tactic(auto)]

mod answers;
mod chains;
mod counting;
mod draft;
mod freezing;
mod gathering;
mod live;
mod reading;
mod reduced;
mod reducing;
mod sweeping;
mod workers;
mod working;

pub use answers::{End, Sweep, turns_tell};
pub use counting::{Counted, reduce_counted};
pub use freezing::freeze;
pub use reduced::Reduced;
pub use reducing::reduce;
pub use sweeping::sweep;
pub use workers::Worker;
pub use working::worker;
