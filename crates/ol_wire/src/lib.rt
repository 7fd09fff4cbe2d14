//! Shared memory of the parallel machine: a net as 64-bit words that up to 64 threads rewrite by
//! single atomic steps.
//!
//! The house words: a *cell* is a task slot, two words in which an active or stuck pair waits; a
//! *ticket* is the sequence number of an interaction, whose *block* of words it owns; a *seat* is a
//! thread's handle of the shared memory; a *turn* claims the pair of a cell and rewrites it.
//!
//! The words:
//! - `layout`: the number of each word.
//! - `reference`: the content of a word that isn't empty.
//! - `net_words`: the words of a net, before the first step.
//!
//! The interaction of a ticket:
//! - `rewrite`: the pair, its rule, and the number of created nodes and of links.
//! - `blocks`: the wires between the copies of a node.
//! - `begun`: an interaction that has its ticket, the references of its copies, and the ends of its
//!   links.
//! - `entries`: its entry in the trace.
//! - `turn`: the result of a turn.
//!
//! The invariant of the shared memory:
//! - `plan`: the constants of a table.
//! - `view`: what a seat knows and holds.
//! - `law`: the invariant.
//! - `plays`: how each kind of step changes the view of its seat.
//! - `rule_laws`: what the invariant implies.
//!
//! The calls:
//! - `shared`: the table that the threads share. Its parts are `seats`, `turns`, `steps`, `links`,
//!   `moments` and `close`.
//! - `seat`: the handle by which a thread makes steps.
//! - `closed`: the words after no thread shares them any more, and their trace.
//! - `closed_laws`: what these words imply.
//!
//! The toolchain's `atomic_table` and `core` are trusted: a table changes by steps that keep its
//! invariant, and atomic steps are sequentially consistent. No contract promises progress or
//! fairness, and not every contract says that a step was made during its own call: if another seat
//! could have claimed the pair, the contract of a turn permits `Gone` without a look at the cell.
//! The memory for all fuel is allocated at the start.
#![tactic(auto)]

mod begun;
mod blocks;
mod closed;
mod closed_laws;
mod entries;
mod law;
mod layout;
mod net_words;
mod plan;
mod plays;
mod reference;
mod rewrite;
mod rule_laws;
mod seat;
mod shared;
mod turn;
mod view;

pub use closed::{Blocks, Words};
pub use law::Law;
pub use layout::{BLOCK, Parts, port_word};
pub use plan::Plan;
pub use reference::{index_in, is_node, kind_in, place_in};
pub use rule_laws::{
    at_every_moment, last_claims_at_every_moment, live_at_every_moment, nothing_is_overlooked,
    nothing_is_owed,
};
pub use seat::Seat;
pub use shared::Shared;
pub use turn::Turn;
pub use view::{Link, View};
