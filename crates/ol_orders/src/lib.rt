//! Runs of a net, pair by pair: in three orders, told step by step, and whether two nets are one.
//!
//! - `replaying`: a run on its way, under the names of its nodes
//! - `playing`: a run from a net, round by round
//! - `ordering`: the command `journal`: a run in one of three orders
//! - `pairs`: the active pairs of a net
//! - `words`: names, nodes and lines of traces, as pieces of texts
//! - `turns`: one step, and what is told of it
//! - `telling`: the command `story`: each step of a run, told so that it can be compared with what
//!   was done by hand
//! - `reading`: the net of a file
//! - `comparing`: the command `same`: whether two nets are one up to the numbers of their nodes, by
//!   a traversal over both at once
//! - `laws`: the law of runs in rounds
#![tactic(auto)]

mod comparing;
mod laws;
mod ordering;
mod pairs;
mod playing;
mod reading;
mod replaying;
mod telling;
mod turns;
mod words;

pub use comparing::same;
pub use laws::waves_are_rounds;
pub use ordering::{Order, journal};
pub use replaying::Replay;
pub use telling::story;
