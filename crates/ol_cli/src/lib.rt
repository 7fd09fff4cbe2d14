//! The top call: from words to a text on a sink and a status.
//!
//! - `top`: the top call
//! - `commands`: a module for each command
//! - `files`: reads a file to its end, or answers why it is refused
//! - `ready`: reads and translates a term file, from its name to the net of its term
//! - `last_tree`: the tree that is read back from the net that the workers leave
//! - `answer`: an answer: a text, its status, and what is handed back with it
//! - `status`: how a call of the program ended
//! - `texts`: the texts that the program writes
//! - `verdicts`: the texts of verdicts
//! - `numbers`: the numbers of a job that rewrites the net of a term and reads it back
//! - `laws`: the theorems about answers
//! - `two_calls`: two calls of `ol` that ask the same of the same files
#![tactic(auto)]

mod answer;
mod commands;
mod files;
mod last_tree;
mod laws;
mod numbers;
mod ready;
mod status;
mod texts;
mod top;
mod two_calls;
mod verdicts;

pub use laws::{
    any_run_tells, demand_has_fuel, ends_say, every_run_answers, one_answer, sources_are_told,
    start_net_is_fit, workers_are_not_seen,
};
pub use status::Status;
pub use top::{Outcome, ol};
pub use two_calls::twice;
